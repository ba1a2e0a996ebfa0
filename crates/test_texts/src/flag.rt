//! The flags of a message (RFC 5232).
use mail_flags::Flags;
use octets::Octets;
use std::alloc::{AllocError, Global};
use test_files::text_in;

/// What steps make of no flags: their names, `|`, and their letters. A step is `set`, `add` or `remove`, and after a blank the texts
/// of one command, with `;` between two.
pub fn add_flags(alloc: Global, out: &mut Octets, steps: &[Octets]) -> Result<(), AllocError> {
    let mut flags = Flags::new(alloc);
    for step in steps {
        take_step(alloc, &mut flags, step.as_slice())?;
    }
    let names = flags.write(alloc)?;
    let again = Flags::read(alloc, names.as_slice())?;
    out.extend_from_slice(names.as_slice())?;
    out.push(b'|')?;
    out.extend_from_slice(again.letters(alloc)?.as_slice())
}

fn take_step(alloc: Global, flags: &mut Flags, step: &[u8]) -> Result<(), AllocError> {
    let (command, texts) = match step.iter().position(|octet| *octet == b' ') {
        Some(at) => (&step[..at], &step[at + 1..]),
        None => (step, &step[step.len()..]),
    };
    let texts = texts_of(alloc, texts)?;
    match text_in(command) {
        "set" => flags.set(alloc, texts.as_slice()),
        "add" => flags.add(alloc, texts.as_slice()),
        "remove" => {
            flags.remove(texts.as_slice());
            Ok(())
        }
        _ => Ok(()),
    }
}

fn texts_of(alloc: Global, texts: &[u8]) -> Result<Vec<Octets>, AllocError> {
    let mut all = Vec::new(alloc);
    for text in texts.split(|octet| *octet == b';') {
        all.push(Octets::from_slice(alloc, text)?)?;
    }
    Ok(all)
}
