//! How the characters of a name are written in a directory's name.
ghost use Rattle.std.specs.Prelude.{◌≡◌, [], ◌++◌, IsTrue, IfOk, OnOk, string_bytes};
ghost use Rattle.std.specs.Int.{w16, to_be_bytes};
ghost use Rattle.octets.specs.Ascii.{is_printable};
ghost use Rattle.maildir_files.specs.Spelling.{IsModified, run_spelled, spelled_name, character_spelling, separator_octet, utf16_of, spelled_directory};

use crate::separator::Separator;
use base64::alphabet::IMAP_MUTF7;
use base64::engine::GeneralPurpose;
use base64::engine::general_purpose::NO_PAD;
use std::alloc::{AllocError, Global};

/// The directory of a name that is UTF-8: `.` and its characters as they are written.
/// Time and memory are linear in the name.
pub(crate) fn written(alloc: Global, name: &str, separator: Separator) -> Result<String, AllocError>
    ensures { IfOk result (λ directory. string_bytes directory ≡ spelled_directory separator name.now) }
{
    let mut directory = String::from_str(alloc, ".")?;
    push_characters(alloc, &mut directory, name, separator)?;
    Ok(directory)
}

/// Appends the characters of a text of whole levels as they are written.
fn push_characters(
    alloc: Global,
    directory: &mut String,
    text: &str,
    separator: Separator,
) -> Result<(), AllocError>
    ensures { OnOk result (string_bytes directory.new ≡ string_bytes directory.old ++ spelled_name separator text.now) }
{
    let engine = modified_base64();
    let mut run = Vec::new(alloc);
    let mut begins = true;
    for character in text.chars() {
        if is_printable(character) {
            push_run(&engine, directory, &mut run)?;
            push_printable(directory, character, separator, begins)?;
            begins = character == char::from(separator.octet());
        } else {
            push_units(&mut run, character)?;
            begins = false;
        }
    }
    push_run(&engine, directory, &mut run)?;
    Ok(())
}

/// A character from 32 to 126.
fn is_printable(character: char) -> bool
    ensures { result ≡ is_printable character }
{
    ' ' <= character && character <= '~'
}

/// Base64 of RFC 3501, section 5.1.3: `,` in place of `/`, and no padding.
fn modified_base64() -> GeneralPurpose
    ensures { IsModified result }
{
    GeneralPurpose::new(&IMAP_MUTF7, NO_PAD)
}

/// Appends a run that has ended, as it is written, and empties it; nothing if there is none.
fn push_run(
    engine: &GeneralPurpose,
    directory: &mut String,
    run: &mut Vec<u8>,
) -> Result<(), AllocError>
    requires { IsModified engine.now }
    ensures empty { OnOk result (run.new.items ≡ []) }
    ensures written { OnOk result (string_bytes directory.new ≡ string_bytes directory.old ++ run_spelled run.old.items) }
{
    let octets = run.as_slice();
    if octets.is_empty() {
        return Ok(());
    }
    directory.push_str("&")?;
    engine.encode_string(octets, directory)?;
    directory.push_str("-")?;
    run.clear();
    Ok(())
}

/// Appends a character from 32 to 126 as it is written, told whether it begins a level.
fn push_printable(
    directory: &mut String,
    character: char,
    separator: Separator,
    begins: bool,
) -> Result<(), AllocError>
    requires { IsTrue (is_printable character) }
    ensures { OnOk result (string_bytes directory.new ≡ string_bytes directory.old ++ character_spelling separator begins character) }
{
    if character == char::from(separator.octet()) {
        return directory.push_str(".");
    }
    match character {
        '.' => directory.push_str("\\2e"),
        '/' => directory.push_str("\\2f"),
        '\\' => directory.push_str("\\5c"),
        '&' => directory.push_str("&-"),
        '~' if begins => directory.push_str("\\7e"),
        _ => directory.push(character),
    }
}

/// Appends a character's UTF-16, the high octet of each unit first.
fn push_units(run: &mut Vec<u8>, character: char) -> Result<(), AllocError>
    ensures { OnOk result (run.new.items ≡ run.old.items ++ utf16_of character) }
{
    let code = character as u32;
    if code < 0x1_0000 {
        return push_unit(run, code as u16);
    }
    let above = code - 0x1_0000;
    push_unit(run, (0xD800 + above / 0x400) as u16)?;
    push_unit(run, (0xDC00 + above % 0x400) as u16)
}

fn push_unit(run: &mut Vec<u8>, unit: u16) -> Result<(), AllocError>
    ensures { OnOk result (run.new.items ≡ run.old.items ++ to_be_bytes w16 unit) }
{
    run.extend_from_slice(&unit.to_be_bytes())
}
