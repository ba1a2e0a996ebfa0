//! What the host says of each delivery, as the arguments have it: read once, when the program begins.
use crate::check::{MOST, read_front, tell_unread};
use cli_run::check::check_text;
use cli_run::fault::{RunFault, refuse};
use cli_run::fault_with_cause::FaultWithCause;
use cli_run::host_texts::HostTexts;
use cli_subcommands::HostFiles;
use daemon_log::file_digest::file_digest_line;
use mail_dates::HostZone;
use octets::{Octets, Texts};
use std::alloc::{AllocError, Global};
use std::fs::Files;
use std::io::Write;
use store_engine::{HostScripts, HostSettings};

/// What is told where more files are named than [`cli_subcommands::MAX_HOST_FILES`].
const TOO_MANY: &str = "more than 16 files for --before, or for --after";

/// Reads what the daemon's host says of each delivery: its zone is known, and its scripts are read from their files.
///
/// # Errors
///
/// Those of [`read_texts`].
pub fn read_settings<F: Files, W: Write, E: Write>(
    system: &F,
    alloc: Global,
    zone: HostZone,
    files: &HostFiles<'_>,
    output: &mut W,
    errors: &mut E,
) -> Result<HostSettings, u8> {
    let texts = read_texts(system, alloc, files, output, errors)?;
    Ok(HostSettings {
        zone,
        default: texts.default,
        scripts: texts.scripts,
    })
}

/// Reads the host's scripts from the files that the arguments name. Each is checked as `check` does, in the order in which they run.
/// At the first one that can't be read or isn't valid that is reported as `check` does it, and the error is the exit status.
pub fn read_texts<F: Files, W: Write, E: Write>(
    system: &F,
    alloc: Global,
    files: &HostFiles<'_>,
    output: &mut W,
    errors: &mut E,
) -> Result<HostTexts, u8> {
    if files.are_too_many() {
        let fault = FaultWithCause {
            fault: RunFault::BadArgument,
            cause: Some(TOO_MANY),
        };
        return Err(fault.refuse(errors));
    }
    let before = read_all_of(system, alloc, &files.before, output, errors)?;
    let default = match files.default {
        Some(path) => Some(read_script(system, alloc, path, output, errors)?),
        None => None,
    };
    let after = read_all_of(system, alloc, &files.after, output, errors)?;
    Ok(HostTexts {
        default,
        scripts: HostScripts { before, after },
    })
}

/// Reads the scripts in files, in their order.
fn read_all_of<F: Files, W: Write, E: Write>(
    system: &F,
    alloc: Global,
    paths: &[&str],
    output: &mut W,
    errors: &mut E,
) -> Result<Texts, u8> {
    let mut texts = Texts::new(alloc);
    for path in paths {
        let text = read_script(system, alloc, path, output, errors)?;
        if let Err(refused) = texts.push(text) {
            return Err(refuse(errors, RunFault::from(refused)));
        }
    }
    Ok(texts)
}

/// Reads the script in a file, and checks it.
fn read_script<F: Files, W: Write, E: Write>(
    system: &F,
    alloc: Global,
    path: &str,
    output: &mut W,
    errors: &mut E,
) -> Result<Octets, u8> {
    let mut room = Vec::new(alloc);
    if let Err(refused) = room.resize(MOST, 0) {
        return Err(refuse(errors, RunFault::from(refused)));
    }
    let len = match read_front(system, path, room.as_mut_slice()) {
        Ok(len) => len,
        Err(error) => return Err(tell_unread(errors, path, error.kind())),
    };
    room.truncate(len);
    let status = check_text(alloc, Some(path), room.as_slice(), output, errors);
    if status != 0 {
        return Err(status);
    }
    match Octets::from_slice(alloc, room.as_slice()) {
        Ok(text) => Ok(text),
        Err(refused) => Err(refuse(errors, RunFault::from(refused))),
    }
}

/// The lines of the log that name the files of the host's scripts, in the order in which they run, each with its text's SHA-256.
pub fn lines_of(
    alloc: Global,
    files: &HostFiles<'_>,
    settings: &HostSettings,
) -> Result<Octets, AllocError> {
    let HostScripts { before, after } = &settings.scripts;
    let mut lines = Octets::new(alloc);
    add_lines(&mut lines, alloc, b"before", &files.before, before)?;
    if let (Some(path), Some(text)) = (files.default, &settings.default) {
        add_line(&mut lines, alloc, b"default", path, text)?;
    }
    add_lines(&mut lines, alloc, b"after", &files.after, after)?;
    Ok(lines)
}

fn add_lines(
    lines: &mut Octets,
    alloc: Global,
    word: &[u8],
    paths: &[&str],
    texts: &Texts,
) -> Result<(), AllocError> {
    for (path, text) in paths.iter().zip(texts.as_slice().iter()) {
        add_line(lines, alloc, word, path, text)?;
    }
    Ok(())
}

fn add_line(
    lines: &mut Octets,
    alloc: Global,
    word: &[u8],
    path: &str,
    text: &Octets,
) -> Result<(), AllocError> {
    let line = file_digest_line(alloc, word, path.as_bytes(), text.as_slice())?;
    lines.extend_from_slice(line.as_slice())
}
