//! What is answered to events.
use cli_run::report::print_report;
use octets::Octets;
use std::alloc::{AllocError, Global};
use std::format;
use store_engine::{Answer, Progress, QueuedMessage, Refusal, Report, ScriptObjection};
use test_files::LinePart::{Number, Text};
use test_files::add_parts;

/// Appends the answers that are shown.
pub fn add_shown(
    alloc: Global,
    out: &mut Octets,
    answers: &[Answer],
    shown: &[bool],
) -> Result<(), AllocError> {
    for (answer, is_shown) in answers.iter().zip(shown.iter()) {
        if *is_shown {
            add_answer(alloc, out, answer)?;
        }
    }
    Ok(())
}

/// Appends what was answered: how the session goes on, the report, the row, or the refusal.
fn add_answer(alloc: Global, out: &mut Octets, answer: &Answer) -> Result<(), AllocError> {
    match answer {
        Answer::Out(progress, octets) => add_sent(out, *progress, octets.as_slice()),
        Answer::Delivered(report) => add_report(alloc, out, report),
        Answer::Added => add_word_line(out, b"", b"added"),
        Answer::Imported => add_word_line(out, b"", b"imported"),
        Answer::Taken(row) => add_row(out, row),
        Answer::MailTaken => add_word_line(out, b"", b"mail taken"),
        Answer::Changed => add_word_line(out, b"", b"changed"),
        Answer::Stored => add_word_line(out, b"", b"stored"),
        Answer::Invalid(_) => add_word_line(out, b"", b"invalid"),
        Answer::Edited => add_word_line(out, b"", b"edited"),
        Answer::Objected(objection) => add_word_line(out, b"", objection_word(*objection)),
        Answer::Closed => add_word_line(out, b"", b"closed"),
        Answer::Opened => add_word_line(out, b"", b"opened"),
        Answer::Removed => add_word_line(out, b"", b"removed"),
        Answer::NoticesTaken => add_word_line(out, b"", b"notices taken"),
        Answer::Ignored => add_word_line(out, b"", b"ignored"),
        Answer::Refused(refusal) => add_refusal(alloc, out, *refusal),
    }
}

/// The word for what stands against a change of scripts.
fn objection_word(objection: ScriptObjection) -> &'static [u8] {
    match objection {
        ScriptObjection::NoScript => b"no script",
        ScriptObjection::IsActive => b"is active",
        ScriptObjection::NameTaken => b"name taken",
    }
}

/// Appends the report on a delivery.
fn add_report(alloc: Global, out: &mut Octets, report: &Report) -> Result<(), AllocError> {
    let mut text = Vec::new(alloc);
    match print_report(report, &mut text) {
        Ok(()) => out.extend_from_slice(text.as_slice()),
        Err(_) => Err(AllocError),
    }
}

/// Appends what a client is sent, without the CRLF at its end, and a line `need` or `close` if the session waits for
/// octets or has ended.
fn add_sent(out: &mut Octets, progress: Progress, octets: &[u8]) -> Result<(), AllocError> {
    add_octets(out, octets)?;
    match progress {
        Progress::Done => Ok(()),
        Progress::Need => add_word_line(out, b"", b"need"),
        Progress::Close => add_word_line(out, b"", b"close"),
    }
}

fn add_octets(out: &mut Octets, octets: &[u8]) -> Result<(), AllocError> {
    match octets.strip_suffix(b"\r\n") {
        Some(line) => add_word_line(out, b"", line),
        None if octets.is_empty() => Ok(()),
        None => add_word_line(out, b"no line end: ", octets),
    }
}

fn add_row(out: &mut Octets, row: &QueuedMessage) -> Result<(), AllocError> {
    add_parts(
        out,
        &[
            Text(b"taken "),
            Number(row.id),
            Text(b" "),
            Text(row.target.as_slice()),
            Text(b"\n"),
        ],
    )
}

/// Appends why something was refused.
pub fn add_refusal(alloc: Global, out: &mut Octets, refusal: Refusal) -> Result<(), AllocError> {
    let told = format!(in alloc; "{refusal}")?;
    add_word_line(out, b"refused: ", told.as_bytes())
}

/// Appends a word and a text as a line.
pub fn add_word_line<'a>(
    out: &mut Octets,
    word: &'a [u8],
    text: &'a [u8],
) -> Result<(), AllocError> {
    add_parts(out, &[Text(word), Text(text), Text(b"\n")])
}
