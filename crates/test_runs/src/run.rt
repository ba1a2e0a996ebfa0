//! Runs of the program: its words, its input, and what they leave.
use crate::stream::{NEVER, ShortWriter};
use crate::talk;
use cli_run::fault::RunFault;
use cli_run::host_texts::HostTexts;
use cli_run::run::run_program;
use cli_subcommands::RawArgs;
use maildir_files::{KeptMail, MailSink, MemorySink};
use octets::{Octets, parse_decimal, write_decimal};
use sqlite::{Connection, Error};
use std::alloc::{AllocError, Global};
use std::format;
use store_accounts::Refusal;
use store_engine::HostScripts;
use store_lock::{Keeper, MemoryKeeper};
use test_files::LinePart::{Number, Text};
use test_files::{Answers, add_parts, text_in, words_of};

/// What the clock says, in seconds since 1970-01-01 UTC.
pub const CLOCK: Option<u64> = Some(1_700_000_000);

/// What the system gives at random.
const RANDOM: Option<[u8; 16]> = Some(*b"0123456789abcdef");

/// What a run may tell, including those that no case can bring about.
const FAULTS: [RunFault; 27] = [
    RunFault::Refused(Refusal::Memory),
    RunFault::Refused(Refusal::Store),
    RunFault::Busy,
    RunFault::Stream,
    RunFault::Refused(Refusal::NotOurs),
    RunFault::Refused(Refusal::NoUser),
    RunFault::Refused(Refusal::TooLarge),
    RunFault::Refused(Refusal::BadEnvelope),
    RunFault::Refused(Refusal::BadMoment),
    RunFault::Refused(Refusal::UserExists),
    RunFault::Refused(Refusal::BadUser),
    RunFault::Refused(Refusal::NoRow),
    RunFault::Refused(Refusal::AccountClosed),
    RunFault::Refused(Refusal::UserIsOpen),
    RunFault::Refused(Refusal::UserHasMail),
    RunFault::Refused(Refusal::BadScriptName),
    RunFault::Refused(Refusal::ScriptTooLarge),
    RunFault::Refused(Refusal::TooManyScripts),
    RunFault::Refused(Refusal::BadAccount),
    RunFault::NoMessage,
    RunFault::NoMaildir,
    RunFault::NoScript,
    RunFault::ScriptActive,
    RunFault::ScriptExists,
    RunFault::Invalid,
    RunFault::BadInput,
    RunFault::BadArgument,
];

/// The words of a delivery to alice.
const DELIVERY: &[u8] = b"deliver --db F --to alice@example.org alice";

/// Runs on a store in memory, whose messages leave it into memory.
#[derive(Drop)]
pub struct MemoryRuns {
    keeper: MemoryKeeper,
    sink: MemorySink,
}

impl MemoryRuns {
    /// No store is there yet.
    pub fn new(alloc: Global) -> Result<MemoryRuns, AllocError> {
        Ok(MemoryRuns {
            keeper: MemoryKeeper::new(alloc)?,
            sink: MemorySink::new(alloc),
        })
    }

    /// From now on the database is another one, made by these statements of SQL, and no message has left it.
    fn replace(&mut self, alloc: Global, sql: &str) -> Result<(), Error> {
        let mut conn = Connection::open_in_memory(alloc)?;
        let made = conn.execute_batch(sql);
        self.keeper = MemoryKeeper::over(alloc, conn);
        self.sink = MemorySink::new(alloc);
        made
    }

    /// Appends what comes of a row of two columns: `new` makes the database, `busy`, `unclosed`, `fail` and `nowhere` say what
    /// the keeper and the sink refuse, `mails` delivers, and `kept` tells what the sink has.
    fn add_set(
        &mut self,
        alloc: Global,
        out: &mut Octets,
        call: &str,
        text: &[u8],
    ) -> Result<(), AllocError> {
        let number = parse_decimal(text).unwrap_or(0);
        match call {
            "new" => return self.add_replaced(alloc, out, text_in(text)),
            "mails" => return self.deliver(alloc, out, number),
            "kept" => return add_messages(out, self.sink.messages()),
            "busy" => self.keeper.be_busy_after(number),
            "unclosed" => self.keeper.fail_close_after(number),
            "fail" => self.sink.fail_after(number),
            "nowhere" => self.sink.refuse_maildir(),
            _ => return out.extend_from_slice(b"no such call"),
        }
        out.extend_from_slice(b"done")
    }

    fn add_replaced(
        &mut self,
        alloc: Global,
        out: &mut Octets,
        sql: &str,
    ) -> Result<(), AllocError> {
        let made = self.replace(alloc, sql).is_ok();
        out.extend_from_slice(if made { b"done" } else { b"refused" })
    }

    /// Delivers that many messages of the same octets to alice.
    fn deliver(&mut self, alloc: Global, out: &mut Octets, times: u64) -> Result<(), AllocError> {
        for _ in 0..times {
            self.deliver_one(alloc)?;
        }
        out.extend_from_slice(b"done")
    }

    fn deliver_one(&mut self, alloc: Global) -> Result<(), AllocError> {
        let run = Run {
            path: "",
            words: DELIVERY,
            input: b"Subject: more\n\n",
            writes: NEVER,
            clock: CLOCK,
            random: RANDOM,
            host: HostCall::Nothing,
            shows_words: false,
        };
        let mut out = Octets::new(alloc);
        add_run(alloc, &mut out, &mut self.keeper, &mut self.sink, run)
    }
}

impl Answers for MemoryRuns {
    fn answer(
        &mut self,
        alloc: Global,
        out: &mut Octets,
        given: &[Octets],
    ) -> Result<(), AllocError> {
        match given {
            [call, text] => self.add_set(alloc, out, text_in(call.as_slice()), text.as_slice()),
            _ => answer_run(alloc, out, &mut self.keeper, &mut self.sink, "", given),
        }
    }
}

/// Appends how many messages there are, and each of them after a `|`, with its flags after a `#` if it has some.
fn add_messages(out: &mut Octets, messages: &[KeptMail]) -> Result<(), AllocError> {
    write_decimal(out, messages.len() as u64)?;
    for mail in messages {
        add_parts(out, &[Text(b"|"), Text(mail.message.as_slice())])?;
        add_flags(out, mail.flags.as_slice())?;
    }
    Ok(())
}

/// Appends a message's flags, if it has some.
fn add_flags(out: &mut Octets, flags: &[u8]) -> Result<(), AllocError> {
    if flags.is_empty() {
        return Ok(());
    }
    add_parts(out, &[Text(b"#"), Text(flags)])
}

/// Appends what comes of a row that any keeper can have: `run`, `full`, `write N`, `before TEXT`, `default TEXT`, `after TEXT`, `timeless` and
/// `said` are runs of the program, `send` is a command, and `greet`, `talk`, `gone` and `deaf` are sessions.
pub fn answer_run<'a, K: Keeper, T: MailSink>(
    alloc: Global,
    out: &mut Octets,
    keeper: &mut K,
    sink: &mut T,
    path: &'a str,
    given: &'a [Octets],
) -> Result<(), AllocError> {
    let [call, text, input] = given else {
        return out.extend_from_slice(b"not that many columns");
    };
    let (words, input) = (text.as_slice(), input.as_slice());
    match text_in(call.as_slice()) {
        call @ ("run" | "full" | "timeless" | "said") => {
            let run = Run {
                path,
                words,
                input,
                writes: if call == "full" { 0 } else { NEVER },
                clock: if call == "timeless" { None } else { CLOCK },
                random: if call == "timeless" { None } else { RANDOM },
                host: HostCall::Nothing,
                shows_words: call == "said",
            };
            add_run(alloc, out, keeper, sink, run)
        }
        call if call.starts_with("write ") => {
            let run = Run {
                path,
                words,
                input,
                writes: writes_in(call),
                clock: CLOCK,
                random: RANDOM,
                host: HostCall::Nothing,
                shows_words: false,
            };
            add_run(alloc, out, keeper, sink, run)
        }
        call if host_call(call).is_some() => {
            let run = Run {
                path,
                words,
                input,
                writes: NEVER,
                clock: CLOCK,
                random: RANDOM,
                host: host_call(call).unwrap_or(HostCall::Nothing),
                shows_words: false,
            };
            add_run(alloc, out, keeper, sink, run)
        }
        "told" => add_told(alloc, out, text_in(words)),
        "send" => talk::add_sent(alloc, out, keeper, path, input),
        call => talk::answer_talk(alloc, out, keeper, path, call, words, input),
    }
}

/// From which call of the output on a row `write N` has it fail.
fn writes_in(call: &str) -> u64 {
    match call.strip_prefix("write ") {
        Some(number) => parse_decimal(number.as_bytes()).unwrap_or(0),
        None => 0,
    }
}

/// The script that the host has, by its text, if it has one.
#[derive(Clone, Copy)]
pub enum HostCall<'a> {
    Nothing,
    /// Before each user's script.
    Before(&'a [u8]),
    /// For accounts without an active one.
    Default(&'a [u8]),
    /// After each user's script.
    After(&'a [u8]),
}

impl HostCall<'_> {
    /// The texts of the host's scripts.
    fn texts(self, alloc: Global) -> Result<HostTexts, AllocError> {
        let mut texts = HostTexts {
            default: None,
            scripts: HostScripts::none(alloc),
        };
        match self {
            HostCall::Nothing => {}
            HostCall::Before(text) => texts.scripts.before.push(Octets::from_slice(alloc, text)?)?,
            HostCall::Default(text) => texts.default = Some(Octets::from_slice(alloc, text)?),
            HostCall::After(text) => texts.scripts.after.push(Octets::from_slice(alloc, text)?)?,
        }
        Ok(texts)
    }
}

/// What a row `before TEXT`, `default TEXT` or `after TEXT` says.
fn host_call(call: &str) -> Option<HostCall<'_>> {
    let (word, text) = call.split_once(' ')?;
    match word {
        "before" => Some(HostCall::Before(text.as_bytes())),
        "default" => Some(HostCall::Default(text.as_bytes())),
        "after" => Some(HostCall::After(text.as_bytes())),
        _ => None,
    }
}

/// A run of the program.
#[derive(Clone, Copy)]
pub struct Run<'a> {
    /// The path of the store, for which `F` stands in the words.
    pub path: &'a str,
    pub words: &'a [u8],
    pub input: &'a [u8],
    /// From which of its calls on the output takes nothing more.
    pub writes: u64,
    /// The moment in seconds since 1970; none if the clock can't be read.
    pub clock: Option<u64>,
    /// What the system gives at random; none if it gives nothing.
    pub random: Option<[u8; 16]>,
    pub host: HostCall<'a>,
    /// Whether all is shown of what is told of wrong words.
    pub shows_words: bool,
}

/// Appends what a run leaves.
pub fn add_run<K: Keeper, T: MailSink>(
    alloc: Global,
    out: &mut Octets,
    keeper: &mut K,
    sink: &mut T,
    run: Run<'_>,
) -> Result<(), AllocError> {
    let words = RawArgs::new(alloc, words_of(alloc, run.words, run.path)?)?;
    let host = run.host.texts(alloc)?;
    let mut left = run.input;
    let mut output = ShortWriter::new(alloc, run.writes);
    let mut errors = Vec::new(alloc);
    let status = run_program(
        alloc,
        &words,
        &mut left,
        &mut output,
        &mut errors,
        keeper,
        run.clock,
        run.random,
        host,
        sink,
    );
    let told = errors.as_slice();
    add_all_left(
        out,
        status,
        output.written.as_slice(),
        if run.shows_words {
            told
        } else {
            beginning_of(told)
        },
        left.len(),
    )
}

/// Appends `STATUS|LINE` of the fault with this text.
fn add_told(alloc: Global, out: &mut Octets, text: &str) -> Result<(), AllocError> {
    for fault in FAULTS {
        if is_told_as(alloc, fault, text)? {
            let status = u64::from(fault.status());
            return add_parts(out, &[Number(status), Text(b"|"), Text(fault.line())]);
        }
    }
    out.extend_from_slice(b"no such fault")
}

fn is_told_as(alloc: Global, fault: RunFault, text: &str) -> Result<bool, AllocError> {
    let told = format!(in alloc; "{fault}")?;
    Ok(told.as_str() == text)
}

/// Appends what a run leaves, and how many octets of the input weren't read, if any.
fn add_all_left(
    out: &mut Octets,
    status: u8,
    output: &[u8],
    errors: &[u8],
    unread: usize,
) -> Result<(), AllocError> {
    add_left(out, status, output, errors)?;
    if unread == 0 {
        return Ok(());
    }
    add_parts(out, &[Text(b"|unread "), Number(unread as u64)])
}

/// What is shown of what was told: of wrong words only the beginning, `error: `.
fn beginning_of(told: &[u8]) -> &[u8] {
    if told.starts_with(b"error: ") {
        return b"error: ";
    }
    told
}

/// Appends `STATUS|OUTPUT|FAULTS`.
pub fn add_left<'a>(
    out: &mut Octets,
    status: u8,
    output: &'a [u8],
    errors: &'a [u8],
) -> Result<(), AllocError> {
    add_parts(
        out,
        &[
            Number(u64::from(status)),
            Text(b"|"),
            Text(output),
            Text(b"|"),
            Text(errors),
        ],
    )
}
