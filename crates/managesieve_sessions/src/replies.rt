//! The replies of a session.
ghost use Rattle.std.specs.Prelude.{◌≡◌, ◌++◌, ◌∷◌, [], Some, None, IfOk, OnOk};
ghost use Rattle.sieve_lex.specs.Faults.{fault_line};
ghost use Rattle.managesieve_protocol.specs.declared.replies.DataLine.TheVariants as line;
ghost use Rattle.managesieve_sessions.specs.Replies as s;

use managesieve_protocol::{DataLine, ReplyCode, ServerReply, Status};
use octets::{List, Octets};
use sieve_lex::ScriptFault;
use sieve_syntax::Capability;
use std::alloc::{AllocError, Global};

/// `OK` and a text.
pub fn ok_reply(alloc: Global, text: &[u8]) -> Result<ServerReply, AllocError>
    ensures { IfOk result (λ reply. reply ≡ s.ok_reply text.now) }
{
    let text = Octets::from_slice(alloc, text)?;
    Ok(of_one_line(alloc, Status::Ok, None, text))
}

/// `NO`, a code if there is one, and a text.
pub fn negative_reply(
    alloc: Global,
    code: Option<ReplyCode>,
    text: &[u8],
) -> Result<ServerReply, AllocError>
    ensures { IfOk result (λ reply. reply ≡ s.negative_reply code text.now) }
{
    let text = Octets::from_slice(alloc, text)?;
    Ok(of_one_line(alloc, Status::No, code, text))
}

/// `NO` and `line N: TEXT`.
pub fn faulty(alloc: Global, fault: ScriptFault) -> Result<ServerReply, AllocError>
    ensures { IfOk result (λ reply. reply ≡ s.negative_reply None (fault_line fault.line fault.kind)) }
{
    let text = fault.told(alloc)?;
    Ok(of_one_line(alloc, Status::No, None, text))
}

/// `BYE` and a text.
pub fn bye_reply(alloc: Global, text: &[u8]) -> Result<ServerReply, AllocError>
    ensures { IfOk result (λ reply. reply ≡ s.bye_reply text.now) }
{
    let text = Octets::from_slice(alloc, text)?;
    Ok(of_one_line(alloc, Status::Bye, None, text))
}

/// `OK "Done."`, with the string that the client sent, if it sent one.
pub fn noop_reply(alloc: Global, tag: &Option<Octets>) -> Result<ServerReply, AllocError>
    ensures { IfOk result (λ reply. reply ≡ s.noop_reply tag.now) }
{
    let Some(tag) = tag else {
        return ok_reply(alloc, b"Done.");
    };
    let tag = tag.try_clone(alloc)?;
    let text = Octets::from_slice(alloc, b"Done.")?;
    Ok(of_one_line(alloc, Status::Ok, Some(ReplyCode::Tag(tag)), text))
}

/// Lines, and `OK` alone.
pub fn listed(lines: List<DataLine>) -> ServerReply
    ensures { result ≡ s.listed lines }
{
    ServerReply {
        lines,
        word: Some(Status::Ok),
        code: None,
        text: None,
    }
}

/// The empty string of a challenge, without a last line.
pub fn challenge_reply(alloc: Global) -> Result<ServerReply, AllocError>
    ensures { IfOk result (λ reply. reply ≡ s.challenge_reply) }
{
    let mut lines = List::new(alloc);
    lines.push(DataLine::Empty)?;
    Ok(ServerReply {
        lines,
        word: None,
        code: None,
        text: None,
    })
}

/// What the server can do, and whose scripts it serves after a login: this is the greeting too (RFC 5804, 1.7).
pub fn capability_reply(alloc: Global, user: &Option<Octets>) -> Result<ServerReply, AllocError>
    ensures { IfOk result (λ reply. reply ≡ s.capability_reply user.now) }
{
    let mut lines = List::new(alloc);
    add_capability(alloc, &mut lines, b"IMPLEMENTATION", Some(b"sieved 1"))?;
    add_capability(alloc, &mut lines, b"SASL", Some(b"PLAIN"))?;
    add_capability(alloc, &mut lines, b"SIEVE", Some(Capability::offered()))?;
    add_capability(alloc, &mut lines, b"MAXREDIRECTS", Some(b"16"))?;
    add_capability(alloc, &mut lines, b"UNAUTHENTICATE", None)?;
    add_capability(alloc, &mut lines, b"VERSION", Some(b"1.0"))?;
    if let Some(user) = user {
        add_capability(alloc, &mut lines, b"OWNER", Some(user.as_slice()))?;
    }
    Ok(listed(lines))
}

// Appends a capability, with its value if it has one.
fn add_capability(
    alloc: Global,
    lines: &mut List<DataLine>,
    name: &[u8],
    value: Option<&[u8]>,
) -> Result<(), AllocError>
    ensures { OnOk result (lines.new ≡ lines.old ++ line.Capability name.now (s.borrowed_text value.entry) ∷ []) }
{
    let value = copy_of(alloc, value)?;
    let name = Octets::from_slice(alloc, name)?;
    lines.push(DataLine::Capability { name, value })
}

// A copy of the text, if there is one.
fn copy_of(alloc: Global, text: Option<&[u8]>) -> Result<Option<Octets>, AllocError>
    ensures { IfOk result (λ copy. copy ≡ s.borrowed_text text.entry) }
{
    match text {
        Some(text) => Ok(Some(Octets::from_slice(alloc, text)?)),
        None => Ok(None),
    }
}

fn of_one_line(alloc: Global, status: Status, code: Option<ReplyCode>, text: Octets) -> ServerReply
    ensures { result ≡ record { lines = []; word = Some status; code = code; text = Some text } }
{
    ServerReply {
        lines: List::new(alloc),
        word: Some(status),
        code,
        text: Some(text),
    }
}
