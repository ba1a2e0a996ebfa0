//! What comes first in the octets of a ManageSieve client (RFC 5804).
use managesieve_protocol::{ClientCommand, ClientItem, ItemExtent, Scan, extent, first};
use octets::Octets;
use std::alloc::{AllocError, Global};
use test_files::LinePart::{Number, Text};
use test_files::add_parts;

/// How many octets the first item takes, and what it says. `extent` has to reach as far, and a scan too, octet by octet and in two pieces.
pub fn add_first(
    alloc: Global,
    out: &mut Octets,
    octets: &[u8],
    state: &[u8],
) -> Result<(), AllocError> {
    let pending = state == b"challenged".as_slice();
    let item = first(alloc, octets, pending)?;
    add_if_agreed(out, &item, octets, pending)
}

fn add_if_agreed(
    out: &mut Octets,
    item: &ClientItem,
    octets: &[u8],
    pending: bool,
) -> Result<(), AllocError> {
    match other_reach(reach_of(item), octets, pending) {
        Some(other) => out.extend_from_slice(other),
        None => add_item(out, item),
    }
}

/// How far an item goes.
fn reach_of(item: &ClientItem) -> ItemExtent {
    match item {
        ClientItem::Need => ItemExtent::Need,
        ClientItem::TooBig => ItemExtent::TooBig,
        ClientItem::Bad(used) => ItemExtent::Bad(*used),
        ClientItem::Command(_, used) => ItemExtent::Command(*used),
    }
}

/// What says that the first item goes another way than this, if something does.
fn other_reach(reach: ItemExtent, octets: &[u8], pending: bool) -> Option<&'static [u8]> {
    if extent(octets, pending) != reach {
        return Some(b"extent says another");
    }
    if octet_by_octet(octets, pending) != reach || in_two_pieces(octets, pending) != reach {
        return Some(b"a scan says another");
    }
    None
}

fn octet_by_octet(octets: &[u8], pending: bool) -> ItemExtent {
    let mut scan = Scan::new(pending);
    for octet in octets {
        let ItemExtent::Need = scan.state() else {
            break;
        };
        scan.turn(*octet);
    }
    scan.state()
}

fn in_two_pieces(octets: &[u8], pending: bool) -> ItemExtent {
    let (front, rest) = octets.split_at(octets.len() / 2);
    let mut scan = Scan::new(pending);
    if scan.feed(front) == front.len() {
        let _taken = scan.feed(rest);
    }
    scan.state()
}

fn add_item(out: &mut Octets, item: &ClientItem) -> Result<(), AllocError> {
    match item {
        ClientItem::Need => out.extend_from_slice(b"need more"),
        ClientItem::TooBig => out.extend_from_slice(b"too big"),
        ClientItem::Bad(used) => add_parts(out, &[Number(*used as u64), Text(b" bad")]),
        ClientItem::Command(command, used) => {
            add_parts(out, &[Number(*used as u64), Text(b" ")])?;
            add(out, command)
        }
    }
}

fn add(out: &mut Octets, command: &ClientCommand) -> Result<(), AllocError> {
    match command {
        ClientCommand::Capability => out.extend_from_slice(b"capability"),
        ClientCommand::Noop(tag) => add_some(out, b"noop", tag.as_ref()),
        ClientCommand::Logout => out.extend_from_slice(b"logout"),
        ClientCommand::Authenticate {
            mechanism,
            response,
        } => add_login(out, mechanism, response.as_ref()),
        ClientCommand::Unauthenticate => out.extend_from_slice(b"unauthenticate"),
        ClientCommand::HaveSpace { name, size } => add_parts(
            out,
            &[
                Text(b"space|"),
                Text(name.as_slice()),
                Text(b"|"),
                Number(*size as u64),
            ],
        ),
        ClientCommand::PutScript { name, script } => add_two(out, b"put", name, script),
        ClientCommand::CheckScript(script) => add_one(out, b"check", script),
        ClientCommand::ListScripts => out.extend_from_slice(b"list"),
        ClientCommand::SetActive(name) => add_one(out, b"active", name),
        ClientCommand::GetScript(name) => add_one(out, b"get", name),
        ClientCommand::DeleteScript(name) => add_one(out, b"delete", name),
        ClientCommand::RenameScript { old, new } => add_two(out, b"rename", old, new),
        ClientCommand::Response(value) => add_one(out, b"response", value),
    }
}

fn add_login(
    out: &mut Octets,
    mechanism: &Octets,
    response: Option<&Octets>,
) -> Result<(), AllocError> {
    add_one(out, b"authenticate", mechanism)?;
    add_some(out, b"", response)
}

fn add_one<'a>(out: &mut Octets, word: &'a [u8], value: &'a Octets) -> Result<(), AllocError> {
    add_parts(out, &[Text(word), Text(b"|"), Text(value.as_slice())])
}

fn add_two(
    out: &mut Octets,
    word: &[u8],
    value: &Octets,
    other: &Octets,
) -> Result<(), AllocError> {
    add_one(out, word, value)?;
    add_one(out, b"", other)
}

fn add_some(out: &mut Octets, word: &[u8], value: Option<&Octets>) -> Result<(), AllocError> {
    match value {
        Some(value) => add_one(out, word, value),
        None => out.extend_from_slice(word),
    }
}
