//! The first item in a stream of octets.
ghost use Rattle.std.specs.Prelude.{◌≡◌, ◌≢◌, ◌↔◌, ◌++◌, ℕ, Bool, true, List, IfOk, OnErr};
ghost use Rattle.managesieve_protocol.specs.declared.items.ClientItem.{ClientItem as ItemValue};
ghost use Rattle.managesieve_protocol.specs.declared.items.ClientItem.TheVariants as item;
ghost use Rattle.managesieve_protocol.specs.declared.items.ClientItem.TheVariants.{Need};
ghost use Rattle.managesieve_protocol.specs.declared.items.ItemExtent.{ItemExtent as ReachValue};
ghost use Rattle.managesieve_protocol.specs.declared.items.ItemExtent.TheVariants as reach;
ghost use Rattle.managesieve_protocol.specs.Items.{IsInLiteral, IsFirstExtent, IsFirstItem};
ghost use Rattle.managesieve_protocol.specs.Machine.{run, start_state, in_literal};
ghost use Rattle.managesieve_protocol.specs.Scanning.{extent_of};
ghost use Rattle.managesieve_protocol.specs.Values.{item_of, item_at as item_at_of, takes_memory};

use crate::commands::ClientCommand;
use crate::reading;
use crate::scanner::Scan;
use std::alloc::{AllocError, Global};

/// The first item in the unread octets of a client, with the command's value.
#[derive(Drop)]
pub enum ClientItem {
    /// The item isn't complete yet.
    Need,
    /// A command, and how many octets it has with its CRLF.
    Command(ClientCommand, usize),
    /// A line that is no command, and how many octets it has with its LF.
    Bad(usize),
    /// Too long: a literal of over 1,048,576 octets, or over 8,192 octets outside literals.
    TooBig,
}

/// The first item in the unread octets of a client, without the command's value.
#[derive(Clone, Copy, Debug, PartialEq, Eq)]
pub enum ItemExtent {
    /// The item isn't complete yet.
    Need,
    /// A command, and how many octets it has with its CRLF.
    Command(usize),
    /// A line that is no command, and how many octets it has with its LF.
    Bad(usize),
    /// Too long: a literal of over 1,048,576 octets, or over 8,192 octets outside literals.
    TooBig,
}

/// The first item, without the value of a command. If a challenge is pending, the item is one string.
///
/// Time is linear in the item's octets outside literals, each of which is looked at once, or twice if it ends a run
/// that is passed in one step; those inside literals are not looked at. Takes no memory.
pub fn extent(buffer: &[u8], pending: bool) -> ItemExtent
    ensures value { result ≡ extent_of pending buffer.now }
    ensures item { IsFirstExtent pending result buffer.now }
{
    let mut scan = Scan::new(pending);
    scan.feed(buffer);
    scan.state()
}

/// The first item, with the value of a command. If a challenge is pending, the item is one string.
///
/// Time is that of `extent`, and for a command also linear in its octets. Takes memory only for its strings, and
/// lack of it is the only error, if there is a string.
pub fn first(alloc: Global, buffer: &[u8], pending: bool) -> Result<ClientItem, AllocError>
    ensures value { IfOk result (λ item. item ≡ item_of pending buffer.now) }
    ensures item { IfOk result (λ item. IsFirstItem pending item buffer.now) }
    ensures lacks { OnErr result (takes_memory (item_of pending buffer.now) ≡ true) }
{
    item_at(alloc, buffer, pending, extent(buffer, pending))
}

/// The same after a scan has found the first item: the octets are not scanned again, and only those of a command are
/// read, once, for its value. Lack of memory for a command's strings is the only error.
pub fn item_at(
    alloc: Global,
    buffer: &[u8],
    pending: bool,
    reach: ItemExtent,
) -> Result<ClientItem, AllocError>
    requires { IsFirstExtent pending reach buffer.now }
    ensures value { IfOk result (λ item. item ≡ item_of pending buffer.now) }
    ensures item { IfOk result (λ item. IsFirstItem pending item buffer.now) }
    ensures lacks { OnErr result (takes_memory (item_of pending buffer.now) ≡ true) }
{
    read_at(alloc, buffer, pending, reach)
}

/// The command that a scan has found first, in that many octets, which are read once. Takes memory only for its strings,
/// and lack of it is the only error, if there is a string.
pub fn command_at(
    alloc: Global,
    buffer: &[u8],
    pending: bool,
    used: usize,
) -> Result<ClientCommand, AllocError>
    requires { IsFirstExtent pending (reach.Command used) buffer.now }
    ensures value { IfOk result (λ command. item_of pending buffer.now ≡ item.Command command used) }
    ensures lacks { OnErr result (takes_memory (item_of pending buffer.now) ≡ true) }
{
    reading::command(alloc, &buffer[..used], pending)
}

fn read_at(
    alloc: Global,
    buffer: &[u8],
    pending: bool,
    reach: ItemExtent,
) -> Result<ClientItem, AllocError>
    requires { IsFirstExtent pending reach buffer.now }
    ensures value { IfOk result (λ item. item ≡ item_at_of pending buffer.now reach) }
    ensures lacks { OnErr result (takes_memory (item_of pending buffer.now) ≡ true) }
{
    match reach {
        ItemExtent::Need => Ok(ClientItem::Need),
        ItemExtent::Command(used) => {
            let command = command_at(alloc, buffer, pending, used)?;
            Ok(ClientItem::Command(command, used))
        }
        ItemExtent::Bad(used) => Ok(ClientItem::Bad(used)),
        ItemExtent::TooBig => Ok(ClientItem::TooBig),
    }
}

/// The first item is unique: no stream has two.
pub fn one_item()
    ensures { (pending : Bool) (one other : ItemValue) (stream : List ℕ) →
        IsFirstItem pending one stream → IsFirstItem pending other stream → one ≡ other }
{}

/// An item stays the same whatever octets follow, so it doesn't matter how a stream is cut into pieces.
pub fn item_stays()
    ensures { (pending : Bool) (item : ItemValue) (stream more : List ℕ) →
        item ≢ Need → IsFirstItem pending item stream → IsFirstItem pending item (stream ++ more) }
{}

/// The function of the first item fulfils the relation.
pub fn item_is()
    ensures { (pending : Bool) (stream : List ℕ) → IsFirstItem pending (item_of pending stream) stream }
{}

/// The extent of the first item is unique: no stream has two.
pub fn one_reach()
    ensures { (pending : Bool) (one other : ReachValue) (stream : List ℕ) →
        IsFirstExtent pending one stream → IsFirstExtent pending other stream → one ≡ other }
{}

/// The extent stays the same whatever octets follow.
pub fn reach_stays()
    ensures { (pending : Bool) (found : ReachValue) (stream more : List ℕ) →
        found ≢ reach.Need → IsFirstExtent pending found stream → IsFirstExtent pending found (stream ++ more) }
{}

/// The function of the extent fulfils the relation.
pub fn reach_is()
    ensures { (pending : Bool) (stream : List ℕ) → IsFirstExtent pending (extent_of pending stream) stream }
{}

/// The octet after a text is inside a literal exactly if the machine still expects octets of one.
pub fn literal_octets()
    ensures { (pending : Bool) (text : List ℕ) →
        IsInLiteral pending text ↔ (in_literal (run (start_state pending) text) ≡ true) }
{}
