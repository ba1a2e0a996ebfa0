//! What the echo acts on: a total.
ghost use Rattle.std.specs.Prelude.{◌≡◌, ◌+◌, ◌%◌, ◌^◌, IsTrue};
ghost use Rattle.net_loop.specs.Told.{ToldBefore, TellsIf, LeavesIf};
ghost use Rattle.net_loop.specs.declared.act.Act.TheVariants.{Noted, Worked};
ghost use Rattle.test_sockets.specs.declared.echo_outside.EchoNote.TheVariants.{Answered, Added, Ticked};

use crate::stage::FakeNetwork;
use net_loop::act::Act;
use net_loop::outside::Outside;

/// What the echo notes.
#[derive(Clone, Copy, Debug, PartialEq, Eq)]
pub enum EchoNote {
    /// It did nothing but answer.
    Answered,
    /// It added this much to the total.
    Added(u64),
    /// A second passed.
    Ticked,
}

/// A total, beside sockets and a clock.
pub trait EchoOutside: Outside<Note = EchoNote, Rest = u64> {
    /// Adds to the total, which begins anew after 2^64 - 1, and returns it.
    fn add(&mut self, id: u32, count: u64) -> u64
        ensures told { TellsIf Self.told self.old (Noted id (Added count)) self.new }
        ensures total { IsTrue (Self.told.tells self.new) → Self.told.rest self.new ≡ (Self.told.rest self.old + count) % 2 ^ 64 }
        ensures result { IsTrue (Self.told.tells self.new) → result ≡ Self.told.rest self.new }
        ensures kept { ToldBefore Self.told self.old self.new };

    /// Notes that nothing was done but to answer.
    fn answered(&mut self, id: u32)
        ensures told { TellsIf Self.told self.old (Noted id Answered) self.new }
        ensures left { LeavesIf Self.told self.old self.new }
        ensures kept { ToldBefore Self.told self.old self.new };

    /// Notes that a second passed.
    fn ticked(&mut self)
        ensures told { TellsIf Self.told self.old (Worked Ticked) self.new }
        ensures left { LeavesIf Self.told self.old self.new }
        ensures kept { ToldBefore Self.told self.old self.new };
}

impl EchoOutside for FakeNetwork<EchoNote, u64> {
    fn add(&mut self, id: u32, count: u64) -> u64 {
        let total = self.fake.rest.wrapping_add(count);
        self.fake.rest = total;
        self.keep(Act::Noted(id, EchoNote::Added(count)));
        total
    }

    fn answered(&mut self, id: u32) {
        self.keep(Act::Noted(id, EchoNote::Answered));
    }

    fn ticked(&mut self) {
        self.keep(Act::Worked(EchoNote::Ticked));
    }
}
