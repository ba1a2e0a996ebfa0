//! The entries that are the echo's own: `total N`, what the total is, and `ticks N`, how often the machine worked.
use net_loop::act::Act;
use octets::{List, Octets, write_decimal};
use std::alloc::{AllocError, Global};
use test_sockets::echo_outside::EchoNote;
use test_sockets::play::{ScheduleCheck, ScheduleOwner};
use test_sockets::schedule::split_word;
use test_sockets::stage::FakeNetwork;

/// Looks at the total.
#[derive(Drop)]
pub struct Totals {
    pub alloc: Global,
}

impl ScheduleOwner<FakeNetwork<EchoNote, u64>> for Totals {
    fn own(
        &mut self,
        outside: &mut FakeNetwork<EchoNote, u64>,
        line: usize,
        text: &[u8],
        checks: &mut List<ScheduleCheck>,
    ) -> Result<(), AllocError> {
        let (word, wanted) = split_word(text);
        let mut got = Octets::new(self.alloc);
        match word {
            b"total" => write_decimal(&mut got, outside.fake.rest)?,
            b"ticks" => write_decimal(&mut got, count_ticks(outside.fake.acts.as_slice()))?,
            _ => got.extend_from_slice(b"no such entry")?,
        }
        checks.push(ScheduleCheck {
            line,
            wanted: Octets::from_slice(self.alloc, wanted)?,
            got,
        })
    }
}

/// How often the machine did work of its own.
fn count_ticks(acts: &[Act<EchoNote>]) -> u64 {
    let mut count: u64 = 0;
    for act in acts {
        if let Act::Worked(_) = act {
            count = count.saturating_add(1);
        }
    }
    count
}
