//! What is noted of rows.
use smtp_dialogue::Ending;

/// Output can't be written.
#[derive(Clone, Copy, Debug, PartialEq, Eq)]
pub struct Unwritten;

/// Tells what became of rows, notes when one is tried again, and has a clock. Nothing that is promised of a run depends on it.
pub trait Journal {
    /// The user's row with the number is the next that is handed over.
    fn begin(&mut self, user: &[u8], id: u64);

    /// Tells what became of the user's row with the number, and notes when it is tried again.
    fn note(&mut self, user: &[u8], id: u64, ending: Ending) -> Result<(), Unwritten>;

    /// Tells that another row has the number of the user's row that was sent: it stays.
    fn tell_changed(&mut self, user: &[u8], id: u64);

    /// Tells that the user's row with the number, which was sent, isn't in the queue of an open account any more: another took it out, or
    /// closed the account, which keeps it then.
    fn tell_gone(&mut self, user: &[u8], id: u64);

    /// The milliseconds of a clock that never goes back.
    fn uptime(&mut self) -> u64;

    /// Waits for this many milliseconds.
    fn pause(&mut self, milliseconds: u64);
}
