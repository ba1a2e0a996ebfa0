//! Texts that are mailboxes, or none.
use octets::Octets;
use smtp_dialogue::is_smtp_mailbox;
use std::alloc::{AllocError, Global};
use test_files::Answers;

/// Answers `yes` or `no` to a text.
#[derive(Drop)]
pub struct Boxes;

impl Answers for Boxes {
    fn answer(
        &mut self,
        _alloc: Global,
        out: &mut Octets,
        given: &[Octets],
    ) -> Result<(), AllocError> {
        let holds = match given {
            [text] => is_smtp_mailbox(text.as_slice()),
            _ => false,
        };
        out.extend_from_slice(if holds { b"yes" } else { b"no" })
    }
}
