//! Tests (RFC 5228, 5).
use crate::tree::checks::MailCheck;

/// A test (RFC 5228, 5).
#[cycle(tests)]
#[derive(Drop)]
pub enum Test {
    /// `true` (RFC 5228, 5.10).
    True,
    /// `false` (RFC 5228, 5.6).
    False,
    /// A test that looks at the message or its envelope.
    Check(MailCheck),
    /// `not`: holds if this test doesn't (RFC 5228, 5.8).
    Not(Box<Test>),
    /// `allof`: holds if each of these tests does (RFC 5228, 5.2).
    AllOf(Vec<Test>),
    /// `anyof`: holds if some of these tests does (RFC 5228, 5.3).
    AnyOf(Vec<Test>),
}
