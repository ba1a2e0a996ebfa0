//! Limits on sizes, names and moments.
ghost use Rattle.std.specs.Prelude.{◌≡◌};
ghost use Rattle.std.specs.List.{list_any};
ghost use Rattle.store_engine.specs.Limits as limits;
ghost use Rattle.store_engine.specs.Limits.{is_envelope_address, is_forbidden_octet};

use sieve_exec::Envelope;
use sieve_vacation::MAX_MOMENT;
use store_accounts::Refusal;

/// The largest message, in octets.
pub const MAX_MESSAGE: usize = 33_554_432;
/// The largest envelope address, in octets.
pub const MAX_ENVELOPE_ADDRESS: usize = 1_024;

/// Why a delivery is refused before anything is looked up, the first cause in this order. Takes no memory.
pub fn limit_refusal(envelope: &Envelope, message: &[u8], moment: u64) -> Option<Refusal>
    ensures { result ≡ limits.limit_refusal envelope.now message.now moment }
{
    if message.len() > MAX_MESSAGE {
        return Some(Refusal::TooLarge);
    }
    if !(is_address(envelope.from.as_slice()) && is_address(envelope.to.as_slice())) {
        return Some(Refusal::BadEnvelope);
    }
    if moment > MAX_MOMENT {
        return Some(Refusal::BadMoment);
    }
    None
}

/// Whether an envelope address is accepted.
fn is_address(text: &[u8]) -> bool
    ensures { result ≡ is_envelope_address text.now }
{
    text.len() <= MAX_ENVELOPE_ADDRESS && !has_forbidden_octet(text)
}

fn has_forbidden_octet(text: &[u8]) -> bool
    ensures { result ≡ list_any is_forbidden_octet text.now }
{
    text.iter()
        .any(|octet| *octet == 0 || *octet == b'\n' || *octet == b'\r')
}
