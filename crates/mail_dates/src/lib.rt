//! The dates of mail (RFC 5322, 3.3 and 4.3), the zones that scripts give, and the same moment in another zone (RFC 5260, 4).
#![tactic(auto)]

pub mod date_time;
mod digits;
pub mod laws;
mod names;
pub mod part;
mod pieces;
pub mod reading;
pub mod writing;
pub mod zone;

pub use date_time::DateTime;
pub use part::DatePart;
pub use reading::read_date;
pub use writing::write_part;
pub use zone::read_zone;

// The zone of a host: a fixed offset, or a rule (POSIX, Base Definitions, 8.3).

mod host_zone;
mod zone_rule;

pub use host_zone::{HostZone, Offset};
pub use zone_rule::ZoneRule;
