//! What a delivery is to write and to report: the definition of a delivery, and the plan that meets it (RFC 5228, 2.10).
#![tactic(auto)]

mod deeds;
mod delivery;
mod handover;
mod kept;
pub mod laws;
mod limits;
mod long_header;
mod looping;
mod notice;
mod outcome;
mod placements;
mod scripts;
mod sent;
mod settlement;
mod targets;
mod turn;
mod vacation;
mod view;

pub use deeds::Deeds;
pub use delivery::{plan, plan_unread};
pub use kept::{FoundScript, KeptScripts};
pub use long_header::has_long_header;
pub use notice::{FailureNotice, NoticeCause, failure_text};
pub use outcome::evaluate_script;
pub use scripts::{HostScripts, Whose};
pub use sent::{half_handle, half_of, is_near_if, redirect_keys, sent_end, sent_handle};
pub use settlement::{Settlement, settle, settle_scripts};
pub use view::AccountView;
