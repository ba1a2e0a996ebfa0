//! How much of a daemon's time each account has used recently, and who waits after the others for it.
#![tactic(auto)]

mod grace;
mod share;
mod time_account;
mod turns;

pub use grace::Grace;
pub use share::Shares;
pub use time_account::TimeAccount;
pub use turns::Scheduler;
