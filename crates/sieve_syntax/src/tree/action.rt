//! What a script does with the message (RFC 5228, 4).
use crate::extension::fileinto::FileInto;
use crate::extension::vacation::Vacation;
use mail_address::Addr;
use octets::Texts;

/// What a script does with the message (RFC 5228, 4; RFC 5230), and with the flags that its copies get (RFC 5232).
#[derive(Drop)]
pub enum Action {
    /// `keep`: file into `INBOX` (RFC 5228, 4.3), with the texts of its `:flags`: which flags the copy has, instead of those that
    /// are set (RFC 5232, 5).
    Keep(Option<Texts>),
    /// `discard`: cancel the implicit keep (RFC 5228, 4.4).
    Discard,
    /// `fileinto` (RFC 5228, 4.1).
    FileInto(FileInto),
    /// `redirect` (RFC 5228, 4.2).
    Redirect(Redirect),
    /// `vacation`: answer the sender (RFC 5230).
    Vacation(Vacation),
    /// `setflag`: set the flags that these texts name, and no others (RFC 5232, 3.1).
    SetFlag(Texts),
    /// `addflag`: set these besides (RFC 5232, 3.2).
    AddFlag(Texts),
    /// `removeflag`: unset these (RFC 5232, 3.3).
    RemoveFlag(Texts),
}

/// The arguments of `redirect`.
#[derive(Drop)]
pub struct Redirect {
    /// The address that the message is sent to.
    pub target: Addr,
    /// `:copy`: the implicit keep isn't cancelled (RFC 3894, 3.2).
    pub copy: bool,
}
