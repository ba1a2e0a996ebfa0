//! The commands of ManageSieve.
use octets::Octets;

/// A command with its strings and number, as a client sends it (RFC 5804, section 2).
///
/// A string has any octets, also a script's name: its meaning isn't checked here.
#[derive(Drop)]
pub enum ClientCommand {
    /// Asks what the server can do (section 2.4).
    Capability,
    /// Does nothing; the string comes back with the answer (section 2.13).
    Noop(Option<Octets>),
    /// Ends the session (section 2.3).
    Logout,
    /// Logs in by a SASL mechanism, perhaps with an initial response (section 2.1).
    Authenticate {
        /// The mechanism's name, as it was sent.
        mechanism: Octets,
        /// The initial response, if there is one.
        response: Option<Octets>,
    },
    /// Ends the login (section 2.14).
    Unauthenticate,
    /// Asks whether a script of that many octets would be stored (section 2.5).
    HaveSpace {
        /// The script's name.
        name: Octets,
        /// The script's size in octets.
        size: u32,
    },
    /// Stores a script (section 2.6).
    PutScript {
        /// The script's name.
        name: Octets,
        /// The script's text.
        script: Octets,
    },
    /// Checks a script and stores nothing (section 2.12).
    CheckScript(Octets),
    /// Lists the scripts (section 2.7).
    ListScripts,
    /// Makes a script the active one; the empty name makes none active (section 2.8).
    SetActive(Octets),
    /// Asks for a script's text (section 2.9).
    GetScript(Octets),
    /// Deletes a script (section 2.10).
    DeleteScript(Octets),
    /// Gives a script another name (section 2.11).
    RenameScript {
        /// The script's present name.
        old: Octets,
        /// The script's new name.
        new: Octets,
    },
    /// The string alone that answers a challenge, if one is pending (section 2.1).
    Response(Octets),
}
