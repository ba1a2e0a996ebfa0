//! What a command needs: nothing of the store, a login, or a user's scripts. Each is a type of its own.
ghost use Rattle.std.specs.Prelude.{◌≡◌};
ghost use Rattle.managesieve_sessions.specs.declared.command_class.ScriptCommand.TheVariants.{Named};
ghost use Rattle.managesieve_sessions.specs.declared.command_class.CommandClass.TheVariants.{Script};
ghost use Rattle.managesieve_sessions.specs.CommandClasses.{command_of_class};

use managesieve_protocol::ClientCommand;
use octets::Octets;

/// A command, by what it needs.
#[derive(Drop)]
pub enum CommandClass {
    /// Nothing of the store.
    Free(FreeCommand),
    /// A login.
    Login(LoginCommand),
    /// A user's scripts.
    Script(ScriptCommand),
}

/// A command that is answered without the store.
#[derive(Drop)]
pub enum FreeCommand {
    /// `CAPABILITY` (RFC 5804, 2.4).
    Capability,
    /// `NOOP` (RFC 5804, 2.13), with its string.
    Noop(Option<Octets>),
    /// `LOGOUT` (RFC 5804, 2.3).
    Logout,
    /// `UNAUTHENTICATE` (RFC 5804, 2.14).
    Unauthenticate,
    /// `CHECKSCRIPT` (RFC 5804, 2.12), with the text.
    CheckScript(Octets),
}

/// A command of a login's exchange (RFC 5804, 2.1).
#[derive(Drop)]
pub enum LoginCommand {
    /// `AUTHENTICATE`.
    Authenticate {
        /// The mechanism's name, as it was sent.
        mechanism: Octets,
        /// The first response, if there is one.
        response: Option<Octets>,
    },
    /// The answer to a challenge.
    Response(Octets),
}

/// A command about the scripts of the user who is logged in.
#[derive(Drop)]
pub enum ScriptCommand {
    /// `GETSCRIPT` (RFC 5804, 2.9): the answer is the text of the script of this name.
    Get(Octets),
    /// A command that is decided by the names of the scripts.
    Named(NamedCommand),
}

/// A command that is decided by the names of the user's scripts and by which one is active.
#[derive(Drop)]
pub enum NamedCommand {
    /// `HAVESPACE` (RFC 5804, 2.5).
    HaveSpace {
        /// The script's name.
        name: Octets,
        /// The script's size in octets.
        size: u32,
    },
    /// `PUTSCRIPT` (RFC 5804, 2.6).
    PutScript {
        /// The script's name.
        name: Octets,
        /// The script's text.
        script: Octets,
    },
    /// `LISTSCRIPTS` (RFC 5804, 2.7).
    ListScripts,
    /// `SETACTIVE` (RFC 5804, 2.8); the empty name makes none active.
    SetActive(Octets),
    /// `DELETESCRIPT` (RFC 5804, 2.10).
    DeleteScript(Octets),
    /// `RENAMESCRIPT` (RFC 5804, 2.11).
    RenameScript {
        /// The script's present name.
        old: Octets,
        /// The script's new name.
        new: Octets,
    },
}

/// A command that is answered over the store.
#[derive(Drop)]
pub enum StoreCommand {
    /// A login.
    Login(LoginCommand),
    /// One about the scripts of this user, who is logged in.
    Script {
        /// Whose scripts they are.
        user: Octets,
        /// What is asked.
        command: ScriptCommand,
    },
}

/// Classifies a command by what it needs. This is done here, and nowhere else. Takes no memory.
pub fn classify(command: ClientCommand) -> CommandClass
    ensures { command_of_class result ≡ command }
{
    match command {
        ClientCommand::Capability => CommandClass::Free(FreeCommand::Capability),
        ClientCommand::Noop(tag) => CommandClass::Free(FreeCommand::Noop(tag)),
        ClientCommand::Logout => CommandClass::Free(FreeCommand::Logout),
        ClientCommand::Unauthenticate => CommandClass::Free(FreeCommand::Unauthenticate),
        ClientCommand::CheckScript(text) => CommandClass::Free(FreeCommand::CheckScript(text)),
        ClientCommand::Authenticate {
            mechanism,
            response,
        } => CommandClass::Login(LoginCommand::Authenticate {
            mechanism,
            response,
        }),
        ClientCommand::Response(text) => CommandClass::Login(LoginCommand::Response(text)),
        ClientCommand::GetScript(name) => CommandClass::Script(ScriptCommand::Get(name)),
        ClientCommand::HaveSpace { name, size } => named(NamedCommand::HaveSpace { name, size }),
        ClientCommand::PutScript { name, script } => named(NamedCommand::PutScript {
            name,
            script,
        }),
        ClientCommand::ListScripts => named(NamedCommand::ListScripts),
        ClientCommand::SetActive(name) => named(NamedCommand::SetActive(name)),
        ClientCommand::DeleteScript(name) => named(NamedCommand::DeleteScript(name)),
        ClientCommand::RenameScript { old, new } => named(NamedCommand::RenameScript { old, new }),
    }
}

// A command that is decided by the names of the scripts.
fn named(command: NamedCommand) -> CommandClass
    ensures { result ≡ Script (Named command) }
{
    CommandClass::Script(ScriptCommand::Named(command))
}
