//! The command line of sieved: subcommands, their arguments, and what is printed if the arguments ask for nothing.
#![tactic(auto)]

mod argument;
mod environment;
mod given;
mod host_files;
mod location;
mod program;
mod raw_args;
mod reading;
mod subcommand;
mod subcommand_row;

pub use environment::StoreDefaults;
pub use host_files::{HostFiles, MAX_HOST_FILES, read_host_files};
pub use location::StoreLocation;
pub use program::VERSION;
pub use raw_args::RawArgs;
pub use reading::{ArgsError, match_command_line, read_command_line, read_files, read_matches};
pub use subcommand::Subcommand;
pub use subcommand::activate::ActivateArgs;
pub use subcommand::address::AddressArgs;
pub use subcommand::adduser::AddUserArgs;
pub use subcommand::check::CheckArgs;
pub use subcommand::daemon::DaemonArgs;
pub use subcommand::deactivate::DeactivateArgs;
pub use subcommand::delete::DeleteArgs;
pub use subcommand::deliver::DeliverArgs;
pub use subcommand::done::DoneArgs;
pub use subcommand::drain::DrainArgs;
pub use subcommand::export::ExportArgs;
pub use subcommand::folders::FoldersArgs;
pub use subcommand::import::ImportArgs;
pub use subcommand::init::InitArgs;
pub use subcommand::notices::NoticesArgs;
pub use subcommand::open::OpenArgs;
pub use subcommand::passwd::PasswdArgs;
pub use subcommand::put::PutArgs;
pub use subcommand::queue::QueueArgs;
pub use subcommand::remove::RemoveArgs;
pub use subcommand::rename::RenameArgs;
pub use subcommand::scripts::ScriptsArgs;
pub use subcommand::send::SendArgs;
pub use subcommand::serve::ServeArgs;
pub use subcommand::session::SessionArgs;
pub use subcommand::show::ShowArgs;
pub use subcommand::try_script::TryArgs;
pub use subcommand::users::UsersArgs;
