//! What the arguments of `daemon` ask for.
use cli_run::fault::RunFault;
use cli_run::values::{decimal, mebibytes_of, port_of, separator_of, zone_of};
use cli_subcommands::DaemonArgs;
use daemon_core::mail::Places;
use lmtp_dialogue::Names;
use mail_dates::HostZone;
use maildir_files::Separator;
use octets::is_printable;

/// The longest name of a host, in octets (RFC 5321, 4.5.3.1.2).
const MAX_HOST: usize = 255;

/// How much all connections together may hold unless the arguments say otherwise, in MiB.
const MEMORY: u32 = 64;

/// How many clients may be there at once unless the arguments say otherwise.
const PLACES: Places = Places {
    clients: 50,
    senders: 20,
};

/// The most clients of ManageSieve for which there may be places. Some acts look at each connection, so with many more all would wait.
const MAX_CLIENTS: u32 = 1_000;

/// The same of LMTP. Their messages are delivered one by one, so more would only wait.
const MAX_SENDERS: u32 = 100;

/// Where clients of LMTP connect.
#[derive(Clone, Copy)]
pub enum LmtpEndpoint<'a> {
    /// A port of the loopback address.
    Port(u16),
    /// A path of the file system.
    Path(&'a str),
    /// A listening socket that another process left on descriptor 0.
    Inherited,
}

/// Where mail moves to.
#[derive(Clone, Copy)]
pub struct MailOptions<'a> {
    /// Where the users' Maildirs are, as `read_homes` reads it.
    pub homes: &'a str,
    /// The domain whose users alone have one, if it is only one; it isn't empty.
    pub domain: Option<&'a str>,
    /// The separator of the levels of a folder's name in a Maildir.
    pub separator: Separator,
}

/// What the arguments of `daemon` ask for.
#[derive(Clone, Copy)]
pub struct DaemonOptions<'a> {
    /// The port for clients of ManageSieve, if they are served.
    pub managesieve: Option<u16>,
    pub lmtp: Option<LmtpEndpoint<'a>>,
    pub names: Names,
    pub mail: Option<MailOptions<'a>>,
    /// The time zone in which mail is delivered.
    pub zone: HostZone,
    /// The host name in the greeting to clients of LMTP.
    pub host: &'a str,
    /// How much all connections together may hold, in KiB.
    pub memory: u32,
    pub places: Places,
}

/// Reads the arguments of `daemon`.
///
/// # Errors
///
/// [`RunFault::BadArgument`] if nothing is to be listened on, or if a number, a keyword or a name isn't valid.
pub fn read_options(words: DaemonArgs<'_>) -> Result<DaemonOptions<'_>, RunFault> {
    if words.managesieve.is_none() && words.lmtp.is_none() && words.mail.is_none() {
        return Err(RunFault::BadArgument);
    }
    let managesieve = match words.managesieve {
        Some(text) => Some(port_of(text)?),
        None => None,
    };
    Ok(DaemonOptions {
        managesieve,
        lmtp: words.lmtp.map(endpoint_of),
        names: names_of(words.names)?,
        mail: mail_of(words)?,
        zone: zone_of(words.zone)?,
        host: host_of(words.host)?,
        memory: memory_of(words.memory)?,
        places: Places {
            clients: places_of(words.clients, PLACES.clients, MAX_CLIENTS)?,
            senders: places_of(words.senders, PLACES.senders, MAX_SENDERS)?,
        },
    })
}

/// Where mail moves to. A separator of levels and a domain may be given only with it, and a domain isn't empty.
fn mail_of(words: DaemonArgs<'_>) -> Result<Option<MailOptions<'_>>, RunFault> {
    let Some(homes) = words.mail else {
        if words.separator.is_some() || words.domain.is_some() {
            return Err(RunFault::BadArgument);
        }
        return Ok(None);
    };
    if words.domain.is_some_and(str::is_empty) {
        return Err(RunFault::BadArgument);
    }
    Ok(Some(MailOptions {
        homes,
        domain: words.domain,
        separator: separator_of(words.separator)?,
    }))
}

fn endpoint_of(text: &str) -> LmtpEndpoint<'_> {
    if text == "-" {
        return LmtpEndpoint::Inherited;
    }
    match port_of(text) {
        Ok(port) => LmtpEndpoint::Port(port),
        Err(_) => LmtpEndpoint::Path(text),
    }
}

fn names_of(text: Option<&str>) -> Result<Names, RunFault> {
    match text {
        None | Some("local") => Ok(Names::Local),
        Some("whole") => Ok(Names::Whole),
        Some(_) => Err(RunFault::BadArgument),
    }
}

/// The name of this host: `localhost` unless it is given.
pub fn host_of(text: Option<&str>) -> Result<&str, RunFault> {
    let Some(name) = text else {
        return Ok("localhost");
    };
    let octets = name.as_bytes();
    let is_word = octets
        .iter()
        .all(|octet| is_printable(*octet) && *octet != b' ');
    if octets.is_empty() || octets.len() > MAX_HOST || !is_word {
        return Err(RunFault::BadArgument);
    }
    Ok(name)
}

/// How many KiB all connections together may hold.
fn memory_of(text: Option<&str>) -> Result<u32, RunFault> {
    let mebibytes = match text {
        None => MEMORY,
        Some(text) => mebibytes_of(text)?,
    };
    Ok(mebibytes.saturating_mul(1_024))
}

/// How many clients may be there at once: from 1 to that many, in decimal digits.
fn places_of(text: Option<&str>, default: u32, most: u32) -> Result<u32, RunFault> {
    let Some(text) = text else {
        return Ok(default);
    };
    match u32::try_from(decimal(text)?) {
        Ok(count) if count >= 1 && count <= most => Ok(count),
        _ => Err(RunFault::BadArgument),
    }
}
