//! How many descriptors the daemon needs, and may have.
use daemon_core::mail::Places;

/// The number of descriptors for all but clients: 3 standard streams, 2 listeners, the one that events are waited for on, 4 for
/// the store and its directory, 3 for locks, 160 for the directories of 32 Maildirs, 3 for what is put there, 1 for a client that
/// finds no place, and 15 in reserve.
const OTHERS: u64 = 192;

/// The message if there are too few.
pub const TOO_FEW: &str =
    "too few open files are allowed: raise the limit (LimitNOFILE, ulimit -n)";

/// Whether the process may open a descriptor for each client and for all else. If the limit can't be read, it may.
pub fn are_enough(places: Places) -> bool {
    match allowed() {
        Some(allowed) => needed(places) <= allowed,
        None => true,
    }
}

/// The number of descriptors that the daemon needs where that many clients may be there.
fn needed(places: Places) -> u64 {
    places.clients as u64 + places.senders as u64 + OTHERS
}

/// The number of descriptors that the process may have, if the system tells.
fn allowed() -> Option<u64> {
    let mut limit = libc::types::rlimit {
        rlim_cur: 0,
        rlim_max: 0,
    };
    if libc::getrlimit(libc::RLIMIT_NOFILE, &mut limit) == 0 {
        Some(limit.rlim_cur)
    } else {
        None
    }
}
