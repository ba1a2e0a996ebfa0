//! Makes a whole account from its text.
ghost use Rattle.std.specs.Prelude.{◌≡◌, OnOk, IfOk, IfErr, MatchBool};
ghost use Rattle.sqlite.specs.Held.{state};
ghost use Rattle.sqlite.specs.State.{HasCleanDisk};
ghost use Rattle.store_accounts.specs.Connection.{IsSettled};
ghost use Rattle.store_accounts.specs.declared.refusal.Refusal.TheVariants.{BadAccount};
ghost use Rattle.store_engine.specs.AccountEvents.{IsImportable};
ghost use Rattle.store_engine.specs.Hosts.{ActsImport, RefusesImport};
ghost use Rattle.store_engine.specs.Importable.{HasSoundScripts, may_guard, has_short_flags as has_short_flags_of, have_short_flags};
ghost use Rattle.store_engine.specs.Sound.{IsSoundScript};

use crate::standing::read_standing;
use crate::user::{is_own_address, is_user_name, refusal_over};
use managesieve_sessions::script_name::is_script_name;
use managesieve_sessions::scripts::{MAX_SCRIPT, MAX_SCRIPTS, fault_in};
use sasl_plain::ROUNDS;
use sqlite::Alter;
use std::alloc::{AllocError, Global};
use store_accounts::{Refusal, Store};
use store_text::{AccountFile, AccountOwner, Part};

/// The largest salt of an imported password, in octets.
const MAX_SALT: usize = 64;

/// The largest text of a copy's flags, in octets: a hundred names of 128 octets, with a blank between two.
const MAX_FLAGS: usize = 12_899;

/// Makes the account of a text whole, in one transaction, which is the last step: its scripts, folders, queue, notices, moments of
/// replies and numbers, open or closed as the text says. A closed account of the name that has no mail is replaced: of its moments of
/// replies those stay that are later than the text's, or that the text lacks.
///
/// Time and memory are in proportion to the text, and for each of its scripts as for `check`.
///
/// # Errors
///
/// In this order: [`Refusal::BadAccount`] if the name isn't a user's name, the address isn't an addr-spec alone (RFC 5322, 3.4.1), the
/// password has rounds that are neither 10,000 nor 0, a salt of more than 64 octets or no digest, a copy has flags of more than 12,899
/// octets, a script isn't valid, has more than 262,144 octets or a name that no script may have, or there are more than 32: the store
/// isn't asked then. Then [`Refusal::UserExists`] for a name whose account is open, and [`Refusal::UserHasMail`] for a closed one with
/// messages, which would be lost. [`Refusal::Memory`] may come at any point, [`Refusal::Store`] at any point after the first. The
/// store then stays as it was.
pub fn import<S: Alter>(
    alloc: Global,
    store: &mut Store<S>,
    file: &AccountFile,
) -> Result<(), Refusal>
    ensures acts { ActsImport file.now.head file.now.parts (state S.Store store.old) (state S.Store store.new) result }
    ensures settled { HasCleanDisk (state S.Store store.new) → OnOk result (IsSettled (state S.Store store.new)) }
    ensures early { IfErr result (λ e. e ≡ BadAccount → store.new ≡ store.old) }
    ensures unasked { (IsImportable file.now.head file.now.parts → ⊥) → store.new ≡ store.old }
    ensures named { IfErr result (RefusesImport file.now.head file.now.parts) }
{
    if !is_importable(alloc, file)? {
        return Err(Refusal::BadAccount);
    }
    let found = read_standing(store, file.head.owner.name.as_slice())?;
    if let Some(refusal) = refusal_over(found) {
        return Err(refusal);
    }
    if found.is_some() {
        return store.renew_whole(&file.head, file.parts.as_slice());
    }
    store.add_whole(&file.head, file.parts.as_slice())
}

/// Whether an account of the text may be kept. Its active script is one of the scripts, and no folder is empty: every text is so.
fn is_importable(alloc: Global, file: &AccountFile) -> Result<bool, AllocError>
    ensures { IfOk result (λ holds. MatchBool holds (IsImportable file.now.head file.now.parts) (IsImportable file.now.head file.now.parts → ⊥)) }
{
    let owner = &file.head.owner;
    if !is_user_name(owner.name.as_slice()) {
        return Ok(false);
    }
    if !is_own_address(alloc, owner.address.as_slice())? {
        return Ok(false);
    }
    if !may_guard(owner, file.head.numbers.rounds) {
        return Ok(false);
    }
    if !have_short_flags(file.parts.as_slice()) {
        return Ok(false);
    }
    has_sound_scripts(alloc, file.parts.as_slice())
}

/// Whether no copy has longer flags than a delivery gives: they are read when the message moves.
fn have_short_flags(parts: &[Part]) -> bool
    ensures { result ≡ have_short_flags parts.now }
{
    parts.iter().all(|part| has_short_flags(part))
}

fn has_short_flags(part: &Part) -> bool
    ensures { result ≡ has_short_flags_of part.now }
{
    match part {
        Part::Mail { flags, .. } | Part::Copy { flags, .. } => flags.len() <= MAX_FLAGS,
        _ => true,
    }
}

/// Whether a password with that many rounds may be kept: each login takes their time, by anyone and with any password.
fn may_guard(owner: &AccountOwner, rounds: u32) -> bool
    ensures { result ≡ may_guard (record { salt = owner.now.salt; rounds = rounds; digest = owner.now.digest }) }
{
    (rounds == 0 || rounds == ROUNDS) && owner.salt.len() <= MAX_SALT && !owner.digest.is_empty()
}

/// Whether each script may be kept, and there are no more of them than may be.
fn has_sound_scripts(alloc: Global, parts: &[Part]) -> Result<bool, AllocError>
    ensures { IfOk result (λ holds. MatchBool holds (HasSoundScripts parts.now) (HasSoundScripts parts.now → ⊥)) }
{
    let mut count = 0;
    for part in parts {
        let Part::Script { name, text } = part else {
            continue;
        };
        if count == MAX_SCRIPTS {
            return Ok(false);
        }
        if !is_sound_script(alloc, name.as_slice(), text.as_slice())? {
            return Ok(false);
        }
        count += 1;
    }
    Ok(true)
}

/// Whether a script of this name and this text may be kept.
fn is_sound_script(alloc: Global, name: &[u8], text: &[u8]) -> Result<bool, AllocError>
    ensures { IfOk result (λ holds. MatchBool holds (IsSoundScript name.now text.now) (IsSoundScript name.now text.now → ⊥)) }
{
    if !is_script_name(name) || text.len() > MAX_SCRIPT {
        return Ok(false);
    }
    Ok(fault_in(alloc, text)?.is_none())
}
