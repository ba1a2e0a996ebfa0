//! The places of an account's parts.
ghost use Rattle.std.specs.Prelude.{◌≡◌, ◌++◌, List, None, OnOk, IfErr, map, option_copied};
ghost use Rattle.std.specs.List.{list_any};
ghost use Rattle.sqlite.specs.Held.{state};
ghost use Rattle.store_accounts.specs.Promises.{ReadsEntered};
ghost use Rattle.store_accounts.specs.Refusals.{IsTransient};
ghost use Rattle.store_export.specs.Places.{ListsPlaces, JoinsCopies, JoinsNotices, copy_places, letter_places, reply_places, script_places};
ghost use Rattle.store_export.specs.Places.{copy_place as copy_place_of, has_active_place as has_active_in, is_script_place as is_script_of};

use crate::run::Run;
use octets::{List, Octets, Texts};
use sqlite::Alter;
use std::alloc::Global;
use store_accounts::{Filing, QueuedEnvelope, Refusal, ReplyKey, Store};

/// The place where a part of an account is found.
#[derive(Debug, Drop)]
pub enum PartPlace {
    /// A script, by its name.
    Script(Octets),
    /// The moment of a reply, by its key.
    Reply(ReplyKey),
    /// A copy in a folder that doesn't follow one of the same message.
    Mail(Filing),
    /// A copy in a folder that follows another one of the same message; `first` is the number of the first of these.
    Copy { copy: Filing, first: u64 },
    /// A message on its way out, by its number.
    Letter(u64),
    /// A notice, by its number.
    Notice(u64),
}

/// The places of all parts of the account that was entered, in the order of its text.
pub(crate) fn list_places<S: Alter>(
    alloc: Global,
    store: &mut Store<S>,
    user: &[u8],
) -> Result<List<PartPlace>, Refusal>
    ensures { ListsPlaces user.now (state S.Store store.old) (state S.Store store.new) result }
{
    let mut places = List::new(alloc);
    list_scripts(store, user, &mut places)?;
    list_replies(store, user, &mut places)?;
    list_copies(store, user, &mut places)?;
    list_letters(store, user, &mut places)?;
    list_notices(store, user, &mut places)?;
    Ok(places)
}

fn list_scripts<S: Alter>(
    store: &mut Store<S>,
    user: &[u8],
    places: &mut List<PartPlace>,
) -> Result<(), Refusal>
    ensures { ReadsEntered user.now (λ _ a. places.new ≡ places.old ++ script_places a) (state S.Store store.old) (state S.Store store.new) result }
{
    let names = store.scripts_of(user)?;
    push_scripts(places, names)
}

fn list_replies<S: Alter>(
    store: &mut Store<S>,
    user: &[u8],
    places: &mut List<PartPlace>,
) -> Result<(), Refusal>
    ensures { ReadsEntered user.now (λ _ a. places.new ≡ places.old ++ reply_places a) (state S.Store store.old) (state S.Store store.new) result }
{
    let all = store.reply_keys_of(user)?;
    push_replies(places, all)
}

fn list_copies<S: Alter>(
    store: &mut Store<S>,
    user: &[u8],
    places: &mut List<PartPlace>,
) -> Result<(), Refusal>
    ensures { JoinsCopies user.now places.old places.new (state S.Store store.old) (state S.Store store.new) result }
{
    let filings = store.filings_of(user)?;
    push_copies(places, filings)
}

fn list_letters<S: Alter>(
    store: &mut Store<S>,
    user: &[u8],
    places: &mut List<PartPlace>,
) -> Result<(), Refusal>
    ensures { ReadsEntered user.now (λ _ a. places.new ≡ places.old ++ letter_places a) (state S.Store store.old) (state S.Store store.new) result }
{
    let heads = store.queue_heads_of(user)?;
    push_letters(places, heads)
}

fn list_notices<S: Alter>(
    store: &mut Store<S>,
    user: &[u8],
    places: &mut List<PartPlace>,
) -> Result<(), Refusal>
    ensures { JoinsNotices user.now places.old places.new (state S.Store store.old) (state S.Store store.new) result }
{
    let numbers = store.notice_numbers_of(user)?;
    push_notices(places, numbers)
}

fn push_scripts(places: &mut List<PartPlace>, names: Texts) -> Result<(), Refusal>
    ensures pushed { OnOk result (places.new ≡ places.old ++ map PartPlace.Script names) }
    ensures named { IfErr result IsTransient }
{
    for name in names.into_vec() {
        places.push(PartPlace::Script(name))?;
    }
    Ok(())
}

fn push_replies(places: &mut List<PartPlace>, all: List<ReplyKey>) -> Result<(), Refusal>
    ensures pushed { OnOk result (places.new ≡ places.old ++ map PartPlace.Reply all) }
    ensures named { IfErr result IsTransient }
{
    for key in all.into_vec() {
        places.push(PartPlace::Reply(key))?;
    }
    Ok(())
}

/// Appends the places of copies, each with whether it follows another one of the same message.
fn push_copies(places: &mut List<PartPlace>, filings: List<Filing>) -> Result<(), Refusal>
    ensures pushed { OnOk result (places.new ≡ places.old ++ copy_places None filings) }
    ensures named { IfErr result IsTransient }
{
    let mut run = None;
    for copy in filings.into_vec() {
        let next = Run::with(run, copy.n, copy.id);
        places.push(copy_place(run, copy))?;
        run = Some(next);
    }
    Ok(())
}

/// The place of a copy after this run.
fn copy_place(run: Option<Run>, copy: Filing) -> PartPlace
    ensures { result ≡ copy_place_of run copy }
{
    if Run::goes_on(run, copy.id) {
        let first = Run::with(run, copy.n, copy.id).first;
        PartPlace::Copy { copy, first }
    } else {
        PartPlace::Mail(copy)
    }
}

fn push_letters(places: &mut List<PartPlace>, heads: List<QueuedEnvelope>) -> Result<(), Refusal>
    ensures pushed { OnOk result (places.new ≡ places.old ++ map (λ head. PartPlace.Letter head.id) heads) }
    ensures named { IfErr result IsTransient }
{
    for head in heads.into_vec() {
        places.push(PartPlace::Letter(head.id))?;
    }
    Ok(())
}

fn push_notices(places: &mut List<PartPlace>, numbers: List<u64>) -> Result<(), Refusal>
    ensures pushed { OnOk result (places.new ≡ places.old ++ map PartPlace.Notice numbers) }
    ensures named { IfErr result IsTransient }
{
    for number in numbers.into_vec() {
        places.push(PartPlace::Notice(number))?;
    }
    Ok(())
}

/// Whether the active script, if there is one, has a place.
pub(crate) fn has_active(active: Option<&Octets>, places: &[PartPlace]) -> bool
    ensures { result ≡ has_active_in (option_copied active.entry) places.now }
{
    match active {
        Some(name) => has_script(name.as_slice(), places),
        None => true,
    }
}

/// Whether one of the places is that of the script with the name.
fn has_script(name: &[u8], places: &[PartPlace]) -> bool
    ensures { result ≡ list_any (is_script_of name.now) places.now }
{
    places.iter().any(|place| is_script(name, place))
}

/// Whether the place is that of the script with the name.
fn is_script(name: &[u8], place: &PartPlace) -> bool
    ensures { result ≡ is_script_of name.now place.now }
{
    match place {
        PartPlace::Script(other) => name == other.as_slice(),
        _ => false,
    }
}
