//! A user's account, as in its row.
ghost use Rattle.std.specs.Prelude.{◌≡◌, false, ◌⊎◌, [], pos, Err, Some, option_map, slice_get, IfOk, IfErr};
ghost use Rattle.sqlite.specs.Held.{state};
ghost use Rattle.store_tables.specs.AccountTable.{account_tree};
ghost use Rattle.store_accounts.specs.AccountRows.{shown_account, shown_counters, counter_cells, profile_of, IsProfileRead};
ghost use Rattle.store_accounts.specs.Listing.{AreCountersOf};
ghost use Rattle.store_accounts.specs.Promises.{FindsAmong, FindsOwn, ReadsOpenAccount, ReadsCounters, ReadsEntered, ReadsProfile, IsFree, WritesStore, WritesUser};
ghost use Rattle.store_tables.specs.Connection.{Queries};
ghost use Rattle.store_tables.specs.Cells.{borrowed_octets, or_null};
ghost use Rattle.store_accounts.specs.FirstCells.{first_three};
ghost use Rattle.store_accounts.specs.Account.{activates, changes_address, closes, empties_under, changes_password, has_mail, new_user, opens, removes, renews};
ghost use Rattle.store_accounts.specs.Refusals.{IsTransient};
ghost use Rattle.sqlite_value.specs.declared.value.Value.TheVariants.{Int, Blob};
ghost use Rattle.sqlite_value.specs.Order.{column};

use crate::cell::{optional_text_at, text_at};
use crate::profile::Profile;
use crate::refusal::Refusal;
use crate::store::Store;
use octets::Octets;
use sqlite::{Alter, Connection, Error, Row, params};
use store_tables::{Change, query};

/// The numbers that an account gives next: to a copy, to a message on its way out, and to a notice. Each counter begins at 1
/// and counts on its own, and no number is given twice.
#[derive(Clone, Copy)]
pub struct Counters {
    pub copy: u64,
    pub out: u64,
    pub notice: u64,
}

/// The address, salt, rounds, digest and active script of the account.
fn find_account<S: Alter>(conn: &mut Connection<S>, name: &[u8]) -> Result<Vec<Row>, Error>
    requires { conn.old.in_transaction ≡ false }
    ensures { Queries S.Store (FindsOwn name.now account_tree shown_account) conn.old conn.new result }
{
    query(
        conn,
        "SELECT address, salt, rounds, digest, active FROM account WHERE name = ?1",
        params![name],
    )
}

/// The counters of the account.
fn find_counters<S: Alter>(conn: &mut Connection<S>, name: &[u8]) -> Result<Vec<Row>, Error>
    requires { conn.old.in_transaction ≡ false }
    ensures { Queries S.Store (FindsOwn name.now account_tree shown_counters) conn.old conn.new result }
{
    query(
        conn,
        "SELECT next_copy, next_out, next_notice FROM account WHERE name = ?1",
        params![name],
    )
}

/// The counters that the row shows.
fn counters_in(row: &Row) -> Result<Counters, Error>
    ensures copy { IfOk result (λ c. column row.now 0 ≡ Int (pos c.copy)) }
    ensures out { IfOk result (λ c. column row.now 1 ≡ Int (pos c.out)) }
    ensures notice { IfOk result (λ c. column row.now 2 ≡ Int (pos c.notice)) }
{
    Ok(Counters {
        copy: row.get(0)?,
        out: row.get(1)?,
        notice: row.get(2)?,
    })
}

/// The counters in the first row; without a row the user has no account.
fn first_counters(rows: &[Row]) -> Result<Counters, Refusal>
    ensures ok { IfOk result (λ c. option_map first_three (slice_get rows.now 0) ≡ Some (counter_cells c)) }
    ensures absent { IfErr result (λ e. e ≡ Refusal.NoUser → rows.now ≡ []) }
    ensures named { IfErr result (λ e. (e ≡ Refusal.NoUser) ⊎ IsTransient e) }
{
    match rows.first() {
        Some(row) => Ok(counters_in(row)?),
        None => Err(Refusal::NoUser),
    }
}

/// The account that the row shows. More than 2^32 - 1 rounds, which this store never writes, are an error.
fn profile_in(row: &Row) -> Result<Profile, Error>
    ensures address { IfOk result (λ p. column row.now 0 ≡ Blob p.address) }
    ensures salt { IfOk result (λ p. column row.now 1 ≡ Blob p.salt) }
    ensures rounds { IfOk result (λ p. column row.now 2 ≡ Int (pos p.rounds)) }
    ensures digest { IfOk result (λ p. column row.now 3 ≡ Blob p.digest) }
    ensures active { IfOk result (λ p. column row.now 4 ≡ or_null p.active) }
{
    Ok(Profile {
        address: text_at(row, 0)?,
        salt: text_at(row, 1)?,
        rounds: row.get(2)?,
        digest: text_at(row, 3)?,
        active: optional_text_at(row, 4)?,
    })
}

/// The account in the first row, if there is a row.
fn first_profile(rows: &[Row]) -> Result<Option<Profile>, Refusal>
    ensures ok { IfOk result (λ profile. IsProfileRead profile (slice_get rows.now 0)) }
    ensures named { IfErr result IsTransient }
{
    match rows.first() {
        Some(row) => {
            let profile = profile_in(row)?;
            Ok(Some(profile))
        }
        None => Ok(None),
    }
}

impl<S: Alter> Store<S> {
    /// The counters of the user's account.
    pub(crate) fn counters(&mut self, user: &[u8]) -> Result<Counters, Refusal>
        ensures { ReadsCounters user.now (state S.Store self.old) (state S.Store self.new) result }
    {
        let rows = find_counters(&mut self.conn, user)?;
        first_counters(&rows)
    }

    /// The same for an account that was entered.
    pub fn counters_of(&mut self, user: &[u8]) -> Result<Counters, Refusal>
        ensures finds { FindsAmong user.now AreCountersOf (state S.Store self.old) (state S.Store self.new) result }
        ensures named { IfErr result IsTransient }
    {
        match self.counters(user) {
            Err(Refusal::NoUser) => Err(Refusal::Store),
            counters => counters,
        }
    }

    /// What the store has of the account, open or closed; `None` without an account. A closed one has no rounds.
    pub fn account(&mut self, user: &[u8]) -> Result<Option<Profile>, Refusal>
        ensures { ReadsProfile user.now (state S.Store self.old) (state S.Store self.new) result }
    {
        let rows = find_account(&mut self.conn, user)?;
        first_profile(&rows)
    }

    /// Enters the user's open account, and returns what the store has of it. The reads whose names end in `_of` are for an
    /// account that was entered: they don't check again whether there is one.
    ///
    /// # Errors
    ///
    /// `NoUser` if there is no account or it is closed; `Memory`; `Store`.
    pub fn enter(&mut self, user: &[u8]) -> Result<Profile, Refusal>
        ensures { ReadsOpenAccount user.now (λ profile a. profile ≡ profile_of a) (state S.Store self.old) (state S.Store self.new) result }
    {
        let Some(profile) = self.account(user)? else {
            return Err(Refusal::NoUser);
        };
        if profile.is_closed() {
            return Err(Refusal::NoUser);
        }
        Ok(profile)
    }

    /// Whether an account that was entered, open or closed, has a message in a folder or on its way out. Time is linear in its
    /// messages, memory in its queue without the messages.
    pub fn has_mail_of(&mut self, user: &[u8]) -> Result<bool, Refusal>
        ensures { ReadsEntered user.now (λ found a. found ≡ has_mail a) (state S.Store self.old) (state S.Store self.new) result }
    {
        let folders = self.folders_of(user)?;
        if !folders.is_empty() {
            return Ok(true);
        }
        let heads = self.queue_heads_of(user)?;
        Ok(!heads.is_empty())
    }

    /// Adds an open account without scripts, messages and replies. `rounds` is the number of times the password is
    /// digested. What happens with a name that has an account isn't specified, except that SQLite keeps the table's key.
    ///
    /// # Errors
    ///
    /// `Store` for no rounds, which only a closed account has; the database isn't asked then. `Memory`, `Store`.
    pub fn add_user(
        &mut self,
        name: &[u8],
        address: &[u8],
        salt: &[u8],
        rounds: u32,
        digest: &[u8],
    ) -> Result<(), Refusal>
        ensures writes { WritesStore (IsFree name.now) (new_user name.now address.now salt.now rounds digest.now) (state S.Store self.old) (state S.Store self.new) result }
        ensures closed { rounds ≡ 0 → (result ≡ Err Refusal.Store) × (self.new ≡ self.old) }
    {
        if rounds == 0 {
            return Err(Refusal::Store);
        }
        self.apply(&[Change::AddAccount {
            name,
            address,
            salt,
            rounds,
            digest,
        }])
    }

    /// Makes the script with the name the active one, or none. The caller has to see to it that a script has the name.
    pub fn set_active(&mut self, user: &[u8], name: Option<&[u8]>) -> Result<(), Refusal>
        ensures { WritesUser user.now (activates (borrowed_octets name.entry)) (state S.Store self.old) (state S.Store self.new) result }
    {
        self.apply(&[Change::SetActive {
            name: user,
            active: name,
        }])
    }

    /// Sets the account's address. The moments of replies stay under their keys.
    pub fn set_address(&mut self, user: &[u8], address: &[u8]) -> Result<(), Refusal>
        ensures { WritesUser user.now (changes_address address.now) (state S.Store self.old) (state S.Store self.new) result }
    {
        self.apply(&[Change::SetAddress {
            name: user,
            address,
        }])
    }

    /// Sets the account's password; `rounds` is the number of times it is digested, and 0 would close the account.
    pub fn set_password(
        &mut self,
        user: &[u8],
        salt: &[u8],
        rounds: u32,
        digest: &[u8],
    ) -> Result<(), Refusal>
        ensures { WritesUser user.now (changes_password (record { salt = salt.now; rounds = rounds; digest = digest.now })) (state S.Store self.old) (state S.Store self.new) result }
    {
        self.apply(&[Change::SetPassword {
            name: user,
            salt,
            rounds,
            digest,
        }])
    }

    /// Closes the account: its password has no rounds then. All else stays.
    pub fn close_account(&mut self, user: &[u8]) -> Result<(), Refusal>
        ensures { WritesUser user.now closes (state S.Store self.old) (state S.Store self.new) result }
    {
        self.apply(&[Change::SetRounds {
            name: user,
            rounds: 0,
        }])
    }

    /// Opens the account as it was before it was closed. `rounds` is the number of times its password is digested.
    pub fn open_account(&mut self, user: &[u8], rounds: u32) -> Result<(), Refusal>
        ensures { WritesUser user.now (opens rounds) (state S.Store self.old) (state S.Store self.new) result }
    {
        self.apply(&[Change::SetRounds { name: user, rounds }])
    }

    /// Closes the account, and removes its scripts, messages, queue, notices and password. Its address, the moments of its
    /// replies and its numbers stay. Time is linear in what is removed.
    pub fn remove_account(&mut self, user: &[u8]) -> Result<(), Refusal>
        ensures { WritesUser user.now removes (state S.Store self.old) (state S.Store self.new) result }
    {
        self.empty_account(user, &[], &[])
    }

    /// Closes the account with this salt and this digest, and removes its scripts, messages, queue and notices.
    fn empty_account(&mut self, user: &[u8], salt: &[u8], digest: &[u8]) -> Result<(), Refusal>
        ensures { WritesUser user.now (empties_under salt.now digest.now) (state S.Store self.old) (state S.Store self.new) result }
    {
        self.apply(&[
            Change::RemoveScripts { owner: user },
            Change::RemoveQueue { owner: user },
            Change::RemoveNotices { owner: user },
            Change::RemoveCopies { owner: user },
            Change::RemoveMessages { owner: user },
            Change::SetActive {
                name: user,
                active: None,
            },
            Change::SetPassword {
                name: user,
                salt,
                rounds: 0,
                digest,
            },
        ])
    }

    /// Makes a new account in place of one that was there: what `remove_account` removes goes, and the address and the password
    /// are replaced. The moments of replies and the numbers stay. Time is linear in what is removed.
    pub fn renew_user(
        &mut self,
        name: &[u8],
        address: &[u8],
        salt: &[u8],
        rounds: u32,
        digest: &[u8],
    ) -> Result<(), Refusal>
        ensures { WritesUser name.now (renews address.now (record { salt = salt.now; rounds = rounds; digest = digest.now })) (state S.Store self.old) (state S.Store self.new) result }
    {
        self.apply(&[
            Change::RemoveScripts { owner: name },
            Change::RemoveQueue { owner: name },
            Change::RemoveNotices { owner: name },
            Change::RemoveCopies { owner: name },
            Change::RemoveMessages { owner: name },
            Change::SetActive { name, active: None },
            Change::SetAddress { name, address },
            Change::SetPassword {
                name,
                salt,
                rounds,
                digest,
            },
        ])
    }
}
