//! A user's scripts.
ghost use Rattle.std.specs.Prelude.{◌≡◌, false, option_map};
ghost use Rattle.sqlite.specs.Held.{state};
ghost use Rattle.store_accounts.specs.Promises.{FindsUserRows, ReadsOpenAccount, ReadsEntered, Renames, WritesAccount, WritesUser};
ghost use Rattle.store_tables.specs.Connection.{Queries};
ghost use Rattle.store_accounts.specs.ScriptRows.{HasTextAndActive, HasTextRow, IsRenaming};
ghost use Rattle.store_tables.specs.Cells.{borrowed_octets};
ghost use Rattle.store_accounts.specs.Account.{deletes_script, keeps_active, keeps_script, other_name, renames_script};
ghost use Rattle.std.specs.FinMap.{get, keys};

use crate::cell::first_text;
use crate::refusal::Refusal;
use crate::row::read_each;
use crate::store::Store;
use octets::{Octets, Texts};
use sqlite::{Alter, Connection, Error, Row, params};
use store_tables::{Change, query};

/// The text of the script.
fn find_script<S: Alter>(
    conn: &mut Connection<S>,
    owner: &[u8],
    name: &[u8],
) -> Result<Vec<Row>, Error>
    requires { conn.old.in_transaction ≡ false }
    ensures { Queries S.Store (FindsUserRows owner.now (HasTextRow name.now)) conn.old conn.new result }
{
    query(
        conn,
        "SELECT text FROM script WHERE owner = ?1 AND name = ?2",
        params![owner, name],
    )
}

/// The other name, if this one is the active script's.
fn active_renamed<'a>(active: Option<&'a Octets>, name: &[u8], other: &'a [u8]) -> Option<&'a [u8]>
    ensures { borrowed_octets result ≡ option_map (other_name name.now other.now) (borrowed_octets active.entry) }
{
    let Some(active) = active else {
        return None;
    };
    if active.as_slice() == name {
        return Some(other);
    }
    Some(active.as_slice())
}

impl<S: Alter> Store<S> {
    /// The text of the script; `None` if no script has the name.
    pub fn script(&mut self, user: &[u8], name: &[u8]) -> Result<Option<Octets>, Refusal>
        ensures { ReadsOpenAccount user.now (λ text a. text ≡ get a.scripts name.now) (state S.Store self.old) (state S.Store self.new) result }
    {
        self.enter(user)?;
        self.script_of(user, name)
    }

    /// The same for an account that was entered.
    pub fn script_of(&mut self, user: &[u8], name: &[u8]) -> Result<Option<Octets>, Refusal>
        ensures { ReadsEntered user.now (λ text a. text ≡ get a.scripts name.now) (state S.Store self.old) (state S.Store self.new) result }
    {
        let rows = find_script(&mut self.conn, user, name)?;
        first_text(&rows)
    }

    /// The names of the user's scripts, in the order of their octets.
    pub fn scripts(&mut self, user: &[u8]) -> Result<Texts, Refusal>
        ensures { ReadsOpenAccount user.now (λ names a. names ≡ keys a.scripts) (state S.Store self.old) (state S.Store self.new) result }
    {
        self.enter(user)?;
        self.scripts_of(user)
    }

    /// The same for an account that was entered.
    pub fn scripts_of(&mut self, user: &[u8]) -> Result<Texts, Refusal>
        ensures { ReadsEntered user.now (λ names a. names ≡ keys a.scripts) (state S.Store self.old) (state S.Store self.new) result }
    {
        read_each(
            self.alloc,
            &mut self.conn,
            "SELECT name FROM script WHERE owner = ?1 ORDER BY name",
            params![user],
        )
    }

    /// Stores the script under the name, in place of one that has it. What happens for a user without an
    /// account isn't specified, except that SQLite keeps the tables' constraints.
    pub fn put_script(&mut self, user: &[u8], name: &[u8], text: &[u8]) -> Result<(), Refusal>
        ensures { WritesUser user.now (keeps_script name.now text.now) (state S.Store self.old) (state S.Store self.new) result }
    {
        self.apply(&[
            Change::RemoveScript { owner: user, name },
            Change::AddScript {
                owner: user,
                name,
                text,
            },
        ])
    }

    /// Stores the script under the name, in place of one that has it, and makes it the active one.
    pub fn put_active(&mut self, user: &[u8], name: &[u8], text: &[u8]) -> Result<(), Refusal>
        ensures { WritesUser user.now (keeps_active name.now text.now) (state S.Store self.old) (state S.Store self.new) result }
    {
        self.apply(&[
            Change::RemoveScript { name, owner: user },
            Change::AddScript {
                owner: user,
                name,
                text,
            },
            Change::SetActive {
                name: user,
                active: Some(name),
            },
        ])
    }

    /// Deletes the script. The caller has to see to it that a script has the name and isn't the active
    /// one.
    pub fn delete(&mut self, user: &[u8], name: &[u8]) -> Result<(), Refusal>
        ensures { WritesUser user.now (deletes_script name.now) (state S.Store self.old) (state S.Store self.new) result }
    {
        self.apply(&[Change::RemoveScript { owner: user, name }])
    }

    /// The text of the script and the name of the active one, if there are any.
    fn text_and_active(
        &mut self,
        user: &[u8],
        name: &[u8],
    ) -> Result<(Option<Octets>, Option<Octets>), Refusal>
        ensures { ReadsOpenAccount user.now (HasTextAndActive name.now) (state S.Store self.old) (state S.Store self.new) result }
    {
        let profile = self.enter(user)?;
        let text = self.script_of(user, name)?;
        Ok((text, profile.active))
    }

    /// Writes the text under the other name, if there is a text, and makes another script active, or none.
    fn write_renamed<'a>(
        &mut self,
        user: &'a [u8],
        name: &'a [u8],
        other: &'a [u8],
        text: Option<&'a Octets>,
        active: Option<&'a [u8]>,
    ) -> Result<(), Refusal>
        ensures { Renames user.now name.now other.now (IsRenaming name.now other.now (borrowed_octets text.entry) (borrowed_octets active.entry)) (state S.Store self.old) (state S.Store self.new) result }
    {
        let Some(text) = text else {
            return self.apply(&[Change::SetActive { name: user, active }]);
        };
        self.apply(&[
            Change::RemoveScript { name, owner: user },
            Change::RemoveScript {
                name: other,
                owner: user,
            },
            Change::AddScript {
                owner: user,
                name: other,
                text: text.as_slice(),
            },
            Change::SetActive { name: user, active },
        ])
    }

    /// Gives the script another name; it stays active if it was. The caller has to see to it that a script has the name and none
    /// has the other one: that one would be replaced. The text is in memory once.
    pub fn rename(&mut self, user: &[u8], name: &[u8], other: &[u8]) -> Result<(), Refusal>
        ensures { WritesAccount user.now (renames_script name.now other.now) (state S.Store self.old) (state S.Store self.new) result }
    {
        let (text, active) = self.text_and_active(user, name)?;
        let active = active_renamed(active.as_ref(), name, other);
        self.write_renamed(user, name, other, text.as_ref(), active)
    }
}
