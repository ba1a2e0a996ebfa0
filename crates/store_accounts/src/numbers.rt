//! The numbers of a folder's copies.
ghost use Rattle.std.specs.Prelude.{◌≡◌, IfErr};
ghost use Rattle.sqlite.specs.Held.{state};
ghost use Rattle.store_accounts.specs.FolderNumbers.{AreAsMany, AreNumbersOf};
ghost use Rattle.store_accounts.specs.Promises.{FindsAmong, ReadsOpenAccount, ReadsOwn};
ghost use Rattle.store_accounts.specs.Refusals.{IsTransient};

use crate::refusal::Refusal;
use crate::row::{FromRow, read_each};
use crate::store::Store;
use octets::List;
use sqlite::{Alter, Row, params};

impl FromRow for u64 {
    ghost use Rattle.store_accounts.specs.FirstCells.{first_one};
    ghost use Rattle.store_accounts.specs.FolderNumbers.{number_cells};

    ghost cells_of = { first_one };

    ghost shows = { number_cells };

    fn from_row(row: &Row) -> Result<u64, Refusal> {
        Ok(row.get(0)?)
    }
}

impl<S: Alter> Store<S> {
    /// The numbers of the folder's messages, in the order in which they came; none if it is absent. No message is read:
    /// time and memory are linear in the answer.
    pub fn numbers(&mut self, user: &[u8], folder: &[u8]) -> Result<List<u64>, Refusal>
        ensures numbers { ReadsOwn user.now (AreNumbersOf user.now folder.now) (state S.Store self.old) (state S.Store self.new) result }
        ensures count { ReadsOpenAccount user.now (AreAsMany folder.now) (state S.Store self.old) (state S.Store self.new) result }
    {
        self.enter(user)?;
        self.numbers_of(user, folder)
    }

    /// The same for an account that was entered.
    fn numbers_of(&mut self, user: &[u8], folder: &[u8]) -> Result<List<u64>, Refusal>
        ensures finds { FindsAmong user.now (AreNumbersOf user.now folder.now) (state S.Store self.old) (state S.Store self.new) result }
        ensures named { IfErr result IsTransient }
    {
        read_each(
            self.alloc,
            &mut self.conn,
            "SELECT n FROM copy WHERE owner = ?1 AND folder = ?2 ORDER BY n",
            params![user, folder],
        )
    }
}
