//! A keeper, and its store while that is held.
ghost use Rattle.std.specs.Prelude.{◌≡◌, None, is_some, IsTrue, IfErr, IfSome, OnErr, OnOk};
ghost use Rattle.store_lock.specs.Taken.{DeniesStore, GivesStore};

use crate::keeper::{Keeper, StoreUnavailable};
use store_accounts::Store;

/// A keeper, and its store while that is held. Nobody else changes the store then.
#[derive(Drop)]
pub struct HeldStore<K: Keeper + Drop> {
    pub keeper: K,
    /// The store, while it is held.
    pub store: Option<Store<K::S>>,
}

impl<K: Keeper + Drop> HeldStore<K> {
    ghost use Rattle.store_lock.specs.HeldStores.{GivesStoreBack, HoldsSame, TakesStore};

    /// The store isn't held yet.
    pub fn new(keeper: K) -> HeldStore<K>
        ensures keeper { result.keeper ≡ keeper }
        ensures store { result.store ≡ None }
    {
        HeldStore {
            keeper,
            store: None,
        }
    }

    /// Takes the store, if it isn't held. With `waits` a lock that another process has is waited for, without an end.
    ///
    /// # Errors
    ///
    /// Those of [`Keeper::take`].
    pub fn take(&mut self, path: &str, waits: bool) -> Result<(), StoreUnavailable>
        ensures taken { TakesStore K.S.Store K.tells K.holds self.old self.new }
        ensures held { OnOk result (IsTrue (is_some self.new.store)) }
        ensures refused { OnErr result (HoldsSame K.tells K.holds self.old self.new) }
        ensures given { OnOk result (self.old.store ≡ None → GivesStore K.gives K.will_wait path.now waits) }
        ensures denied { IfErr result (DeniesStore K.refuses K.will_wait path.now waits) }
    {
        if self.store.is_some() {
            return Ok(());
        }
        self.keeper.wait_for_lock(waits);
        let store = self.keeper.take(path, false)?;
        self.store = Some(store);
        Ok(())
    }

    /// Gives the store back, if it is held. If it can't be closed, what was committed stays, and [`Keeper::take_close_error`] says why.
    pub fn give_back(&mut self)
        ensures given { GivesStoreBack K.S.Store K.tells K.holds self.old self.new }
        ensures told { IfSome self.old.store (λ store. K.closes self.old.keeper store (K.unclosed self.new.keeper)) }
    {
        if let Some(store) = self.store.take() {
            self.keeper.hand_back(store);
        }
    }

    /// Gives the store back, and returns the keeper.
    pub fn into_keeper(mut self) -> K
        ensures { GivesStoreBack K.S.Store K.tells K.holds self (record { keeper = result; store = None }) }
    {
        self.give_back();
        let HeldStore { keeper, store: _ } = self;
        keeper
    }
}
