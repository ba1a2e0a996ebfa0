//! Laws of the definitions, each the contract of a function that does nothing.
ghost use Rattle.std.specs.Prelude.{◌≡◌, List, length};
ghost use Rattle.sqlite.specs.Effect.{Database};
ghost use Rattle.store_text.specs.declared.part.Part.{Part};
ghost use Rattle.store_text.specs.Text.{account_text};
ghost use Rattle.store_accounts.specs.Account.{Account, Accounts};
ghost use Rattle.store_accounts.specs.Whole.{IsCopyOf};
ghost use Rattle.store_export.specs.Reading.{BeginsCopy, HasRead};
ghost use Rattle.store_export.specs.declared.contents.Contents.{Contents};

/// Parts that were read so far are the first of those that make the account again.
pub fn copies_begin()
    ensures { (contents : Contents) (parts : List Part) (db : Database) (accounts : Accounts) (a : Account)
        → HasRead contents parts db accounts a → BeginsCopy contents parts a }
{}

/// If each place was read, the parts make the account again: their text is a copy of it.
pub fn copies_are_whole()
    ensures { (contents : Contents) (parts : List Part) (db : Database) (accounts : Accounts) (a : Account)
        → HasRead contents parts db accounts a → length parts ≡ length contents.places → IsCopyOf (account_text contents.head parts) contents.head.owner.name a }
{}
