//! Laws of the definitions, each the contract of a function that does nothing.
ghost use Rattle.std.specs.Prelude.{◌≡◌, ◌∷◌, ◌++◌, ℕ, List, [], None, IsTrue};
ghost use Rattle.std.specs.List.{AllByRecursion};
ghost use Rattle.std.specs.Ordering.{is_lt};
ghost use Rattle.store_text.specs.Order.{are_chained, part_cmp};
ghost use Rattle.store_text.specs.declared.head.AccountHead.{AccountHead};
ghost use Rattle.store_text.specs.declared.part.Part.{Part};
ghost use Rattle.store_text.specs.Text.{IsAccountText};

/// A text is that of at most one account.
pub fn one_account()
    ensures { (text : List ℕ) (h g : AccountHead) (ps qs : List Part) → IsAccountText text h ps → IsAccountText text g qs → (h ≡ g) × (ps ≡ qs) }
{}

/// No text of an account begins another one: a text that is cut, or has octets after its end, is that of none.
pub fn texts_end()
    ensures { (text more : List ℕ) (h g : AccountHead) (ps qs : List Part) → IsAccountText text h ps → IsAccountText (text ++ more) g qs → more ≡ [] }
{}

/// Each part of an account comes before all that follow it.
pub fn parts_in_order()
    ensures { (front more : List Part) (p : Part) → IsTrue (are_chained None (front ++ p ∷ more)) → AllByRecursion (λ q. IsTrue (is_lt (part_cmp q p))) front }
{}
