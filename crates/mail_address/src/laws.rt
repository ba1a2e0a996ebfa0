//! Laws of the definitions, each the contract of a function that does nothing.
ghost use Rattle.std.specs.Prelude.{◌≡◌, ◌↔◌, ℕ, List, [], Some, true};
ghost use Rattle.mail_address.specs.declared.address.Addr.{Addr};
ghost use Rattle.mail_address.specs.Outbound.{IsOutbound, IsBareAddress};
ghost use Rattle.mail_address.specs.Parts.{AreAddresses};
ghost use Rattle.mail_address.specs.Pieces.{AddrPiece, Cut, IsEnclosed, IsQuotedWord, unquoted_text};
ghost use Rattle.mail_address.specs.Spelling.{IsDotAtom, is_dot_atom};
ghost use Rattle.mail_address.specs.Reading.{pieces, addrs, outbound, bare};

/// A value is cut into pieces in exactly one way.
pub fn pieces_of_a_value()
    ensures found { (value : List ℕ) → Cut value (pieces value) }
    ensures only { (value : List ℕ) (cut : List AddrPiece) → Cut value cut → cut ≡ pieces value }
{}

/// A text is read as atoms with dots between them exactly if it is that.
pub fn atoms_with_dots()
    ensures { (text : List ℕ) → (is_dot_atom text ≡ true) ↔ IsDotAtom text }
{}

/// A quoted string has exactly one value, that of its octets and pairs.
pub fn value_of_a_quoted_string()
    ensures { (text value : List ℕ) → IsQuotedWord text value ↔ (IsEnclosed 34 34 text × (value ≡ unquoted_text text)) }
{}

/// A value has exactly one list of addresses.
pub fn addresses_of_a_value()
    ensures found { (value : List ℕ) → AreAddresses value (addrs value) }
    ensures only { (value : List ℕ) (found : List Addr) → AreAddresses value found → found ≡ addrs value }
{}

/// A text names at most one display name and address.
pub fn address_of_a_text()
    ensures { (text display_name : List ℕ) (address : Addr) →
        (outbound text ≡ Some (display_name, address)) ↔ IsOutbound text display_name address }
{}

/// A text is at most one addr-spec, and then names its address with an empty display name.
pub fn address_without_display()
    ensures bare { (text : List ℕ) (address : Addr) → (bare text ≡ Some address) ↔ IsBareAddress text address }
    ensures named { (text : List ℕ) (address : Addr) → IsBareAddress text address → IsOutbound text [] address }
{}
