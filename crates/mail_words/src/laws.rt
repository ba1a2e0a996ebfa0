//! Laws of the definitions, each the contract of a function that does nothing.
ghost use Rattle.std.specs.Prelude.{◌≡◌, ◌↔◌, ℕ, List, IsUtf8, Some, false};
ghost use Rattle.base64.specs.Engines.{standard};
ghost use Rattle.base64.specs.GeneralPurpose.{IsBytes};
ghost use Rattle.mail_words.specs.Headers.{AreEncodedPieces, IsHeaderText, has_mark};
ghost use Rattle.mail_words.specs.Quoted.{IsQEncoded, quoted_of};
ghost use Rattle.mail_words.specs.Runs.{AreRuns, runs_of};
ghost use Rattle.mail_words.specs.Words.{IsEncodedWord, SaysWord, encoded_word_text};
ghost use Rattle.mail_words.specs.Values.{IsDecodedText, decoded_text};
ghost use Rattle.mail_words.specs.Laws.{HasStandardAlphabet, IsReadBack, IsSaid};
ghost use Rattle.mail_words.specs.Written.{IsWrittenText};

/// A value has exactly one list of runs.
pub fn runs_of_a_value()
    ensures found { (text : List ℕ) → AreRuns (runs_of text) text }
    ensures only { (text : List ℕ) (runs : List (List ℕ)) → AreRuns runs text → runs ≡ runs_of text }
{}

/// A run is a recognised word exactly if it has a word's form, and it says what its parts stand for.
pub fn form_of_a_word()
    ensures form { (run said : List ℕ) → (encoded_word_text run ≡ Some said) ↔ SaysWord run said }
    ensures only { (run a b c d e f : List ℕ) → IsEncodedWord run a b c → IsEncodedWord run d e f → (a ≡ d) × ((b ≡ e) × (c ≡ f)) }
{}

/// A value has exactly one text: what its runs give, each depending on the runs before it and after it.
pub fn text_of_a_value()
    ensures { (value text : List ℕ) → (text ≡ decoded_text value) ↔ IsDecodedText value text }
{}

/// A text in Q stands for the octets of its pieces, and if it has no pieces for nothing.
pub fn octets_in_q()
    ensures { (text octets : List ℕ) → (quoted_of text ≡ Some octets) ↔ IsQEncoded text octets }
{}

/// A text has at most one list of pieces, so that what is written is the same at each call.
pub fn pieces_of_a_text()
    ensures { (text : List ℕ) (pieces others : List (List ℕ)) → AreEncodedPieces pieces text
        → AreEncodedPieces others text → pieces ≡ others }
{}

/// A text is written in a header field in only one way.
pub fn value_of_a_text()
    ensures { (text one two : List ℕ) → IsHeaderText text one → IsHeaderText text two → one ≡ two }
{}

/// A text that was written in a header field is read back from it, after unfolding and decoding. This depends on
/// the alphabet of base64's `STANDARD`.
pub fn text_read_back()
    ensures alphabet { HasStandardAlphabet standard }
    ensures back { (text value : List ℕ) → IsBytes text → IsUtf8 text → IsReadBack text value }
{}

/// A text that was written with the words that its writer encoded says what it decodes to if it has such words, otherwise itself; one
/// without `=?` is written as header text is, and each is written in only one way.
pub fn written_text_said()
    ensures said { (text value : List ℕ) → IsBytes text → IsUtf8 text → IsSaid text value }
    ensures plain { (text value : List ℕ) → has_mark text ≡ false → IsWrittenText text value → IsHeaderText text value }
    ensures only { (text one two : List ℕ) → IsWrittenText text one → IsWrittenText text two → one ≡ two }
{}
