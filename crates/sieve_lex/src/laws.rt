//! Laws of the definitions, each the contract of a function that does nothing.
ghost use Rattle.std.specs.Prelude.{◌≡◌, ◌↔◌, ℕ, List, [], IsTrue};
ghost use Rattle.std.specs.List.{list_all};
ghost use Rattle.sieve_lex.specs.declared.token.Token.{Token};
ghost use Rattle.sieve_lex.specs.declared.encoded.Coding.{Coding};
ghost use Rattle.sieve_lex.specs.declared.encoded.Sequence.TheVariants.{Absent};
ghost use Rattle.sieve_lex.specs.Encoded.{is_inner, words_from, sequence_at};
ghost use Rattle.sieve_lex.specs.Rows.{AreNumeralWords, IsSequence, IsRead, BeginsWithSequence};
ghost use Rattle.sieve_lex.specs.Spelling.{SpellsTokens};

/// A text has at most one list of tokens.
pub fn tokens_of_a_text()
    ensures { (text : List ℕ) (one two : List Token) → SpellsTokens text one → SpellsTokens text two → one ≡ two }
{}

/// The numbers that are read from digits and white octets are those of the grammar (RFC 5228, 2.4.2.4: hex-pair-seq,
/// unicode-hex-seq).
pub fn numbers_of_a_sequence()
    ensures { (s : List ℕ) (words : List (List ℕ)) → IsTrue (list_all is_inner s) → (words_from [] s ≡ words) ↔ AreNumeralWords s words }
{}

/// Each sequence of the grammar is read as one, whatever follows it, and nothing else is (RFC 5228, 2.4.2.4).
pub fn sequences_of_the_grammar()
    ensures read { (coding : Coding) (s rest : List ℕ) (words : List (List ℕ)) → IsSequence coding s words → IsRead coding s words rest }
    ensures only { (text : List ℕ) → (sequence_at text ≡ Absent → ⊥) → BeginsWithSequence text }
{}
