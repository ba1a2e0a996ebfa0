//! The names of scripts.
ghost use Rattle.std.specs.Prelude.{◌≡◌, length, MatchBool};
ghost use Rattle.std.specs.List.{list_any};
ghost use Rattle.std.specs.Str.{chars};
ghost use Rattle.managesieve_sessions.specs.Limits.{IsScriptName, is_forbidden_char as is_forbidden};

use std::str;

/// The largest number of characters in a script's name: a limit of this project.
pub const MAX_NAME: usize = 128;

/// Whether a text may be a script's name (RFC 5804, section 1.6): 1 to 128 characters in UTF-8, without control
/// characters and without the separators of lines and of paragraphs. Takes no memory, and time linear in the text.
pub fn is_script_name(name: &[u8]) -> bool
    ensures { MatchBool result (IsScriptName name.now) (IsScriptName name.now → ⊥) }
{
    let Ok(text) = str::from_utf8(name) else {
        return false;
    };
    let count = char_count(text);
    if count == 0 || count > MAX_NAME {
        return false;
    }
    !has_forbidden_char(text)
}

fn char_count(text: &str) -> usize
    ensures { result ≡ length (chars text.now) }
{
    text.chars().count()
}

fn has_forbidden_char(text: &str) -> bool
    ensures { result ≡ list_any is_forbidden (chars text.now) }
{
    text.chars().any(is_forbidden_char)
}

// Whether the character may not be in a script's name.
fn is_forbidden_char(character: char) -> bool
    ensures { result ≡ is_forbidden character }
{
    matches!(character, '\0'..='\u{1f}' | '\u{7f}'..='\u{9f}' | '\u{2028}' | '\u{2029}')
}
