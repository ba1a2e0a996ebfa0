//! The levels of a folder's name.
ghost use Rattle.std.specs.Prelude.{◌≡◌};
ghost use Rattle.maildir_files.specs.Levels.{has_levels};

/// Whether the name has one or more levels, none of them empty. One pass.
pub(crate) fn has_levels(name: &[u8], separator: u8) -> bool
    ensures { result ≡ has_levels separator name.now }
{
    let mut after_separator = true;
    for octet in name {
        if after_separator && *octet == separator {
            return false;
        }
        after_separator = *octet == separator;
    }
    !after_separator
}
