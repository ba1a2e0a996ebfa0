//! The column of a position of a text.
ghost use Rattle.std.specs.Prelude.{◌≡◌, ◌≤◌, length};
ghost use Rattle.sieve_places.specs.Places.{column_at, columns_of};

/// The column of a position: the octets before it on its line, and one.
pub(crate) fn column_of(text: &[u8], start: usize) -> u64
    requires { start ≤ length text.now }
    ensures { result ≡ column_at text.now start }
{
    let (before, _) = text.split_at(start);
    columns(before)
}

/// The column after these octets, from the beginning of a line on: an LF begins a line.
fn columns(octets: &[u8]) -> u64
    ensures { result ≡ columns_of octets.now }
{
    let mut column: u64 = 1;
    for octet in octets {
        column = if *octet == b'\n' { 1 } else { column + 1 };
    }
    column
}
