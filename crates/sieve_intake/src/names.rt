//! The names of Pigeonhole's files.
ghost use Rattle.std.specs.Prelude.{◌≡◌, ◌≤◌, length, option_copied};
ghost use Rattle.std.specs.List.{suffix_len};
ghost use Rattle.tar_entries.specs.Fields.{differs};
ghost use Rattle.sieve_intake.specs.Names.{last_part, is_dovecot_sieve as is_dovecot_path, is_script_file, script_name_at};

/// How many octets come after the last slash; all if there is none.
fn name_len(path: &[u8]) -> usize
    ensures value { result ≡ suffix_len (differs 47) path.now }
    ensures within { result ≤ length path.now }
{
    path.iter()
        .rev()
        .take_while(|octet| **octet != b'/')
        .count()
}

/// What comes after the last slash of a path.
fn file_name(path: &[u8]) -> &[u8]
    ensures { result.now ≡ last_part path.now }
{
    let (_, name) = path.split_at(path.len() - name_len(path));
    name
}

/// The script of a file of this path: what comes before `.sieve` in its name, if that is its end and something comes before it.
#[tactic(auto, unfolding(crate::specs::Names::script_name_at))]
pub(crate) fn script_name_in(path: &[u8]) -> Option<&[u8]>
    ensures { option_copied result ≡ script_name_at path.now }
{
    let file = file_name(path);
    if !is_script(file) {
        return None;
    }
    let (name, _) = file.split_at(file.len() - 6);
    Some(name)
}

/// Whether a file's name is that of a script.
fn is_script(file: &[u8]) -> bool
    ensures { result ≡ is_script_file file.now }
{
    if file.len() <= 6 {
        return false;
    }
    let (_, suffix) = file.split_at(file.len() - 6);
    suffix == b".sieve".as_slice()
}

/// Whether a path is that of the link which says which script is active.
pub(crate) fn is_dovecot_sieve(path: &[u8]) -> bool
    ensures { result ≡ is_dovecot_path path.now }
{
    file_name(path) == b".dovecot.sieve".as_slice()
}
