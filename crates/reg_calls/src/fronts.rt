//! The fronts of paths, as text.
ghost use Rattle.std.specs.Prelude.{◌≡◌, ◌<◌, ◌≤◌, ◌-◌, ◌++◌, length, drop, get_or, true};
ghost use Rattle.reg_names.specs.Names.{is_path, path_of, has_no_backslash};
ghost use Rattle.reg_heap.specs.Paths.{Path};
ghost use Rattle.reg_heap.specs.Edits.{above};

use reg_names::first_name;

/// Where the last name of a path begins.
fn last_start(path: &[u8]) -> usize
    ensures within { result ≤ length path.now }
    ensures name { has_no_backslash (drop result path.now) ≡ true }
    ensures backslash { 0 < result → get_or path.now (result - 1) 0 ≡ 92 }
{
    let mut start = path.len();
    while start > 0 && path[start - 1] != b'\\' {
        start -= 1;
    }
    start
}

/// A path without its last name; the path of no names stays.
pub fn without_last(path: &[u8]) -> &[u8]
    requires { is_path path.now ≡ true }
    ensures names { path_of result.now ≡ above (path_of path.now) }
    ensures valid { is_path result.now ≡ true }
{
    let start = last_start(path);
    if start == 0 {
        return &[];
    }
    &path[..start - 1]
}

/// A path without its last names, as many as another one has.
pub fn without_names<'a>(path: &'a [u8], names: &[u8]) -> &'a [u8]
    requires path { is_path path.now ≡ true }
    requires names { is_path names.now ≡ true }
    ensures front { (front behind : Path) → path_of path.now ≡ front ++ behind → length behind ≡ length (path_of names.now) →
        path_of result.now ≡ front }
    ensures valid { is_path result.now ≡ true }
{
    let mut front = path;
    let mut rest = names;
    while let Some((_, behind)) = first_name(rest) {
        front = without_last(front);
        rest = behind;
    }
    front
}
