//! What a case does beside calling the tool: files made, changed, compared and told. `data/cases/README.md` has a line for each.

use crate::bins::{cells_told, lists_told, sizes_told};
use crate::given::Given;
use crate::outcome::Outcome;
use anyhow::{Context, Result, bail};
use reg_fixtures::{drafted, put_changes, put_line};
use std::alloc::Global;
use std::fs;
use std::fs::{File, Permissions};
use std::os::unix::fs::{MetadataExt, PermissionsExt, chown, symlink};

/// The first moment of 2020, in 100 ns units since 1601.
const FIRST_OF_2020: u64 = 132_223_104_000_000_000;

/// A moment of 2199.
const IN_2199: u64 = 189_000_000_000_000_000;

/// What a case holds between its steps.
#[derive(Drop)]
pub struct Scene {
    /// The files whose locks it has.
    held: Vec<File>,
    /// How often the last command of the tool read and wrote, and how many bytes were taken of it.
    reads: usize,
    writes: usize,
    taken: usize,
}

impl Scene {
    /// A case that begins.
    pub fn new(alloc: Global) -> Scene {
        Scene {
            held: Vec::new(alloc),
            reads: 0,
            writes: 0,
            taken: 0,
        }
    }

    /// Keeps in mind what the tool gave.
    pub fn note(&mut self, outcome: &Outcome) {
        self.reads = outcome.reads;
        self.writes = outcome.writes;
        self.taken = outcome.taken;
    }
}

/// The bytes of a file.
fn bytes_of(rt: &HostRuntime, path: &str) -> Result<Vec<u8>> {
    Ok(fs::read(rt, path).context(format_args!("reading {path}"))?)
}

/// Writes a file.
fn write(rt: &HostRuntime, path: &str, bytes: &[u8]) -> Result<()> {
    fs::write(rt, path, bytes).context(format_args!("writing {path}"))?;
    Ok(())
}

/// The bytes that a word stands for: behind `=` its letters, behind `x` those of its digits.
fn bytes_in(alloc: Global, word: &str) -> Result<Vec<u8>> {
    if let Some(text) = word.strip_prefix('=') {
        return Ok(text.as_bytes().to_vec(alloc)?);
    }
    match word.strip_prefix('x') {
        Some(digits) => Ok(hex::decode(alloc, digits)?),
        None => bail!("{word} is neither =TEXT nor xDIGITS"),
    }
}

/// A text in UTF-16LE behind its mark.
fn wide(alloc: Global, text: &str) -> Result<Vec<u8>> {
    let mut bytes = Vec::new(alloc);
    bytes.extend_from_slice(b"\xFF\xFE")?;
    for unit in text.encode_utf16() {
        bytes.extend_from_slice(&unit.to_le_bytes())?;
    }
    Ok(bytes)
}

/// The bytes of a text in a form: as it is, with CR LF in the place of each LF, that in UTF-16LE, or in UTF-8 behind its mark.
fn in_form(alloc: Global, text: &str, form: &str) -> Result<Vec<u8>> {
    let ended = text.replace(alloc, '\n', "\r\n")?;
    match form {
        "lf" => Ok(text.as_bytes().to_vec(alloc)?),
        "crlf" => Ok(ended.as_str().as_bytes().to_vec(alloc)?),
        "utf16" => wide(alloc, ended.as_str()),
        "marked" => {
            let mut bytes = Vec::new(alloc);
            bytes.extend_from_slice(b"\xEF\xBB\xBF")?;
            bytes.extend_from_slice(text.as_bytes())?;
            Ok(bytes)
        }
        _ => bail!("{form} is no form of a text"),
    }
}

/// Makes a file: of the bytes that words name, or of the lines that were given.
fn put(rt: &HostRuntime, path: &str, words: &[String], given: &Given) -> Result<()> {
    let alloc = rt.alloc();
    let form = match words.first() {
        Some(form) => form.as_str(),
        None => "lf",
    };
    if !form.starts_with('=') && !form.starts_with('x') {
        return write(rt, path, &in_form(alloc, given.input.as_str(), form)?);
    }
    let mut bytes = Vec::new(alloc);
    for word in words {
        bytes.extend_from_slice(&bytes_in(alloc, word.as_str())?)?;
    }
    write(rt, path, &bytes)
}

/// The image of a table that was given, with a minor version: 5 where none is.
fn draft(rt: &HostRuntime, path: &str, words: &[String], given: &Given) -> Result<()> {
    let minor = match words.first() {
        Some(minor) => minor.as_str().parse::<u32>()?,
        None => 5,
    };
    let table = given.input.as_str();
    let image = drafted(rt.alloc(), minor, table.strip_suffix('\n').unwrap_or(table))?;
    write(rt, path, &image)
}

/// Words with a space between each two.
fn joined(alloc: Global, words: &[String]) -> Result<String> {
    let mut text = String::new(alloc);
    for word in words {
        if !text.is_empty() {
            text.push(' ')?;
        }
        text.push_str(word.as_str())?;
    }
    Ok(text)
}

/// Changes bytes of an image, and makes its checksum anew.
fn patch(rt: &HostRuntime, path: &str, words: &[String]) -> Result<()> {
    let mut bytes = bytes_of(rt, path)?;
    let changes = joined(rt.alloc(), words)?;
    put_changes(rt.alloc(), &mut bytes, changes.as_str())?;
    write(rt, path, &bytes)
}

/// Changes bytes of a file.
fn poke(rt: &HostRuntime, path: &str, words: &[String]) -> Result<()> {
    let mut bytes = bytes_of(rt, path)?;
    let change = joined(rt.alloc(), words)?;
    put_line(rt.alloc(), &mut bytes, change.as_str())?;
    write(rt, path, &bytes)
}

/// Cuts a file off behind so many bytes.
fn cut(rt: &HostRuntime, path: &str, len: &str) -> Result<()> {
    let bytes = bytes_of(rt, path)?;
    match bytes.get(..len.parse::<usize>()?) {
        Some(front) => write(rt, path, front),
        None => bail!("{path} has {} bytes", bytes.len()),
    }
}

/// Where two files differ first; nothing, where they are the same.
fn compare(rt: &HostRuntime, path: &str, other: &str) -> Result<String> {
    let alloc = rt.alloc();
    let (one, two) = (bytes_of(rt, path)?, bytes_of(rt, other)?);
    if one.as_slice() == two.as_slice() {
        return Ok(String::new(alloc));
    }
    let at = one.iter().zip(two.iter()).position(|(a, b)| a != b);
    let at = at.unwrap_or(one.len().min(two.len()));
    Ok(format!(in alloc; "{path} and {other} differ at byte {at}\n")?)
}

/// So many bytes from an offset on; `None` where there are fewer.
fn part_of(bytes: &[u8], at: usize, len: usize) -> Option<&[u8]> {
    bytes.get(at..)?.get(..len)
}

/// The digits of a file's bytes: of all, or from an offset on so many.
fn digits(rt: &HostRuntime, path: &str, words: &[String]) -> Result<String> {
    let bytes = bytes_of(rt, path)?;
    let (at, len) = match words {
        [at, len] => (
            at.as_str().parse::<usize>()?,
            len.as_str().parse::<usize>()?,
        ),
        _ => (0, bytes.len()),
    };
    let Some(part) = part_of(&bytes, at, len) else {
        bail!("{path} has fewer bytes");
    };
    let text = hex::encode(rt.alloc(), part)?;
    Ok(format!(in rt.alloc(); "{}\n", text.as_str())?)
}

/// The numbers of a base block: the sequence number twice, and the moment.
fn numbers_in(bytes: &[u8]) -> Option<(u32, u32, u64)> {
    let first = u32::from_le_bytes(bytes.get(4..8)?.try_into().ok()?);
    let second = u32::from_le_bytes(bytes.get(8..12)?.try_into().ok()?);
    let moment = u64::from_le_bytes(bytes.get(12..20)?.try_into().ok()?);
    Some((first, second, moment))
}

/// The numbers of a file's base block.
fn numbers_of(rt: &HostRuntime, path: &str) -> Result<(u32, u32, u64)> {
    match numbers_in(&bytes_of(rt, path)?) {
        Some(numbers) => Ok(numbers),
        None => bail!("{path} is too short"),
    }
}

/// The numbers of a file's base block in a line.
fn block(rt: &HostRuntime, path: &str) -> Result<String> {
    let (first, second, moment) = numbers_of(rt, path)?;
    Ok(format!(in rt.alloc(); "sequence {first} {second} moment {moment}\n")?)
}

/// Whether the moment of a file's base block is the clock's: of 2020 or later, and before 2200.
fn century(rt: &HostRuntime, path: &str) -> Result<String> {
    let (_, _, moment) = numbers_of(rt, path)?;
    let is_now = moment >= FIRST_OF_2020 && moment < IN_2199;
    let said = if is_now {
        "of the clock"
    } else {
        "not of the clock"
    };
    Ok(format!(in rt.alloc(); "{said}\n")?)
}

/// The names in the folder, a line each, in order.
fn names(rt: &HostRuntime) -> Result<String> {
    let mut names = Vec::new(rt.alloc());
    for entry in fs::read_dir(rt, ".")? {
        names.push(entry?.file_name().to_string(rt.alloc())?)?;
    }
    names.sort()?;
    let mut text = String::new(rt.alloc());
    for name in &names {
        write!(text, "{}\n", name.as_str())?;
    }
    Ok(text)
}

/// Sets permissions, in octal digits.
fn permit(rt: &HostRuntime, path: &str, mode: &str) -> Result<()> {
    let mode = u32::from_str_radix(mode, 8)?;
    fs::set_permissions(rt, path, Permissions::from_mode(mode))?;
    Ok(())
}

/// A file's permissions, in octal digits, or that a name is a link.
fn kind(rt: &HostRuntime, path: &str) -> Result<String> {
    if fs::symlink_metadata(rt, path)?.is_symlink() {
        return Ok("a link\n".to_string(rt.alloc())?);
    }
    let mode = fs::metadata(rt, path)?.permissions().mode() % 512;
    Ok(format!(in rt.alloc(); "mode {mode:o}\n")?)
}

/// Whose a file is: the numbers of its owner and its group.
fn owner(rt: &HostRuntime, path: &str) -> Result<String> {
    let saved = fs::metadata(rt, path)?;
    let (user, group) = (saved.uid(), saved.gid());
    Ok(format!(in rt.alloc(); "owner {user} group {group}\n")?)
}

/// Takes the lock of a file, as another one that edits it does, until the case ends.
fn lock(rt: &HostRuntime, path: &str, scene: &mut Scene) -> Result<()> {
    let file = File::open(rt, path)?;
    file.lock()?;
    scene.held.push(file)?;
    Ok(())
}

/// Gives a file another owner and another group.
fn own(rt: &HostRuntime, path: &str, user: &str, group: &str) -> Result<()> {
    let (user, group) = (user.parse::<u32>()?, group.parse::<u32>()?);
    chown(rt, path, Some(user), Some(group))?;
    Ok(())
}

/// Writes a file, or changes what it holds. Whether the words ask for that.
fn write_by(
    rt: &HostRuntime,
    verb: &str,
    path: &str,
    rest: &[String],
    given: &Given,
) -> Result<bool> {
    match (verb, rest) {
        ("put", _) => put(rt, path, rest, given)?,
        ("draft", _) => draft(rt, path, rest, given)?,
        ("patch", _) => patch(rt, path, rest)?,
        ("poke", _) => poke(rt, path, rest)?,
        ("cut", [len]) => cut(rt, path, len.as_str())?,
        _ => return Ok(false),
    }
    Ok(true)
}

/// Does what changes files. Whether the words ask for that.
fn change(rt: &HostRuntime, words: &[String], given: &Given, scene: &mut Scene) -> Result<bool> {
    let [verb, path, rest @ ..] = words else {
        return Ok(false);
    };
    let (verb, path) = (verb.as_str(), path.as_str());
    match (verb, rest) {
        ("copy", [to]) => write(rt, to.as_str(), &bytes_of(rt, path)?)?,
        ("link", [to]) => symlink(rt, to.as_str(), path)?,
        ("permit", [mode]) => permit(rt, path, mode.as_str())?,
        ("own", [user, group]) => own(rt, path, user.as_str(), group.as_str())?,
        ("lock", []) => lock(rt, path, scene)?,
        _ => return write_by(rt, verb, path, rest, given),
    }
    Ok(true)
}

/// What is told of the file that is named, or of the folder.
fn told_by(
    rt: &HostRuntime,
    verb: &str,
    path: &str,
    rest: &[String],
    scene: &Scene,
) -> Result<String> {
    let alloc = rt.alloc();
    match (verb, rest) {
        ("block", []) => block(rt, path),
        ("moment", []) => century(rt, path),
        ("names", []) => names(rt),
        ("calls", []) => Ok(format!(in alloc;
            "{} reads, {} writes, {} bytes\n",
            scene.reads, scene.writes, scene.taken
        )?),
        ("size", []) => Ok(format!(in alloc; "{} bytes\n", fs::metadata(rt, path)?.len())?),
        ("kind", []) => kind(rt, path),
        ("owner", []) => owner(rt, path),
        _ => bail!("{verb} isn't understood"),
    }
}

/// What is told of files.
fn told(rt: &HostRuntime, words: &[String], scene: &Scene) -> Result<String> {
    let alloc = rt.alloc();
    let (verb, path, rest) = match words {
        [verb] => (verb.as_str(), ".", words.get(1..).unwrap_or(&[])),
        [verb, path, rest @ ..] => (verb.as_str(), path.as_str(), rest),
        [] => bail!("no word"),
    };
    match (verb, rest) {
        ("same", [other]) => compare(rt, path, other.as_str()),
        ("digits", _) => digits(rt, path, rest),
        ("cells", []) => cells_told(alloc, &bytes_of(rt, path)?),
        ("sizes", []) => sizes_told(alloc, &bytes_of(rt, path)?),
        ("lists", []) => lists_told(alloc, &bytes_of(rt, path)?),
        _ => told_by(rt, verb, path, rest, scene),
    }
}

/// Does what words ask for that are none of the tool, and answers what is told.
pub fn perform(
    rt: &HostRuntime,
    words: &[String],
    given: &Given,
    scene: &mut Scene,
) -> Result<String> {
    if change(rt, words, given, scene)? {
        return Ok(String::new(rt.alloc()));
    }
    told(rt, words, scene)
}
