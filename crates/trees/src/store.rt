// What a tree says, out of a store that is asked by good paths only.
ghost use Rattle.std.specs.Prelude.{◌≡◌, ◌≤◌, length, Ok};
ghost use Rattle.std.specs.Option.{option_map};
ghost use Rattle.paths.specs.Names.{prefixes, last_name};
ghost use Rattle.paths.specs.Paths.{names};
ghost use Rattle.rows.specs.Maps.{at, child_path};
ghost use Rattle.trees.specs.Entries.{Entries};
ghost use Rattle.trees.specs.Answers.{present as present_of, barred as barred_of, lost as lost_of, look_of, next_of, counted, put_name};

use crate::entry::Entry;
use crate::fault::Fault;
use paths::Path;

pub trait Store {
    ghost stored: { Self → Entries };

    fn entry(&self, path: &Path) -> Option<Entry>
        ensures { result ≡ at (stored self.now).rows (names path.now) };

    // The child of `path` whose name is the least above `after`.
    fn child_after(&self, path: &Path, after: &[u8]) -> Option<Path>
        ensures { option_map names result ≡ child_path (stored self.now).rows (names path.now) after.now };
}

// How many prefixes of a path are present.
pub fn present<S: Store>(store: &S, path: &Path) -> usize
    ensures { result ≡ present_of (S.Store.stored store.now).rows (names path.now) }
{
    path.prefixes()
        .filter(|up| store.entry(up).is_some())
        .count()
}

// Whether a prefix of a path is a file.
pub fn barred<S: Store>(store: &S, path: &Path) -> bool
    ensures { result ≡ barred_of (S.Store.stored store.now).rows (prefixes (names path.now)) }
{
    path.prefixes()
        .any(|up| store.entry(&up).is_some_and(|e| e.is_file()))
}

// Both of these at once. Each prefix is asked for once: an entry that a session lacks is asked for in each tree below it, and why it
// is lost is told there too, so a second walk would count twice at every height of a pile.
fn way<S: Store>(store: &S, path: &Path) -> (usize, bool)
    ensures present { result.0 ≡ present_of (S.Store.stored store.now).rows (names path.now) }
    ensures barred { result.1 ≡ barred_of (S.Store.stored store.now).rows (prefixes (names path.now)) }
{
    let mut place = 0;
    let mut barred = false;
    for up in path.prefixes() {
        if let Some(entry) = store.entry(&up) {
            place += 1;
            barred = barred || entry.is_file();
        }
    }
    (place, barred)
}

// Why nothing is told of a path.
pub fn lost<S: Store>(store: &S, path: &Path) -> Fault
    ensures { result ≡ lost_of (S.Store.stored store.now).rows (names path.now) }
{
    let (place, barred) = way(store, path);
    if barred {
        Fault::NotDirectory(place)
    } else {
        Fault::Missing(place)
    }
}

// The entry at a path.
pub fn look<S: Store>(store: &S, path: &[u8]) -> Result<Entry, Fault>
    ensures { result ≡ look_of (S.Store.stored store.now).rows path.now }
{
    let path = Path::parse(path)?;
    store.entry(&path).ok_or_else(|| lost(store, &path))
}

// Writes the last name of a path to the front of a buffer, and answers its length.
#[tactic(auto, using(std::proofs::lemmas::Grind::common_steps, crate::proofs::Lasts::short_last))]
fn put_last(child: Option<Path>, buffer: &mut [u8]) -> Option<usize>
    requires { 40 ≤ length buffer.old }
    ensures exact { result ≡ option_map length (option_map last_name (option_map names child)) }
    ensures written { buffer.new ≡ put_name (Ok (option_map last_name (option_map names child))) buffer.old }
{
    let child = child?;
    let name = child.last_name();
    buffer[..name.len()].copy_from_slice(name);
    Some(name.len())
}

// Writes the least name below `path` that is greater than `after`.
pub fn next<S: Store>(
    store: &S,
    path: &[u8],
    after: &[u8],
    buffer: &mut [u8],
) -> Result<Option<usize>, Fault>
    ensures exact { result ≡ counted (next_of (S.Store.stored store.now).rows path.now after.now (length buffer.old)) }
    ensures written { buffer.new ≡ put_name (next_of (S.Store.stored store.now).rows path.now after.now (length buffer.old)) buffer.old }
{
    let path = Path::parse(path)?;
    match store.entry(&path) {
        None => Err(lost(store, &path)),
        Some(Entry::File(_)) => Err(Fault::NotDirectory(present(store, &path))),
        Some(Entry::Dir(_)) if buffer.len() < 40 => Err(Fault::ShortBuffer),
        Some(Entry::Dir(_)) => Ok(put_last(store.child_after(&path, after), buffer)),
    }
}
