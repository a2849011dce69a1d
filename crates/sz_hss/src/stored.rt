//! The stored form of a key, written.

ghost use Rattle.std.specs.Prelude.{◌≡◌, ◌++◌, ◌+◌, ◌*◌, ◌≤◌, length};
ghost use Rattle.std.specs.List.{flat_map};
ghost use Rattle.arrayvec.specs.ArrayVec.{array_vec_len};
ghost use Rattle.sz_hss.specs.Stored.{shape_bytes, spelled};
ghost use Rattle.sz_hss.specs.View.{shapes_of};

use crate::key::Key;
use crate::level::Level;
use arrayvec::ArrayVec;

/// The most bytes that a stored key has.
const MOST_BYTES: usize = 72;

/// The version of the stored form.
pub(crate) const VERSION: u8 = 1;

/// A stored key's bytes, 68 to 72 of them.
pub type Payload = ArrayVec<u8, MOST_BYTES>;

/// A key with its leaf numbers: those before `next` are handed out, and those from `end` on don't exist.
#[derive(Drop)]
pub struct StoredKey {
    /// The key.
    pub key: Key,
    /// The first leaf number that is not handed out.
    pub next: u64,
    /// The first one that there is not.
    pub end: u64,
}

// Puts bytes last.
fn append(out: &mut Payload, bytes: &[u8])
    requires { array_vec_len out.old + length bytes.now ≤ MOST_BYTES }
    ensures items { out.new.items ≡ out.old.items ++ bytes.now }
    ensures len { array_vec_len out.new ≡ array_vec_len out.old + length bytes.now }
{
    let Ok(()) = out.try_extend_from_slice(bytes) else {
        unreachable!()
    };
}

// Puts the shapes of the levels last, each as its height and its width.
fn append_shapes(out: &mut Payload, levels: &[Level])
    requires { array_vec_len out.old + 2 * length levels.now ≤ MOST_BYTES }
    ensures items { out.new.items ≡ out.old.items ++ flat_map shape_bytes (shapes_of levels.now) }
    ensures len { array_vec_len out.new ≡ array_vec_len out.old + 2 * length levels.now }
{
    for level in levels {
        append(out, &[level.height, level.width]);
    }
}

/// The stored form of the key with this next leaf number and this end.
pub fn spell(key: &Key, next: u64, end: u64) -> Payload
    ensures { result.items ≡ spelled (record { key = key.now; next = next; end = end }) }
{
    let mut out = ArrayVec::new();
    let levels = key.levels();
    let top = key.top();
    append(&mut out, &[VERSION, levels.len() as u8]);
    append_shapes(&mut out, levels);
    append(&mut out, &top.seed);
    append(&mut out, &top.id);
    append(&mut out, &next.to_be_bytes());
    append(&mut out, &end.to_be_bytes());
    out
}
