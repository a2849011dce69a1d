//! A signer is made on a fresh disk, or found on one.

ghost use Rattle.std.specs.Prelude.{◌≡◌, ◌⊎◌, ℕ, List, ◌++◌, ◌+◌, ◌<◌, ◌≤◌, Err, IfOk, IfErr, OnErr, true, false, is_err, length, nat_lt};
ghost use Rattle.sz_cell.specs.Cell.{IsReady, NoneOpen, WhereReadsTold};
ghost use Rattle.sz_cell.specs.Slot.{region_size};
ghost use Rattle.sz_disk.specs.Disk.{IsQuiet, IsStill, IsSynced};
ghost use Rattle.sz_disk.specs.Image.{part};
ghost use Rattle.sz_hss.specs.Key.{HssKey};
ghost use Rattle.sz_hss.specs.Stored.{IsStorable, IsStoredKey, spelled};
ghost use Rattle.sz_hss.specs.StoredFault.{IsWrong, stored_tests};
ghost use Rattle.sz_hss.specs.View.{record_of};
ghost use Rattle.sz_signer.specs.Answer.{AttachAnswers, Created, IsDrawn};
ghost use Rattle.sz_signer.specs.Fault.{IsReadFault, comes_first, disk_failed, entropy_failed, is_too_small};
ghost use Rattle.sz_signer.specs.KeyDisk.{key_capacity, key_place, least_size};
ghost use Rattle.sz_spec.specs.Cause.{HasCause};
ghost use Rattle.sz_spec.specs.Told.{TakesFront};

use crate::fault::SignFault;
use crate::signer::Signer;
use std::alloc::Global;
use std::thread::Threads;
use sz_cell::{Ready, Region, format};
use sz_disk::Disk;
use sz_hss::{Key, Levels, StoredKey, Trees, spell};
use sz_io::Entropy;
use sz_lms_tree::Gate;

/// Where the cell of a key disk lies.
const REGION: Region = Region {
    at: 0,
    capacity: 1008,
};

/// The least size of a key disk.
const LEAST_SIZE: u64 = 2048;

// Draws SEED and I at once.
fn draw<E: Entropy>(entropy: &mut E) -> Result<([u8; 32], [u8; 16]), SignFault>
    ensures drawn { IfOk result (λ pair. TakesFront (E.bytes entropy.old) (E.bytes entropy.new) (pair.0 ++ pair.1)) }
    ensures fault { IfErr result (λ fault. fault ≡ SignFault.EntropyFault) }
    ensures undrawn { OnErr result (E.bytes entropy.new ≡ E.bytes entropy.old) }
    ensures cause { HasCause (E.faults entropy.old) (E.faults entropy.new) (is_err result) }
{
    let mut drawn = [0; 48];
    let Ok(()) = entropy.fill(&mut drawn) else {
        return Err(SignFault::EntropyFault);
    };
    Ok((array_at(&drawn, 0), array_at(&drawn, 32)))
}

// So many bytes at a place.
fn array_at<const N: usize>(bytes: &[u8], at: usize) -> [u8; N]
    requires { at + N ≤ length bytes.now }
    ensures { result ≡ part bytes.now at N }
{
    let mut array = [0; N];
    array.copy_from_slice(&bytes[at..at + N]);
    array
}

// The disk is large enough for a key.
fn check_size<D: Disk>(disk: &D) -> Result<(), SignFault>
    ensures ok { is_err result ≡ nat_lt (D.seen disk.now).size least_size }
    ensures fault { IfErr result (λ fault. fault ≡ SignFault.TooSmall (D.seen disk.now).size) }
{
    let size = disk.size();
    if size < LEAST_SIZE {
        return Err(SignFault::TooSmall { size });
    }
    Ok(())
}

// Makes the cell of a new key, where the disk is large enough and not in use.
fn settle<R: Threads + Sync, G: Gate + Sync, D: Disk>(
    rt: &R,
    gate: &G,
    alloc: Global,
    disk: &mut D,
    key: Key,
) -> Result<Signer, SignFault>
    ensures created { Created key (D.seen disk.old) (D.seen disk.new) result }
    ensures size { is_too_small result ≡ nat_lt (D.seen disk.old).size least_size }
    ensures untouched { comes_first result ≡ true → disk.new ≡ disk.old }
    ensures free { IsStill (D.seen disk.old) (D.seen disk.new)
        ⊎ NoneOpen key_place key_capacity (D.seen disk.old).reads }
    ensures drawn { entropy_failed result ≡ false }
    ensures cause { HasCause (D.seen disk.old).faults (D.seen disk.new).faults (disk_failed result) }
{
    check_size(disk)?;
    let end = key.leaf_count();
    let trees = Trees::build(rt, gate, alloc, key)?;
    let payload = spell(trees.key(), 0, end);
    let ready = format(disk, REGION, payload.as_slice())?;
    Ok(Signer {
        trees,
        next: 0,
        end,
        cell: Some(ready),
    })
}

// Reads the stored key.
fn read_stored<D: Disk>(alloc: Global, ready: &Ready, disk: &mut D) -> Result<StoredKey, SignFault>
    requires { ready.now.at + region_size ready.now.capacity ≤ (D.seen disk.old).size }
    ensures stored { (payload : List ℕ) → IsReady (D.seen disk.old) ready.now payload
        → IfOk result (λ stored. IsReady (D.seen disk.new) ready.now (spelled (record_of stored))
        × WhereReadsTold (D.seen disk.old).reads (IsStoredKey (record_of stored) payload)) }
    ensures storable { IfOk result (λ stored. IsStorable (record_of stored)) }
    ensures bad { (payload place byte : _) → IsReady (D.seen disk.old) ready.now payload
        → result ≡ Err (SignFault.BadKey place byte)
        → WhereReadsTold (D.seen disk.old).reads (IsWrong payload (stored_tests payload) place byte) }
    ensures only { IfErr result IsReadFault }
    ensures quiet { IsQuiet (D.seen disk.old) (D.seen disk.new) }
    ensures cause { HasCause (D.seen disk.old).faults (D.seen disk.new).faults (disk_failed result) }
{
    let mut payload = vec![in alloc; 0u8; ready.length() as usize]?;
    sz_cell::read(ready, disk, &mut payload)?;
    Ok(sz_hss::read(payload.as_slice())?)
}

impl Signer {
    /// Makes a key of these levels on a disk that is not in use, of 48 bytes that are drawn at once: SEED, then I. It
    /// draws first, then tests the size of the disk, then builds the top tree, and then writes. Nothing is written
    /// unless both gates read closed, whatever it answers.
    pub fn create<R: Threads + Sync, G: Gate + Sync, D: Disk, E: Entropy>(
        rt: &R,
        gate: &G,
        alloc: Global,
        disk: &mut D,
        levels: &Levels,
        entropy: &mut E,
    ) -> Result<Signer, SignFault>
        ensures created { entropy_failed result ≡ false → (key : HssKey)
            × IsDrawn levels.now (E.bytes entropy.old) (E.bytes entropy.new) key
            × Created key (D.seen disk.old) (D.seen disk.new) result }
        ensures size { entropy_failed result ≡ false →
            is_too_small result ≡ nat_lt (D.seen disk.old).size least_size }
        ensures untouched { comes_first result ≡ true → disk.new ≡ disk.old }
        ensures free { IsStill (D.seen disk.old) (D.seen disk.new)
            ⊎ NoneOpen key_place key_capacity (D.seen disk.old).reads }
        ensures undrawn { entropy_failed result ≡ true → E.bytes entropy.new ≡ E.bytes entropy.old }
        ensures entropy { HasCause (E.faults entropy.old) (E.faults entropy.new) (entropy_failed result) }
        ensures cause { HasCause (D.seen disk.old).faults (D.seen disk.new).faults (disk_failed result) }
    {
        let (seed, id) = draw(entropy)?;
        let key = Key::of(levels.copy(), seed, id);
        settle(rt, gate, alloc, disk, key)
    }

    /// Finds the signer of the key on a disk, as it is also after a crash at any moment. It tests the size of the disk
    /// first and writes nothing. It builds no tree, so that it leaves the runtime and the gate alone: the trees are
    /// built as they are signed with.
    pub fn attach<R: Threads + Sync, G: Gate + Sync, D: Disk>(
        _rt: &R,
        _gate: &G,
        alloc: Global,
        disk: &mut D,
    ) -> Result<Signer, SignFault>
        ensures answer { AttachAnswers (D.seen disk.old) (D.seen disk.new) result }
        ensures size { is_too_small result ≡ nat_lt (D.seen disk.old).size least_size }
        ensures untouched { is_too_small result ≡ true → disk.new ≡ disk.old }
        ensures synced { disk_failed result ≡ false → is_too_small result ≡ false
            → IsSynced (D.seen disk.old) (D.seen disk.new) }
        ensures still { IsStill (D.seen disk.old) (D.seen disk.new) }
        ensures cause { HasCause (D.seen disk.old).faults (D.seen disk.new).faults (disk_failed result) }
    {
        check_size(disk)?;
        let ready = sz_cell::attach(disk, REGION)?;
        let StoredKey { key, next, end } = read_stored(alloc, &ready, disk)?;
        let trees = Trees::of(alloc, key);
        Ok(Signer {
            trees,
            next,
            end,
            cell: Some(ready),
        })
    }
}
