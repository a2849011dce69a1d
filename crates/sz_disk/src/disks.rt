//! A list of names and disks.
ghost use Rattle.std.specs.Prelude.{◌≡◌, ◌<◌, ◌↔◌, [], ◌∷◌, ◌++◌, length, slice_get, position, find, Some, OnOk, OnErr, IsSome, Contains};
ghost use Rattle.std.specs.Option.{option_map, option_copied_mut};
ghost use Rattle.std.specs.Borrow.{sem};
ghost use Rattle.sz_disk.specs.Disks.{has_name, names, lends_named, lends_at};

use std::alloc::Global;
use std::marker::Model;
use sz_base::{OutOfMemory, Text};

/// Disks by their names, in order. Contracts see them as the list of names and disks.
#[derive(Drop)]
pub struct Disks<D> {
    entries: Vec<(Text, D)>,
}

impl<D> Model for Disks<D> {
    ghost use Rattle.std.specs.Prelude.{List, ℕ};

    ghost Value = { List (List ℕ × D) };

    ghost view = { λ disks. disks.entries.items };
}

impl<D> Disks<D> {
    /// No disks. Takes no memory.
    pub fn create(alloc: Global) -> Self
        ensures { result ≡ [] }
    {
        Disks {
            entries: Vec::new(alloc),
        }
    }

    /// The disk of the first entry of this name, or `None` exactly where no entry has it.
    pub fn find(&mut self, name: &[u8]) -> Option<&mut D>
        ensures* writes_back { sem 𝓛 (lends_named D.row self.entry name.now result) }
        ensures found { IsSome result ↔ Contains (names self.old) name.now }
        ensures disk { option_copied_mut result
            ≡ option_map (λ entry. entry.1) (find (has_name name.now) self.old) }
    {
        match place_of(&self.entries, name) {
            Some(place) => Some(self.disk_at(place)),
            None => None,
        }
    }

    // The disk at this place.
    fn disk_at(&mut self, place: usize) -> &mut D
        requires { place < length self.old }
        ensures* writes_back { sem 𝓛 (lends_at D.row self.entry place result) }
        ensures disk { option_map (λ entry. entry.1) (slice_get self.old place) ≡ Some result.now }
    {
        let entry = &mut self.entries[place];
        &mut entry.1
    }
}

impl<D: Drop> Disks<D> {
    /// Puts a disk last. A refusal leaves the list as it was.
    pub fn add(&mut self, name: Text, disk: D) -> Result<(), OutOfMemory>
        ensures ok { OnOk result (self.new ≡ self.old ++ (name, disk) ∷ []) }
        ensures err { OnErr result (self.new ≡ self.old) }
    {
        self.entries.push((name, disk))?;
        Ok(())
    }
}

// The place of the first entry of this name.
fn place_of<D>(entries: &[(Text, D)], name: &[u8]) -> Option<usize>
    ensures { result ≡ position (has_name name.now) entries.now }
{
    entries.iter().position(|entry| entry.0.as_slice() == name)
}
