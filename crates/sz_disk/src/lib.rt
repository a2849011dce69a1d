//! A disk, and what a crash may leave of it.
//!
//! The trait [`Disk`] has the calls and the disk rule: between two syncs each written range may hold any
//! bytes after a crash, the bytes outside stay, and after a sync that succeeds a crash leaves what a read
//! gives. [`MemoryDisk`] keeps it, and fails where it is told to; [`Disks`] finds disks by their names. The
//! trait [`Room`] is where an image is put.
#![tactic(auto)]

mod choice;
mod disk;
mod disks;
mod event;
mod medium;
mod memory;
mod plan;
mod room;

pub use disk::Disk;
pub use disks::Disks;
pub use memory::MemoryDisk;
pub use room::Room;
