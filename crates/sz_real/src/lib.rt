//! The outside of the program as it really is: files, standard output, disks in files, the clock, random bytes
//! and TCP, each as a thin translation of the runtime's calls that counts every error.
#![tactic(auto)]

mod address;
mod clock;
mod connection;
mod disk;
mod entropy;
mod fault;
mod folder;
mod listener;
mod net;
mod places;
mod plain;
mod positioned;
mod sink;
mod steps;

pub use clock::RealClock;
pub use connection::Limits;
pub use disk::{FILE_DISK_SIZE, FileDisk};
pub use entropy::RealEntropy;
pub use folder::RealFolder;
pub use listener::RealListener;
pub use net::RealNet;
pub use positioned::PositionedFile;
pub use sink::RealSink;
