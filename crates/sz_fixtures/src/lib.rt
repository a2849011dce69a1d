//! What the tests of several crates share: items of DER and messages of any parts, keys of fixed secrets with what they
//! sign, and an outside in memory with scripted servers, files, disks and identities. Nothing of it is in the program.
#![tactic(auto)]

mod der;
mod device;
pub mod digests;
pub mod disks;
mod evidence;
mod files;
mod network;
pub mod offers;
mod pad;
mod replies;
pub mod sources;

pub use der::{algorithm, encapsulated, item, joined, plain, signed_data, signer_info};
pub use device::{identity, identity_file};
pub use evidence::{
    BEGIN, CertTemplate, Change, CrlTemplate, EvidenceTemplate, Keys, OVER, ROOT, voucher,
};
pub use files::{add_file, folder, texts};
pub use network::{Reply, calls, scripted, servers};
pub use pad::Pad;
pub use replies::{artifacts, base64, reply};
