//! Tests of keys and their signatures, over sz_lms, sz_lms_tree, sz_hss and sz_signer: what other software made of the
//! same secrets, and a disk whose calls are cut or fail.
#![tactic(auto)]

#[cfg(test)]
mod hss;
#[cfg(test)]
mod lms;
#[cfg(test)]
mod lms_tree;
#[cfg(test)]
mod lms_vectors;
#[cfg(test)]
mod meeting;
#[cfg(test)]
mod signer;
