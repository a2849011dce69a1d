//! These tests show which chains of certificates, messages and evidence are taken, over `sz_chain` and
//! `sz_evidence`.
#![tactic(auto)]

#[cfg(test)]
mod chain;
#[cfg(test)]
mod evidence;
#[cfg(test)]
mod path;
