//! What the tests of a device and its disk show: its stored form, what it is made with, whatever cuts or fails its
//! calls, and its audit.
#![tactic(auto)]

#[cfg(test)]
mod audit;
#[cfg(test)]
mod record;
#[cfg(test)]
mod state;
