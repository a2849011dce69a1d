//! Tests of the program as a whole, through its top call over an outside in memory: what is printed, the status, and
//! what stays on disks and in files.
#![tactic(auto)]

#[cfg(test)]
mod big;
#[cfg(test)]
mod boots;
#[cfg(test)]
mod checks;
#[cfg(test)]
mod devices;
#[cfg(test)]
mod keys;
#[cfg(test)]
mod site;
#[cfg(test)]
mod vector;
