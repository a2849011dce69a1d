//! What no clause of `sz_der`, `sz_x509`, `sz_issue` and `sz_cms` says: messages and certificates of other software,
//! items spelled by hand, limits, and each fault at its place.
#![tactic(auto)]

#[cfg(test)]
mod cms;
#[cfg(test)]
mod der;
#[cfg(test)]
mod issue;
#[cfg(test)]
mod spelling;
#[cfg(test)]
mod x509;
