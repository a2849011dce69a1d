//! These tests show, by rows of an input and what it comes to, which texts and messages `sz_json`, `sz_artifacts`,
//! `sz_uri`, `sz_dhcp`, `sz_dns` and `sz_source` read, refuse and write.
#![tactic(auto)]

#[cfg(test)]
mod conveyed;
#[cfg(test)]
mod conveyed_texts;
#[cfg(test)]
mod dhcp;
#[cfg(test)]
mod dns;
#[cfg(test)]
mod json;
#[cfg(test)]
mod source;
#[cfg(test)]
mod uri;
#[cfg(test)]
mod voucher;
#[cfg(test)]
mod wanted;
