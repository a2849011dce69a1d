//! These tests show, by rows of bytes and what they come to, how `sz_http` and `sz_rest` read, refuse and write messages
//! of HTTP.
#![tactic(auto)]

#[cfg(test)]
mod body;
#[cfg(test)]
mod chunked;
#[cfg(test)]
mod head;
#[cfg(test)]
mod http;
#[cfg(test)]
mod rest;
#[cfg(test)]
mod rest_texts;
#[cfg(test)]
mod texts;
