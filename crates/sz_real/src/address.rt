//! Where a target leads.
use std::io::{self, ErrorKind};
use std::str;
use sz_base::Host;

/// A host as the resolver takes it: an IPv6 text without its brackets.
pub(crate) fn host_text(host: &Host) -> io::Result<&str> {
    let text = str::from_utf8(host.as_slice()).map_err(|_| io::Error::from(
        ErrorKind::InvalidInput,
    ))?;
    match text
        .strip_prefix('[')
        .and_then(|inner| inner.strip_suffix(']'))
    {
        Some(inner) => Ok(inner),
        None => Ok(text),
    }
}
