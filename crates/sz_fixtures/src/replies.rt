//! Artifacts as other software made them, and a server's reply that has them.

use std::alloc::Global;
use std::test::Fail;
use sz_base::{Bytes, Evidence, base64_bytes};
use sz_rest::write_reply;

/// The bytes of a text in base64.
pub fn base64(alloc: Global, text: &str) -> Result<Bytes, Fail> {
    Ok(base64_bytes(alloc, text.as_bytes())?)
}

/// Evidence of these artifacts, each in base64.
pub fn artifacts(
    alloc: Global,
    information: &str,
    certificates: Option<&str>,
    voucher: &str,
) -> Result<Evidence, Fail> {
    let oc = match certificates {
        Some(certificates) => Some(base64(alloc, certificates)?),
        None => None,
    };
    Ok(Evidence {
        ci: base64(alloc, information)?,
        oc,
        ov: Some(base64(alloc, voucher)?),
    })
}

/// What a server replies that has these artifacts, each in base64.
pub fn reply(
    alloc: Global,
    information: &str,
    certificates: Option<&str>,
    voucher: &str,
) -> Result<Bytes, Fail> {
    let evidence = artifacts(alloc, information, certificates, voucher)?;
    Ok(write_reply(alloc, &evidence)?)
}
