//! The tags of the parts of a certificate that need not be there (RFC 5280 section 4.1).

use sz_der::tag::{CONTEXT_CONSTRUCTED, CONTEXT_PRIMITIVE};

/// issuerUniqueID, `[1]`.
pub const ISSUER_UNIQUE_ID: u8 = CONTEXT_PRIMITIVE + 1;
/// subjectUniqueID, `[2]`.
pub const SUBJECT_UNIQUE_ID: u8 = CONTEXT_PRIMITIVE + 2;
/// The extensions, `[3]`.
pub const EXTENSIONS: u8 = CONTEXT_CONSTRUCTED + 3;
