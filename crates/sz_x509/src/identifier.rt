//! The object identifiers that certificates and revocation lists hold, each as the octets of its DER content.

/// id-alg-hss-lms-hashsig, 1.2.840.113549.1.9.16.3.17 (RFC 8708 section 3).
pub const HSS_LMS: [u8; 11] = [
    0x2A, 0x86, 0x48, 0x86, 0xF7, 0x0D, 0x01, 0x09, 0x10, 0x03, 0x11,
];
/// id-ce-subjectKeyIdentifier, 2.5.29.14 (RFC 5280 section 4.2.1.2).
pub const SUBJECT_KEY_IDENTIFIER: [u8; 3] = [0x55, 0x1D, 0x0E];
/// id-ce-keyUsage, 2.5.29.15 (RFC 5280 section 4.2.1.3).
pub const KEY_USAGE: [u8; 3] = [0x55, 0x1D, 0x0F];
/// id-ce-subjectAltName, 2.5.29.17 (RFC 5280 section 4.2.1.6).
pub const SUBJECT_ALT_NAME: [u8; 3] = [0x55, 0x1D, 0x11];
/// id-ce-basicConstraints, 2.5.29.19 (RFC 5280 section 4.2.1.9).
pub const BASIC_CONSTRAINTS: [u8; 3] = [0x55, 0x1D, 0x13];
/// id-ce-certificatePolicies, 2.5.29.32 (RFC 5280 section 4.2.1.4).
pub const CERTIFICATE_POLICIES: [u8; 3] = [0x55, 0x1D, 0x20];
/// id-ce-authorityKeyIdentifier, 2.5.29.35 (RFC 5280 section 4.2.1.1).
pub const AUTHORITY_KEY_IDENTIFIER: [u8; 3] = [0x55, 0x1D, 0x23];
/// id-ce-extKeyUsage, 2.5.29.37 (RFC 5280 section 4.2.1.12).
pub const EXTENDED_KEY_USAGE: [u8; 3] = [0x55, 0x1D, 0x25];
