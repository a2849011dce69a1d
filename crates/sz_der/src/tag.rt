//! The tags of the types that are read and written, each in one octet: its class, whether it is constructed,
//! and its number (X.690 section 8.1.2, X.680 section 8.4).

/// BOOLEAN.
pub const BOOLEAN: u8 = 0x01;
/// INTEGER.
pub const INTEGER: u8 = 0x02;
/// BIT STRING.
pub const BIT_STRING: u8 = 0x03;
/// OCTET STRING.
pub const OCTET_STRING: u8 = 0x04;
/// NULL.
pub const NULL: u8 = 0x05;
/// OBJECT IDENTIFIER.
pub const OBJECT_IDENTIFIER: u8 = 0x06;
/// UTF8String.
pub const UTF8_STRING: u8 = 0x0C;
/// UTCTime.
pub const UTC_TIME: u8 = 0x17;
/// GeneralizedTime.
pub const GENERALIZED_TIME: u8 = 0x18;
/// SEQUENCE and SEQUENCE OF.
pub const SEQUENCE: u8 = 0x30;
/// SET and SET OF.
pub const SET: u8 = 0x31;
/// `[0]` of a primitive type, as `IMPLICIT` makes it; the tag of `[n]` is greater by n.
pub const CONTEXT_PRIMITIVE: u8 = 0x80;
/// `[0]` of a constructed type, as `EXPLICIT` makes it; the tag of `[n]` is greater by n.
pub const CONTEXT_CONSTRUCTED: u8 = 0xA0;
