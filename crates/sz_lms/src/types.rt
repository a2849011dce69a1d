//! The types of one-time signatures and of trees (RFC 8554 sections 4.1 and 5.1).

ghost use Rattle.std.specs.Prelude.{◌≡◌, ◌-◌, ◌/◌, ◌^◌, ◌≤◌, Some, length};
ghost use Rattle.std.specs.Option.{option_map};
ghost use Rattle.sz_lms.specs.Ots.{ots_type};
ghost use Rattle.sz_lms.specs.Lms.{height_of};
ghost use Rattle.sz_lms.specs.Rules.{lms_length, ots_length, tree_type};
ghost use Rattle.sz_lms.specs.View.{facts_of, tree_height, types_of};

use crate::bytes::u32_at;

/// A type of LM-OTS one-time signatures with SHA-256 and 32-byte values (RFC 8554 section 4.1), named by the
/// bits of a digit. Its number is its code.
#[derive(Clone, Copy, Debug, PartialEq, Eq)]
pub enum OtsType {
    W1 = 1,
    W2 = 2,
    W4 = 3,
    W8 = 4,
}

// What the standard fixes of a type of one-time signatures.
#[derive(Clone, Copy)]
struct OtsRow {
    width: usize,
    chains: u16,
    shift: u32,
}

impl OtsType {
    /// The type with this code.
    pub fn from_code(code: u32) -> Option<OtsType>
        ensures { option_map facts_of result ≡ ots_type code }
    {
        match code {
            1 => Some(OtsType::W1),
            2 => Some(OtsType::W2),
            3 => Some(OtsType::W4),
            4 => Some(OtsType::W8),
            _ => None,
        }
    }

    /// The type's code.
    pub fn code(self) -> u32
        ensures { ots_type result ≡ Some (facts_of self) }
    {
        self as u32
    }

    // The type's row of the standard's table.
    #[inline]
    fn row(self) -> OtsRow
        ensures width { result.width ≡ (facts_of self).width }
        ensures chains { result.chains ≡ (facts_of self).chains }
        ensures shift { result.shift ≡ (facts_of self).shift }
    {
        let (width, chains, shift) = match self {
            OtsType::W1 => (1, 265, 7),
            OtsType::W2 => (2, 133, 6),
            OtsType::W4 => (4, 67, 4),
            OtsType::W8 => (8, 34, 0),
        };
        OtsRow {
            width,
            chains,
            shift,
        }
    }

    /// The bits of a digit: 1, 2, 4 or 8.
    pub fn width(self) -> usize
        ensures { result ≡ (facts_of self).width }
    {
        self.row().width
    }

    /// The greatest digit.
    pub fn last_digit(self) -> u8
        ensures { result ≡ 2 ^ (facts_of self).width - 1 }
    {
        u8::MAX >> (8 - self.width())
    }

    /// How many digits a digest has.
    pub fn digest_digits(self) -> u16
        ensures { result ≡ 256 / (facts_of self).width }
    {
        256 / self.width() as u16
    }

    /// The number of chains.
    pub fn chains(self) -> u16
        ensures { result ≡ (facts_of self).chains }
    {
        self.row().chains
    }

    /// By how many bits the checksum is shifted.
    pub fn shift(self) -> u32
        ensures { result ≡ (facts_of self).shift }
    {
        self.row().shift
    }
}

/// A type of LMS trees with SHA-256 and 32-byte nodes (RFC 8554 section 5.1), named by the tree's height. Its
/// number is its code.
#[derive(Clone, Copy, Debug, PartialEq, Eq)]
pub enum LmsType {
    H5 = 5,
    H10 = 6,
    H15 = 7,
    H20 = 8,
    H25 = 9,
}

impl LmsType {
    /// The type with this code.
    pub fn from_code(code: u32) -> Option<LmsType>
        ensures { option_map tree_height result ≡ height_of code }
    {
        match code {
            5 => Some(LmsType::H5),
            6 => Some(LmsType::H10),
            7 => Some(LmsType::H15),
            8 => Some(LmsType::H20),
            9 => Some(LmsType::H25),
            _ => None,
        }
    }

    /// The type's code.
    pub fn code(self) -> u32
        ensures { height_of result ≡ Some (tree_height self) }
    {
        self as u32
    }

    /// The tree's height: it has 2 to the height many leaves.
    pub fn height(self) -> u32
        ensures { result ≡ tree_height self }
    {
        match self {
            LmsType::H5 => 5,
            LmsType::H10 => 10,
            LmsType::H15 => 15,
            LmsType::H20 => 20,
            LmsType::H25 => 25,
        }
    }

    /// How many leaves the tree has.
    pub fn leaves(self) -> u32
        ensures { result ≡ 2 ^ tree_height self }
    {
        1 << self.height()
    }
}

/// The two types that an LMS public key names.
#[derive(Clone, Copy, Debug, PartialEq, Eq)]
pub(crate) struct KeyTypes {
    pub(crate) tree: LmsType,
    pub(crate) one_time: OtsType,
}

impl KeyTypes {
    /// The types of a key, or `None` exactly where one of them is unknown.
    pub(crate) fn read(key: &[u8]) -> Option<KeyTypes>
        requires { 8 ≤ length key.now }
        ensures { option_map types_of result ≡ tree_type key.now }
    {
        let tree = LmsType::from_code(u32_at(key, 0))?;
        let one_time = OtsType::from_code(u32_at(key, 4))?;
        Some(KeyTypes { tree, one_time })
    }

    /// The length of a one-time signature: its type, C and one value a chain.
    pub(crate) fn one_time_length(self) -> usize
        ensures { result ≡ ots_length (types_of self).ots }
    {
        36 + 32 * usize::from(self.one_time.chains())
    }

    /// The length of an LMS signature: q, a one-time signature, the tree's type and one value a level of
    /// the tree.
    pub(crate) fn signature_length(self) -> usize
        ensures { result ≡ lms_length (types_of self) }
    {
        8 + self.one_time_length() + 32 * self.tree.height() as usize
    }
}
