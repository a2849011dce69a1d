//! Parts of bytes that are found at their front.

ghost use Rattle.std.specs.Prelude.{◌≡◌, ◌++◌, length, IfSome, IfNone};
ghost use Rattle.sz_dhcp.specs.Spelled.{IsUnfinished, two_bytes};
ghost use Rattle.sz_dhcp.specs.UriList.{IsEntry};

/// An option at the front of bytes, and the bytes after it.
#[derive(Clone, Copy)]
pub(crate) struct Found<'a> {
    pub code: u16,
    pub value: &'a [u8],
    pub rest: &'a [u8],
}

/// Bytes after their length in two bytes, and what follows them.
#[derive(Clone, Copy)]
pub(crate) struct Entry<'a> {
    pub value: &'a [u8],
    pub rest: &'a [u8],
}

/// The bytes after their length at the front, or `None` where they end before that length does.
pub(crate) fn entry_of(bytes: &[u8]) -> Option<Entry<'_>>
    ensures some { IfSome result (λ found.
        bytes.now ≡ (two_bytes (length found.value.now) ++ found.value.now) ++ found.rest.now) }
    ensures none { IfNone result (IsUnfinished IsEntry bytes.now) }
{
    let (high, after) = bytes.split_first()?;
    let (low, after) = after.split_first()?;
    let size = usize::from(*high) * 256 + usize::from(*low);
    let (value, rest) = after.split_at_checked(size)?;
    Some(Entry { value, rest })
}
