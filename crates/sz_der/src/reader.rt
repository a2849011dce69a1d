//! A reader of items one after another, as of those that an item holds.

ghost use Rattle.std.specs.Prelude.{◌≡◌, ◌↔◌, ℕ, List, [], length, IsTrue, IfOk, IfErr, OnErr, IsOkAnd};
ghost use Rattle.sz_der.specs.Items.{BeginsWith};
ghost use Rattle.sz_der.specs.Reader.{place_of, TakesItem, IsFrontFault};

use crate::{DerFault, Item, next};

/// Items that are still to be read. Their places are those in the input, of which the bytes that are left are
/// the part before `end`.
#[derive(Clone, Copy, Debug)]
pub struct DerReader<'a> {
    /// The bytes that are left.
    pub left: &'a [u8],
    /// The place where they end, which stays.
    pub end: usize,
}

impl<'a> DerReader<'a> {
    /// A reader of the bytes, with places from 0 on.
    pub fn over(bytes: &'a [u8]) -> Self
        ensures left { result.left.now ≡ bytes.entry.now }
        ensures end { result.end ≡ length bytes.entry.now }
    {
        DerReader {
            left: bytes,
            end: bytes.len(),
        }
    }

    /// A reader of what the item holds, with places in the bytes that the item was read from.
    pub fn inside(item: &Item<'a>) -> Self
        ensures left { result.left.now ≡ item.now.content.now }
        ensures end { result.end ≡ item.now.after }
    {
        DerReader {
            left: item.content,
            end: item.after,
        }
    }

    /// The place of the first byte that is left, and the end where none is.
    pub fn place(&self) -> usize
        ensures { result ≡ place_of self.now.end self.now.left.now }
    {
        self.end.saturating_sub(self.left.len())
    }

    /// No byte is left.
    pub fn is_at_end(&self) -> bool
        ensures { IsTrue result ↔ (self.now.left.now ≡ []) }
    {
        self.left.is_empty()
    }

    /// TakesItem the next item. Where none is left that is the fault `Short`, at the end. A fault leaves the
    /// reader as it was.
    pub fn take_item(&mut self) -> Result<Item<'a>, DerFault>
        ensures ok { IfOk result (λ item. TakesItem self.old.end self.old.left.now self.new.left.now
            item.tag item.content.now item.whole.now item.after) }
        ensures only { (tag : ℕ) (content whole rest : List ℕ) → BeginsWith self.old.left.now tag content whole rest
            → IsOkAnd result (λ item. (item.tag ≡ tag) × (item.content.now ≡ content) × (item.whole.now ≡ whole)) }
        ensures fault { IfErr result (IsFrontFault self.old.end self.old.left.now) }
        ensures err { OnErr result (self.new.left.now ≡ self.old.left.now) }
        ensures end { self.new.end ≡ self.old.end }
    {
        match next(self.left, 0) {
            Ok(item) => {
                self.left = &self.left[item.after..];
                Ok(Item {
                    tag: item.tag,
                    content: item.content,
                    whole: item.whole,
                    after: self.place(),
                })
            }
            Err(fault) => Err(DerFault {
                kind: fault.kind,
                place: self.place(),
            }),
        }
    }
}
