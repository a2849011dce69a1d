//! The parts of a whole head, as `httparse` reads them.

ghost use Rattle.std.specs.Prelude.{◌≡◌, ◌≤◌, length, slice_get, Some, IfSome, IfNone};
ghost use Rattle.httparse.specs.Spans.{IsSectionWithin};

use crate::MOST_FIELDS;
use httparse::spans::HeaderSpan;

/// A head by its parts, which are slices of its bytes. Contracts see it by `parts_of`.
#[derive(Clone, Copy)]
pub struct Head<'a> {
    /// The method of a request; of a reply and of a trailer nothing.
    pub method: &'a [u8],
    /// The target of a request as it stands there; of a reply and of a trailer nothing.
    pub target: &'a [u8],
    /// The status of a reply; of a request and of a trailer 0.
    pub status: u16,
    /// The minor version, 0 or 1; of a trailer 0.
    pub minor: u8,
    /// The fields.
    pub fields: Fields<'a>,
}

/// The fields of a head in their order, each a name and a value without the white space around it. Contracts see
/// them by `fields_of`.
#[derive(Clone, Copy)]
pub struct Fields<'a> {
    pub(crate) bytes: &'a [u8],
    pub(crate) spans: [HeaderSpan; MOST_FIELDS],
    pub(crate) count: usize,
    ghost within: { IsSectionWithin bytes.now spans (length bytes.now) count },
}

impl<'a> Fields<'a> {
    ghost use Rattle.sz_http.specs.Parts.{fields_of};

    /// How many fields there are.
    pub fn len(&self) -> usize
        ensures { result ≡ length (fields_of self.now) }
    {
        self.count
    }

    /// The name and the value of the field at this index, counted from 0.
    pub fn get(&self, index: usize) -> Option<(&'a [u8], &'a [u8])>
        ensures some { IfSome result (λ field. slice_get (fields_of self.now) index ≡ Some (field.0.now, field.1.now)) }
        ensures none { IfNone result (length (fields_of self.now) ≤ index) }
    {
        if index >= self.count {
            return None;
        }
        let span = self.spans[index];
        Some((span.name.of(self.bytes), span.value.of(self.bytes)))
    }
}
