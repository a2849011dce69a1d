//! How far into a chunked body its bytes have come, and where one more byte leads (RFC 9112 section 7.1).

ghost use Rattle.std.specs.Prelude.{◌≡◌, ◌≢◌, false, IsTrue, IfOk};
ghost use Rattle.std.specs.Char.{is_ascii_hexdigit};
ghost use Rattle.sz_http.specs.ChunkPlace.{Leads, Refuses, is_at_line, is_framing};

use crate::ChunkFault;
use crate::chunk_size::Size;
use httparse::parse_hex_digit;

/// How many bytes the line before a chunk may have, without the CR LF that ends it.
pub const MOST_LINE_BYTES: u16 = 256;

/// A place in a chunked body.
#[derive(Clone, Copy)]
pub(crate) enum Place {
    /// In the digits of a size.
    InSize(Size),
    /// In the extension of a line with this size, after so many bytes of the line.
    InExtension(u64, u16),
    /// After the CR of a line with this size.
    LineFeed(u64),
    /// In a chunk, before so many bytes of it, of which there is one.
    InData(u64),
    /// After a chunk's bytes.
    DataEnd,
    /// After the CR behind a chunk's bytes.
    DataLineFeed,
    /// After a chunk.
    Between,
    /// In the trailer.
    InTrailer,
    /// Behind the body.
    Whole,
}

impl Place {
    /// Where a byte leads at a place in a line or behind a chunk's bytes.
    pub(crate) fn after(self, byte: u8) -> Result<Place, ChunkFault>
        requires { IsTrue (is_at_line self) }
        ensures leads { Leads self byte result }
        ensures refuses { Refuses self byte result }
        ensures inside { IfOk result (λ next. next ≢ Place.Whole) }
    {
        match self {
            Place::InSize(size) => in_size(size, byte),
            Place::InExtension(size, length) => in_extension(size, length, byte),
            Place::LineFeed(size) => after_line(size, byte),
            Place::DataEnd => after_data(byte),
            Place::DataLineFeed => after_data_cr(byte),
            Place::InData(_) | Place::Between | Place::InTrailer | Place::Whole => {
                Err(ChunkFault::BadChunk)
            }
        }
    }

    /// Whether the next byte is none of the content: it is one of a line, of a chunk's end or of the trailer.
    pub(crate) fn is_framing(self) -> bool
        ensures { result ≡ is_framing self }
    {
        match self {
            Place::InSize(_) | Place::InExtension(..) | Place::LineFeed(_) => true,
            Place::DataEnd | Place::DataLineFeed | Place::InTrailer => true,
            Place::InData(_) | Place::Between | Place::Whole => false,
        }
    }
}

// Where a byte leads in the digits of a size.
fn in_size(size: Size, byte: u8) -> Result<Place, ChunkFault>
    ensures leads { Leads (Place.InSize size) byte result }
    ensures refuses { Refuses (Place.InSize size) byte result }
    ensures inside { IfOk result (λ next. next ≢ Place.Whole) }
{
    if let Some(digit) = parse_hex_digit(byte) {
        return match size.with(digit) {
            Some(more) => Ok(Place::InSize(more)),
            None => Err(ChunkFault::BadChunk),
        };
    }
    after_size(size, byte)
}

// Where a byte leads that is no digit of the size.
fn after_size(size: Size, byte: u8) -> Result<Place, ChunkFault>
    ensures leads { is_ascii_hexdigit byte ≡ false → Leads (Place.InSize size) byte result }
    ensures refuses { is_ascii_hexdigit byte ≡ false → Refuses (Place.InSize size) byte result }
    ensures inside { IfOk result (λ next. next ≢ Place.Whole) }
{
    if size.count == 0 {
        return Err(ChunkFault::BadChunk);
    }
    if byte == b';' {
        return Ok(Place::InExtension(size.value, size.count + 1));
    }
    if byte == b'\r' {
        return Ok(Place::LineFeed(size.value));
    }
    Err(ChunkFault::BadChunk)
}

// Where a byte leads in an extension.
fn in_extension(size: u64, length: u16, byte: u8) -> Result<Place, ChunkFault>
    ensures leads { Leads (Place.InExtension size length) byte result }
    ensures refuses { Refuses (Place.InExtension size length) byte result }
    ensures inside { IfOk result (λ next. next ≢ Place.Whole) }
{
    if byte == b'\r' {
        return Ok(Place::LineFeed(size));
    }
    if byte == b'\n' {
        return Err(ChunkFault::BadChunk);
    }
    if length == MOST_LINE_BYTES {
        return Err(ChunkFault::TooLarge {
            limit: u64::from(MOST_LINE_BYTES),
        });
    }
    Ok(Place::InExtension(size, length.saturating_add(1)))
}

// Where a byte leads after the CR of a line.
fn after_line(size: u64, byte: u8) -> Result<Place, ChunkFault>
    ensures leads { Leads (Place.LineFeed size) byte result }
    ensures refuses { Refuses (Place.LineFeed size) byte result }
    ensures inside { IfOk result (λ next. next ≢ Place.Whole) }
{
    if byte != b'\n' {
        return Err(ChunkFault::BadChunk);
    }
    if size == 0 {
        return Ok(Place::InTrailer);
    }
    Ok(Place::InData(size))
}

// Where a byte leads behind the bytes of a chunk.
fn after_data(byte: u8) -> Result<Place, ChunkFault>
    ensures leads { Leads Place.DataEnd byte result }
    ensures refuses { Refuses Place.DataEnd byte result }
    ensures inside { IfOk result (λ next. next ≢ Place.Whole) }
{
    if byte != b'\r' {
        return Err(ChunkFault::BadChunk);
    }
    Ok(Place::DataLineFeed)
}

// Where a byte leads after the CR behind the bytes of a chunk.
fn after_data_cr(byte: u8) -> Result<Place, ChunkFault>
    ensures leads { Leads Place.DataLineFeed byte result }
    ensures refuses { Refuses Place.DataLineFeed byte result }
    ensures inside { IfOk result (λ next. next ≢ Place.Whole) }
{
    if byte != b'\n' {
        return Err(ChunkFault::BadChunk);
    }
    Ok(Place::Between)
}
