//! How far into a head its bytes have come, and where one more byte leads (RFC 9112 sections 2 to 5).

ghost use Rattle.std.specs.Prelude.{◌≡◌, ◌≢◌, ◌↔◌, ◌++◌, ◌∷◌, [], ℕ, List, IsTrue, drop};
ghost use Rattle.sz_http.specs.Left.{Blank, DigitsLeft, Due, Ends, Lines, MethodLeft, MinorLeft, NameLeft, ReasonLeft, StartLine, ValueLeft, version_name};
ghost use Rattle.sz_http.specs.HeadPlace.{Came, IsDueOr, IsWholeTarget, Leads, Left, Stands, TargetFrom, is_open, least_after_version, least_left};

use crate::Kind;
use httparse::{is_header_name_token, is_header_value_token, is_uri_token};
use std::str;

/// How many fields a head may have.
pub const MOST_FIELDS: usize = 64;

const VERSION_NAME: &[u8] = b"HTTP/1.";

/// A place in a head: what came before it decides what can follow.
#[derive(Clone, Copy)]
pub(crate) enum Place {
    /// Before the start line, at the beginning of a line.
    EmptyLines,
    /// After the CR of an empty line before the start line.
    EmptyLineEnd,
    /// In the method.
    Method,
    /// In the target, which began at this index.
    Target(usize),
    /// In the version, after so many bytes of it.
    Version(usize),
    /// After the version of a request line.
    RequestLineEnd,
    /// After the version of a status line.
    StatusSpace,
    /// In the status code, before so many of its digits, or right after it.
    Code(u8),
    /// In a reason phrase or a field's value, before room for so many fields.
    Value(usize),
    /// After the CR of a line, before room for so many fields.
    LineFeed(usize),
    /// At the beginning of a line, with room for so many fields.
    Line(usize),
    /// In a field's name, after which there is room for so many fields.
    Name(usize),
    /// After the CR of the empty line that ends the head.
    LastLineFeed,
    /// Behind the head.
    Whole,
    /// Where no head can come any more.
    Nowhere,
}

impl Place {
    /// Where a head of this kind begins.
    pub(crate) fn first(kind: Kind) -> Place
        ensures { Stands kind [] result }
    {
        match kind {
            Kind::Request | Kind::Reply => Place::EmptyLines,
            Kind::Trailer => Place::Line(MOST_FIELDS),
        }
    }

    /// Whether a byte can follow.
    pub(crate) fn is_open(self) -> bool
        ensures { result ≡ is_open self }
    {
        !matches!(self, Place::Whole | Place::Nowhere)
    }

    /// The fewest bytes that can make the head whole.
    pub(crate) fn least_left(self, kind: Kind) -> usize
        ensures { result ≡ least_left kind self }
    {
        match self {
            Place::EmptyLines => 14,
            Place::EmptyLineEnd => 15,
            Place::Method => 11 + least_after_version(kind),
            Place::Target(_) => 9 + least_after_version(kind),
            Place::Version(count) => 7usize.saturating_sub(count) + 1 + least_after_version(kind),
            Place::StatusSpace => 6,
            Place::Code(count) => usize::from(count) + 2,
            Place::Name(_) => 3,
            Place::RequestLineEnd | Place::Value(_) | Place::LineFeed(_) => 2,
            Place::Line(_) | Place::LastLineFeed => 1,
            Place::Whole | Place::Nowhere => 0,
        }
    }

    /// Where a byte leads, after these bytes of a head of this kind.
    pub(crate) fn after(self, kind: Kind, byte: u8, bytes: &[u8]) -> Place
        requires { IsTrue (is_open self) }
        ensures leads { Leads kind (bytes.now ++ byte ∷ []) (Left kind bytes.now self) byte result }
        ensures came { Came kind bytes.now self → Came kind (bytes.now ++ byte ∷ []) result }
    {
        match self {
            Place::EmptyLines => in_empty_lines(kind, byte),
            Place::EmptyLineEnd => at_due(byte, b'\n', Place::EmptyLines),
            Place::Method => in_method(byte, bytes),
            Place::Target(start) => in_target(start, byte, bytes),
            Place::Version(count) => in_version(kind, count, byte),
            Place::RequestLineEnd => at_line_end(MOST_FIELDS, byte),
            Place::StatusSpace => at_due(byte, b' ', Place::Code(3)),
            Place::Code(count) => in_code(count, byte),
            Place::Value(room) => in_value(room, byte),
            Place::LineFeed(room) => at_due(byte, b'\n', Place::Line(room)),
            Place::Line(room) => at_line(room, byte),
            Place::Name(room) => in_name(room, byte),
            Place::LastLineFeed => at_due(byte, b'\n', Place::Whole),
            Place::Whole | Place::Nowhere => Place::Nowhere,
        }
    }
}

// The fewest bytes that can follow the version.
fn least_after_version(kind: Kind) -> usize
    ensures { result ≡ least_after_version kind }
{
    match kind {
        Kind::Reply => 6,
        Kind::Request | Kind::Trailer => 2,
    }
}

// Where a byte leads that has to be this one.
fn at_due(byte: u8, due: u8, next: Place) -> Place
    ensures leads { (kind : Kind) (bytes : List ℕ)
        → Leads kind bytes (Due (due ∷ []) (Left kind bytes next)) byte result }
    ensures either { IsDueOr byte due next result }
{
    if byte == due { next } else { Place::Nowhere }
}

// Where a byte leads before the start line.
fn in_empty_lines(kind: Kind, byte: u8) -> Place
    ensures leads { (bytes : List ℕ) → Leads kind bytes (Blank (StartLine kind)) byte result }
    ensures came { (bytes : List ℕ) → Came kind bytes Place.EmptyLines → Came kind (bytes ++ byte ∷ []) result }
{
    if byte == b'\r' {
        return Place::EmptyLineEnd;
    }
    if byte == b'\n' {
        return Place::EmptyLines;
    }
    match kind {
        Kind::Reply => in_version(kind, 0, byte),
        Kind::Request | Kind::Trailer => at_method(byte),
    }
}

// Where the first byte of a method leads.
fn at_method(byte: u8) -> Place
    ensures leads { (kind : Kind) (bytes : List ℕ) → kind ≢ Kind.Reply → Leads kind bytes (StartLine kind) byte result }
    ensures came { (kind : Kind) (bytes : List ℕ) → kind ≢ Kind.Reply → Came kind bytes Place.EmptyLines
        → Came kind (bytes ++ byte ∷ []) result }
{
    if is_header_name_token(byte) {
        return Place::Method;
    }
    Place::Nowhere
}

// Where a byte leads in a method.
fn in_method(byte: u8, bytes: &[u8]) -> Place
    ensures leads { (kind : Kind) → Leads kind (bytes.now ++ byte ∷ []) (MethodLeft kind) byte result }
    ensures came { (kind : Kind) → Came kind bytes.now Place.Method → Came kind (bytes.now ++ byte ∷ []) result }
{
    if is_header_name_token(byte) {
        return Place::Method;
    }
    if byte == b' ' {
        return Place::Target(bytes.len() + 1);
    }
    Place::Nowhere
}

// Where a byte leads in a target that began at this index. At its end the target has to be a text.
fn in_target(start: usize, byte: u8, bytes: &[u8]) -> Place
    ensures leads { (kind : Kind) → Leads kind (bytes.now ++ byte ∷ []) (TargetFrom kind start bytes.now) byte result }
    ensures came { (kind : Kind) → Came kind bytes.now (Place.Target start)
        → Came kind (bytes.now ++ byte ∷ []) result }
{
    if start > bytes.len() {
        return Place::Nowhere;
    }
    if is_uri_token(byte) {
        return Place::Target(start);
    }
    if byte == b' ' && is_whole_target(&bytes[start..]) {
        return Place::Version(0);
    }
    Place::Nowhere
}

// Whether the bytes can be a target.
fn is_whole_target(bytes: &[u8]) -> bool
    ensures { IsTrue result ↔ IsWholeTarget bytes.now }
{
    !bytes.is_empty() && str::from_utf8(bytes).is_ok()
}

// Where a byte leads in the version, after so many bytes of it.
fn in_version(kind: Kind, count: usize, byte: u8) -> Place
    ensures leads { (bytes : List ℕ) → Leads kind bytes (Due (drop count version_name) (MinorLeft kind)) byte result }
    ensures came { (bytes : List ℕ) → Came kind bytes result }
{
    if count < VERSION_NAME.len() {
        return at_due(byte, VERSION_NAME[count], Place::Version(count + 1));
    }
    at_minor(kind, byte)
}

// Where the last byte of a version leads.
fn at_minor(kind: Kind, byte: u8) -> Place
    ensures leads { (bytes : List ℕ) → Leads kind bytes (MinorLeft kind) byte result }
    ensures came { (bytes : List ℕ) → Came kind bytes result }
{
    if byte != b'0' && byte != b'1' {
        return Place::Nowhere;
    }
    match kind {
        Kind::Reply => Place::StatusSpace,
        Kind::Request | Kind::Trailer => Place::RequestLineEnd,
    }
}

// Where a byte leads in the status code, before so many digits, or after it.
fn in_code(count: u8, byte: u8) -> Place
    ensures leads { (kind : Kind) (bytes : List ℕ) → Leads kind bytes (DigitsLeft count) byte result }
    ensures came { (kind : Kind) (bytes : List ℕ) → Came kind bytes result }
{
    if count == 0 {
        return after_code(byte);
    }
    if byte.is_ascii_digit() {
        return Place::Code(count - 1);
    }
    Place::Nowhere
}

// Where a byte leads right after the status code.
fn after_code(byte: u8) -> Place
    ensures leads { (kind : Kind) (bytes : List ℕ) → Leads kind bytes ReasonLeft byte result }
    ensures came { (kind : Kind) (bytes : List ℕ) → Came kind bytes result }
{
    if byte == b' ' {
        return Place::Value(MOST_FIELDS);
    }
    at_line_end(MOST_FIELDS, byte)
}

// Where a byte leads in a value.
fn in_value(room: usize, byte: u8) -> Place
    ensures leads { (kind : Kind) (bytes : List ℕ) → Leads kind bytes (ValueLeft (Lines room)) byte result }
    ensures came { (kind : Kind) (bytes : List ℕ) → Came kind bytes result }
{
    if is_header_value_token(byte) {
        return Place::Value(room);
    }
    at_line_end(room, byte)
}

// Where a byte leads that has to end a line.
fn at_line_end(room: usize, byte: u8) -> Place
    ensures leads { (kind : Kind) (bytes : List ℕ) → Leads kind bytes (Ends (Lines room)) byte result }
    ensures came { (kind : Kind) (bytes : List ℕ) → Came kind bytes result }
{
    match byte {
        b'\r' => Place::LineFeed(room),
        b'\n' => Place::Line(room),
        _ => Place::Nowhere,
    }
}

// Where the first byte of a field line, or of the empty line, leads.
fn at_line(room: usize, byte: u8) -> Place
    ensures leads { (kind : Kind) (bytes : List ℕ) → Leads kind bytes (Lines room) byte result }
    ensures came { (kind : Kind) (bytes : List ℕ) → Came kind bytes result }
{
    if byte == b'\r' {
        return Place::LastLineFeed;
    }
    if byte == b'\n' {
        return Place::Whole;
    }
    if room > 0 && is_header_name_token(byte) {
        return Place::Name(room - 1);
    }
    Place::Nowhere
}

// Where a byte leads in a field's name.
fn in_name(room: usize, byte: u8) -> Place
    ensures leads { (kind : Kind) (bytes : List ℕ) → Leads kind bytes (NameLeft room) byte result }
    ensures came { (kind : Kind) (bytes : List ℕ) → Came kind bytes result }
{
    if is_header_name_token(byte) {
        return Place::Name(room);
    }
    if byte == b':' {
        return Place::Value(room);
    }
    Place::Nowhere
}
