//! Items of X.690 by hand: lengths and faults at their ends, each type's contents, dates, and a walk.

use crate::spelling::nested;
use std::alloc::Global;
use std::test::Fail;
use sz_der::{
    DerFault, DerKind, DerReader, DerWriter, Item, bit_string, boolean, content_of, integer,
    integer_u32, named_bits, next, octet_string, oid, tag, time,
};

// An item as a caller builds it by hand, with the tag at place 3.
fn item(tag: u8, content: &[u8]) -> Item<'_> {
    Item {
        tag,
        content,
        whole: content,
        after: content.len() + 3,
    }
}

const AT_TAG: DerFault = DerFault {
    kind: DerKind::Content,
    place: 3,
};

// Bytes, a place in them, and what is wrong with the item there.
static FAULTS: [(&[u8], usize, DerKind); 31] = [
    (b"", 0, DerKind::Short),
    (b"\x1F", 0, DerKind::HighTag),
    (b"\x1F\x01\x00", 0, DerKind::HighTag),
    (b"\x3F\x00", 0, DerKind::HighTag),
    (b"\x5F\x00", 0, DerKind::HighTag),
    (b"\x7F\x80", 0, DerKind::HighTag),
    (b"\x9F\x00", 0, DerKind::HighTag),
    (b"\xBF\x00", 0, DerKind::HighTag),
    (b"\xDF\x00", 0, DerKind::HighTag),
    (b"\xFF\xFF", 0, DerKind::HighTag),
    (b"\x04", 0, DerKind::Short),
    (b"\x04\x80", 0, DerKind::Indefinite),
    (b"\x04\x80\x00\x00", 0, DerKind::Indefinite),
    (b"\x04\xFF", 0, DerKind::LongForm),
    (b"\x04\x81", 0, DerKind::Short),
    (b"\x04\x82\x01", 0, DerKind::Short),
    (b"\x04\xFE\x01", 0, DerKind::Short),
    (b"\x04\x81\x7F", 0, DerKind::LongForm),
    (b"\x04\x81\x00", 0, DerKind::LongForm),
    (b"\x04\x82\x00\xFF", 0, DerKind::LongForm),
    (b"\x04\x83\x00\xFF\xFF", 0, DerKind::LongForm),
    (b"\x04\x84\x00\xFF\xFF\xFF", 0, DerKind::LongForm),
    (b"\x04\x85\x00\x01\x00\x00\x00", 0, DerKind::LongForm),
    (b"\x04\x85\x01\x00\x00\x00\x00", 0, DerKind::Short),
    (b"\x04\x83\xFF\xFF\xFF", 0, DerKind::Short),
    (b"\x04\x84\x01\x00\x00\x00", 0, DerKind::Short),
    (b"\x04\x84\xFF\xFF\xFF\xFF", 0, DerKind::Short),
    (b"\x04\x81\x80", 0, DerKind::Short),
    (b"\x04\x05\x01", 0, DerKind::Short),
    (b"\x05\x00\x30\x80", 2, DerKind::Indefinite),
    (b"\x05\x00", 9, DerKind::Short),
];

#[test]
fn each_fault_at_its_place(rt: HostRuntime) {
    for &(bytes, place, kind) in &FAULTS {
        assert!(rt; next(bytes, place).err() == Some(DerFault { kind, place }));
    }
}

// The length of a content, and the tag and length octets that stand before it.
static LENGTHS: [(usize, &[u8]); 7] = [
    (0, b"\x04\x00"),
    (127, b"\x04\x7F"),
    (128, b"\x04\x81\x80"),
    (255, b"\x04\x81\xFF"),
    (256, b"\x04\x82\x01\x00"),
    (65_535, b"\x04\x82\xFF\xFF"),
    (65_536, b"\x04\x83\x01\x00\x00"),
];

// An OCTET STRING of this length is written with this header, and read as it was written.
fn is_headed(alloc: Global, length: usize, header: &[u8]) -> Result<bool, Fail> {
    let content = vec![in alloc; 0xA5u8; length]?;
    let mut writer = DerWriter::create(alloc)?;
    writer.item(tag::OCTET_STRING, content.as_slice())?;
    let written = writer.finish();
    let read = next(written.as_slice(), 0)?;
    Ok(
        written.as_slice().starts_with(header)
            && read.content == content.as_slice()
            && read.whole == written.as_slice(),
    )
}

#[test]
fn lengths_at_their_ends(rt: HostRuntime) -> Result<(), Fail> {
    for &(length, header) in &LENGTHS {
        assert!(rt; is_headed(rt.alloc(), length, header)?);
    }
    Ok(())
}

// INTEGERs by value, with their minimal octets.
static NUMBERS: [(u32, &[u8]); 9] = [
    (0, b"\x00"),
    (127, b"\x7F"),
    (128, b"\x00\x80"),
    (32_767, b"\x7F\xFF"),
    (32_768, b"\x00\x80\x00"),
    (8_388_608, b"\x00\x80\x00\x00"),
    (2_147_483_647, b"\x7F\xFF\xFF\xFF"),
    (2_147_483_648, b"\x00\x80\x00\x00\x00"),
    (4_294_967_295, b"\x00\xFF\xFF\xFF\xFF"),
];

// The number is written in these octets, and read from them.
fn is_in(alloc: Global, number: u32, octets: &[u8]) -> Result<bool, Fail> {
    let mut writer = DerWriter::create(alloc)?;
    writer.integer(number)?;
    let written = next(writer.as_slice(), 0)?;
    Ok(integer(&written) == Ok(octets) && integer_u32(&written) == Ok(Some(number)))
}

#[test]
fn numbers_and_their_octets(rt: HostRuntime) -> Result<(), Fail> {
    for &(number, octets) in &NUMBERS {
        assert!(rt; is_in(rt.alloc(), number, octets)?);
    }
    Ok(())
}

// A SEQUENCE at place 2 that holds a BOOLEAN, an INTEGER and an item that passes its end, and another item.
const HELD: &[u8] = b"\x05\x00\x30\x08\x01\x01\xFF\x02\x01\x2A\x04\x01\x00\x00";

#[test]
fn a_walk_within_an_item(rt: HostRuntime) -> Result<(), Fail> {
    let holder = next(HELD, 2)?;
    assert!(rt; content_of(&holder, tag::SEQUENCE).ok() == HELD.get(4..12));
    let mut reader = DerReader::inside(&holder);
    let truth = reader.take_item()?;
    assert!(rt; (truth.tag, truth.after, reader.place()) == (tag::BOOLEAN, 7, 7));
    let number = reader.take_item()?;
    assert!(rt; integer_u32(&number) == Ok(Some(42)));
    assert!(rt; (number.place(), number.after) == (7, 10));
    let passes_the_end = DerFault {
        kind: DerKind::Short,
        place: 10,
    };
    assert!(rt; reader.take_item().err() == Some(passes_the_end));
    Ok(())
}

#[test]
fn a_walk_over_all_items(rt: HostRuntime) -> Result<(), Fail> {
    let mut reader = DerReader::over(HELD);
    for end in [2, 12, 14] {
        assert!(rt; reader.take_item()?.after == end);
    }
    assert!(rt; reader.is_at_end());
    Ok(())
}

#[test]
fn depth_costs_nothing(rt: HostRuntime) -> Result<(), Fail> {
    let deep = nested(rt.alloc(), 1_000)?;
    assert!(rt; next(deep.as_slice(), 0)?.after == deep.len());
    Ok(())
}

// What is read of an item by the reader of a type.
#[derive(Clone, Copy)]
enum Reading {
    Integer(Result<&'static [u8], DerFault>),
    Number(Result<Option<u32>, DerFault>),
    Boolean(Result<bool, DerFault>),
    BitString(Result<&'static [u8], DerFault>),
    // Bit k of the standard has the value 2^k.
    NamedBits(Result<u16, DerFault>),
    Identifier(Result<&'static [u8], DerFault>),
    Octets(Result<&'static [u8], DerFault>),
    Time(Result<i64, DerFault>),
}

// A tag and a content, and what is read of their item.
static CONTENTS: [(u8, &[u8], Reading); 38] = [
    (tag::INTEGER, b"\x00", Reading::Integer(Ok(b"\x00"))),
    (tag::INTEGER, b"\x80", Reading::Integer(Ok(b"\x80"))),
    (tag::INTEGER, b"\x00\x80", Reading::Integer(Ok(b"\x00\x80"))),
    (tag::INTEGER, b"\xFF\x7F", Reading::Integer(Ok(b"\xFF\x7F"))),
    (tag::INTEGER, b"\x01\x00", Reading::Integer(Ok(b"\x01\x00"))),
    (tag::INTEGER, b"", Reading::Integer(Err(AT_TAG))),
    (tag::INTEGER, b"\x00\x7F", Reading::Integer(Err(AT_TAG))),
    (tag::INTEGER, b"\xFF\x80", Reading::Integer(Err(AT_TAG))),
    (
        tag::INTEGER,
        b"\x01\x00\x00\x00\x00",
        Reading::Number(Ok(None)),
    ),
    (tag::INTEGER, b"\xFF", Reading::Number(Ok(None))),
    (tag::INTEGER, b"\x00\x7F", Reading::Number(Err(AT_TAG))),
    (tag::BOOLEAN, b"\x00", Reading::Boolean(Ok(false))),
    (tag::BOOLEAN, b"\xFF", Reading::Boolean(Ok(true))),
    (tag::BOOLEAN, b"\x01", Reading::Boolean(Err(AT_TAG))),
    (tag::BOOLEAN, b"", Reading::Boolean(Err(AT_TAG))),
    (tag::BOOLEAN, b"\xFF\xFF", Reading::Boolean(Err(AT_TAG))),
    (tag::BIT_STRING, b"\x00", Reading::BitString(Ok(b""))),
    (
        tag::BIT_STRING,
        b"\x00\xA5",
        Reading::BitString(Ok(b"\xA5")),
    ),
    (
        tag::BIT_STRING,
        b"\x01\x80",
        Reading::BitString(Err(AT_TAG)),
    ),
    (tag::BIT_STRING, b"", Reading::BitString(Err(AT_TAG))),
    (tag::BIT_STRING, b"\x00", Reading::NamedBits(Ok(0))),
    (tag::BIT_STRING, b"\x07\x80", Reading::NamedBits(Ok(1))),
    (tag::BIT_STRING, b"\x05\xA0", Reading::NamedBits(Ok(0b101))),
    (
        tag::BIT_STRING,
        b"\x01\x06",
        Reading::NamedBits(Ok(0b110_0000)),
    ),
    (
        tag::BIT_STRING,
        b"\x07\x00\x80",
        Reading::NamedBits(Ok(0x100)),
    ),
    (
        tag::BIT_STRING,
        b"\x00\x80\x01\xFF",
        Reading::NamedBits(Ok(0x8001)),
    ),
    (tag::BIT_STRING, b"\x01", Reading::NamedBits(Err(AT_TAG))),
    (
        tag::BIT_STRING,
        b"\x08\x00",
        Reading::NamedBits(Err(AT_TAG)),
    ),
    (
        tag::BIT_STRING,
        b"\x05\xB0",
        Reading::NamedBits(Err(AT_TAG)),
    ),
    (
        tag::OBJECT_IDENTIFIER,
        b"\x2A\x86\x48",
        Reading::Identifier(Ok(b"\x2A\x86\x48")),
    ),
    (
        tag::OCTET_STRING,
        b"\x2A\x86\x48",
        Reading::Octets(Ok(b"\x2A\x86\x48")),
    ),
    (tag::NULL, b"\x00", Reading::Integer(Err(AT_TAG))),
    (tag::NULL, b"\x00", Reading::Identifier(Err(AT_TAG))),
    (tag::NULL, b"\x00", Reading::BitString(Err(AT_TAG))),
    (tag::NULL, b"\x00", Reading::NamedBits(Err(AT_TAG))),
    (tag::NULL, b"\x00", Reading::Octets(Err(AT_TAG))),
    (tag::NULL, b"\x00", Reading::Boolean(Err(AT_TAG))),
    (tag::NULL, b"\x00", Reading::Time(Err(AT_TAG))),
];

// This is read of the item.
fn is_read(item: &Item<'_>, reading: &Reading) -> bool {
    match reading {
        Reading::Integer(octets) => integer(item) == *octets,
        Reading::Number(number) => integer_u32(item) == *number,
        Reading::Boolean(value) => boolean(item) == *value,
        Reading::BitString(octets) => bit_string(item) == *octets,
        Reading::NamedBits(bits) => named_bits(item) == *bits,
        Reading::Identifier(octets) => oid(item) == *octets,
        Reading::Octets(octets) => octet_string(item) == *octets,
        Reading::Time(seconds) => time(item) == *seconds,
    }
}

#[test]
fn contents_of_each_type(rt: HostRuntime) {
    for (tag, content, reading) in &CONTENTS {
        assert!(rt; is_read(&item(*tag, content), reading));
    }
}

// A tag and a text, and the second that they name, where they name one.
static TIMES: [(u8, &str, Option<i64>); 43] = [
    (tag::UTC_TIME, "491231235959Z", Some(2_524_607_999)),
    (tag::UTC_TIME, "500101000000Z", Some(-631_152_000)),
    (tag::UTC_TIME, "691231235959Z", Some(-1)),
    (tag::UTC_TIME, "700101000000Z", Some(0)),
    (tag::UTC_TIME, "000229000000Z", Some(951_782_400)),
    (tag::UTC_TIME, "230131235959Z", Some(1_675_209_599)),
    (tag::UTC_TIME, "230228235959Z", Some(1_677_628_799)),
    (tag::UTC_TIME, "230331123456Z", Some(1_680_266_096)),
    (tag::UTC_TIME, "230430123456Z", Some(1_682_858_096)),
    (tag::UTC_TIME, "230531123456Z", Some(1_685_536_496)),
    (tag::UTC_TIME, "230630123456Z", Some(1_688_128_496)),
    (tag::UTC_TIME, "230731123456Z", Some(1_690_806_896)),
    (tag::UTC_TIME, "230831123456Z", Some(1_693_485_296)),
    (tag::UTC_TIME, "230930123456Z", Some(1_696_077_296)),
    (tag::UTC_TIME, "231031123456Z", Some(1_698_755_696)),
    (tag::UTC_TIME, "231130123456Z", Some(1_701_347_696)),
    (tag::UTC_TIME, "231231235959Z", Some(1_704_067_199)),
    (tag::UTC_TIME, "230229000000Z", None),
    (tag::UTC_TIME, "230431000000Z", None),
    (tag::UTC_TIME, "230001000000Z", None),
    (tag::UTC_TIME, "231301000000Z", None),
    (tag::UTC_TIME, "230100000000Z", None),
    (tag::UTC_TIME, "230132000000Z", None),
    (tag::UTC_TIME, "230101240000Z", None),
    (tag::UTC_TIME, "230101006000Z", None),
    (tag::UTC_TIME, "161231235960Z", None),
    (tag::UTC_TIME, "2301010000Z", None),
    (tag::UTC_TIME, "230101000000z", None),
    (tag::UTC_TIME, "230101000000ZZ", None),
    (tag::UTC_TIME, "230101000000+0000", None),
    (tag::UTC_TIME, "2301010000 0Z", None),
    (tag::UTC_TIME, "19500101000000Z", None),
    (
        tag::GENERALIZED_TIME,
        "19000228235959Z",
        Some(-2_203_891_201),
    ),
    (tag::GENERALIZED_TIME, "19000229000000Z", None),
    (tag::GENERALIZED_TIME, "19500101000000Z", Some(-631_152_000)),
    (tag::GENERALIZED_TIME, "20000229000000Z", Some(951_782_400)),
    (tag::GENERALIZED_TIME, "20230229000000Z", None),
    (
        tag::GENERALIZED_TIME,
        "20240229000000Z",
        Some(1_709_164_800),
    ),
    (tag::GENERALIZED_TIME, "20161231235960Z", None),
    (
        tag::GENERALIZED_TIME,
        "99991231235959Z",
        Some(253_402_300_799),
    ),
    (
        tag::GENERALIZED_TIME,
        "00000101000000Z",
        Some(-62_167_219_200),
    ),
    (tag::GENERALIZED_TIME, "20240101000000.5Z", None),
    (tag::GENERALIZED_TIME, "491231235959Z", None),
];

#[test]
fn times_in_both_forms(rt: HostRuntime) {
    for &(tag, text, seconds) in &TIMES {
        assert!(rt; time(&item(tag, text.as_bytes())) == seconds.ok_or(AT_TAG));
    }
}
