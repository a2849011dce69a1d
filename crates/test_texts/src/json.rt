//! JSON: members by their form, whole texts, instants, and an object as it is written.

use std::alloc::Global;
use std::test::Fail;
use sz_base::{Bytes, OutOfMemory, Seconds};
use sz_json::{
    JsonFault, Name, Object, Value, binary, date_time, flag, list, member, number, object, port,
    read, read_bounded, required_binary, required_object, required_string, required_text,
    required_time, single, string, text, time, write,
};

const MEMBERS: &[u8] =
    br#"{"serial":"A1","nonce":"Zm8=","ca":true,"port":443,"created-on":"2016-10-07T19:31:42.9Z",
"voucher":"x","voucher":{},"anchors":["a"],"issuer":null,"id":65536,"key":1.0,"path-length":4294967296}"#;

const NAMES: &[Name] = &[
    Name::Serial,
    Name::Nonce,
    Name::Ca,
    Name::Port,
    Name::CreatedOn,
    Name::PlanVoucher,
    Name::Anchors,
    Name::Issuer,
    Name::Id,
    Name::Key,
    Name::PathLength,
    Name::Owner,
];

/// The readers of a member.
#[derive(Clone, Copy)]
enum Reader {
    Member,
    String,
    Text,
    Binary,
    Flag,
    Number,
    Port,
    Time,
    Object,
    List,
    RequiredString,
    RequiredText,
    RequiredBinary,
    RequiredTime,
    RequiredObject,
}

// what each reader says of each of `NAMES`: `+` it is there in its form, `0` it is not there, `-` it is at fault
const READERS: &[(Reader, &[u8; 12])] = &[
    (Reader::Member, b"+++++++++++0"),
    (Reader::String, b"++--+------0"),
    (Reader::Text, b"++--+------0"),
    (Reader::Binary, b"-+---------0"),
    (Reader::Flag, b"--+--------0"),
    (Reader::Number, b"---+----+--0"),
    (Reader::Port, b"---+-------0"),
    (Reader::Time, b"----+------0"),
    (Reader::Object, b"-----+-----0"),
    (Reader::List, b"------+----0"),
    (Reader::RequiredString, b"++--+-------"),
    (Reader::RequiredText, b"++--+-------"),
    (Reader::RequiredBinary, b"-+----------"),
    (Reader::RequiredTime, b"----+-------"),
    (Reader::RequiredObject, b"-----+------"),
];

fn said<T: Drop>(answer: Result<Option<T>, JsonFault>, name: Name) -> u8 {
    match answer {
        Ok(Some(_)) => b'+',
        Ok(None) => b'0',
        Err(fault) if fault == JsonFault::Member { name } => b'-',
        Err(_) => b'?',
    }
}

fn said_by(alloc: Global, reader: Reader, value: &Value, name: Name) -> u8 {
    match reader {
        Reader::Member => said(member(value, name), name),
        Reader::String => said(string(value, name), name),
        Reader::Text => said(text(alloc, value, name), name),
        Reader::Binary => said(binary(alloc, value, name), name),
        Reader::Flag => said(flag(value, name), name),
        Reader::Number => said(number(value, name), name),
        Reader::Port => said(port(value, name), name),
        Reader::Time => said(time(value, name), name),
        Reader::Object => said(object(value, name), name),
        Reader::List => said(list(value, name), name),
        Reader::RequiredString => said(required_string(value, name).map(Some), name),
        Reader::RequiredText => said(required_text(alloc, value, name).map(Some), name),
        Reader::RequiredBinary => said(required_binary(alloc, value, name).map(Some), name),
        Reader::RequiredTime => said(required_time(value, name).map(Some), name),
        Reader::RequiredObject => said(required_object(value, name).map(Some), name),
    }
}

fn says(alloc: Global, reader: Reader, value: &Value, want: &[u8; 12]) -> bool {
    NAMES.iter().zip(want).all(|(name, want)| said_by(alloc, reader, value, *name) == *want)
}

#[test]
fn members_are_read_by_their_form(rt: HostRuntime) -> Result<(), Fail> {
    let value = read(rt.alloc(), MEMBERS)?;
    for &(reader, want) in READERS {
        assert!(rt; says(rt.alloc(), reader, &value, want));
    }
    assert!(rt; said(flag(&Value::Null, Name::Serial), Name::Serial) == b'-');
    Ok(())
}

// the parts of a text, and whether it is JSON
const TEXTS: &[(&[&[u8]], bool)] = &[
    (&[b"{}"], true),
    (&[b" [null]\n"], true),
    (&[b"\"\\u00e9\""], true),
    (&[&[b'['; 127], &[b']'; 127]], true),
    (&[&[b'['; 128], &[b']'; 128]], false),
    (&[&[b'['; 128]], false),
    (&[b""], false),
    (&[b"{} {}"], false),
    (&[b"{'a':1}"], false),
    (&[b"\"\xff\""], false),
    (&[b"\xef\xbb\xbf{}"], false),
];

fn is_json(alloc: Global, parts: &[&[u8]]) -> Result<bool, Fail> {
    let text = parts.concat(alloc)?;
    let refused = read(alloc, text.as_slice()).err();
    Ok(refused != Some(JsonFault::Member { name: Name::Json }))
}

#[test]
fn texts_are_told_from_others(rt: HostRuntime) -> Result<(), Fail> {
    for &(parts, want) in TEXTS {
        assert!(rt; is_json(rt.alloc(), parts)? == want);
    }
    Ok(())
}

// JSON by its parts, of which the second stands so many times, and whether it is taken of a source
const BOUNDED: &[(&str, &str, usize, &str, bool)] = &[
    ("[0", ",0", 16_383, "]", true),
    ("[0", ",0", 16_384, "]", false),
    ("[\"", "{[,:", 16_384, "\"]", true),
    ("[\"\\\"", ",", 16_384, "\"]", true),
    ("[\"\\\\\"", ",0", 16_384, "]", false),
];

fn is_taken(
    alloc: Global,
    first: &str,
    many: &str,
    times: usize,
    last: &str,
    want: bool,
) -> Result<bool, Fail> {
    let middle = many.repeat(alloc, times)?;
    let text = format!(in alloc; "{first}{middle}{last}")?;
    let _value = read(alloc, text.as_bytes())?;
    Ok(read_bounded(alloc, text.as_bytes()).is_ok() == want)
}

#[test]
fn texts_of_a_source_are_bounded(rt: HostRuntime) -> Result<(), Fail> {
    for &(first, many, times, last, want) in BOUNDED {
        assert!(rt; is_taken(rt.alloc(), first, many, times, last, want)?);
    }
    Ok(())
}

const INSTANTS: &[(&[u8], Option<i64>)] = &[
    (b"1970-01-01T00:00:00Z", Some(0)),
    (b"2016-10-07T19:31:42Z", Some(1_475_868_702)),
    (b"2016-10-07T19:31:42.999999999Z", Some(1_475_868_702)),
    (b"2016-10-07T21:31:42+02:00", Some(1_475_868_702)),
    (b"1969-12-31T23:59:59.5Z", Some(-1)),
    (b"2016-12-31T23:59:60Z", Some(1_483_228_799)),
    (b"9999-12-30T22:00:00.999Z", Some(253_402_207_200)),
    (b"9999-12-31T23:59:59Z", Some(253_402_300_799)),
    (b"9999-12-31T23:59:60.999Z", Some(253_402_300_799)),
    (b"9999-12-31T23:59:59-00:01", None),
    (b"-009999-01-01T00:00:00Z", Some(-377_705_116_800)),
    (b"-009999-01-01T00:00:00+00:01", None),
    (b"+010000-01-01T00:00:00Z", None),
    (b"2016-10-07T19:31:42", None),
    (b"2016-10-07", None),
    (b"2016-02-30T00:00:00Z", None),
    (b"", None),
];

const NO_TIME: JsonFault = JsonFault::Member {
    name: Name::CreatedOn,
};

#[test]
fn instants_are_read_as_their_second(rt: HostRuntime) {
    for &(text, second) in INSTANTS {
        assert!(rt; date_time(text, Name::CreatedOn) == second.map(Seconds).ok_or(NO_TIME));
    }
}

const WRITTEN: &[u8] =
    br#"{"anchors":"Zm9vYg==","ca":"b","path-length":4294967295,"serial":"A\"1","voucher":{"port":443}}"#;

fn written(alloc: Global) -> Result<Bytes, OutOfMemory> {
    let inner = single(alloc, Name::Port, Value::from(443u64))?;
    let mut object = Object::create(alloc);
    object.put_text(alloc, Name::Serial, "A\"1")?;
    object.put_flag(alloc, Name::Ca, false)?;
    object.put_optional(alloc, Name::PlanVoucher, Some(inner))?;
    object.put_number(alloc, Name::PathLength, 4_294_967_295)?;
    let anchors = Bytes::from_slice(alloc, b"foob")?;
    object.put_optional_binary(alloc, Name::Anchors, Some(&anchors))?;
    object.put_optional_binary(alloc, Name::Nonce, None)?;
    object.put_optional_text(alloc, Name::Id, None)?;
    object.put_optional_text(alloc, Name::Ca, Some("b"))?;
    write(alloc, &object.into_value())
}

#[test]
fn an_object_in_order(rt: HostRuntime) -> Result<(), OutOfMemory> {
    assert!(rt; written(rt.alloc())?.as_slice() == WRITTEN);
    Ok(())
}
