//! Downloads of images over a network in memory, into a room in memory.

use std::alloc::Global;
use std::test::Fail;
use sz_base::{Bytes, ImageFault, Text};
use sz_fixtures::{Pad, Reply, digests, scripted, servers, texts};
use sz_http::{Reading, Side};
use sz_image::{NoImage, fetch, fetch_first};
use sz_io::ScriptNet;

// The bytes of a large image.
const AREA: u64 = 2_097_152;

// What a download comes to: the size of the image, or why there is none.
type Size = Result<u64, ImageFault>;

// What the download of the image with this digest comes to, where the server sends this reply.
fn download(alloc: Global, reply: Reply<'_>, space: u64, digest: &[u8; 32]) -> Result<Size, Fail> {
    let mut net = scripted(alloc, &[reply], 0)?;
    let mut room = Pad::create(alloc, space);
    let uri = Text::from_slice(alloc, b"http://h/a")?;
    let mut buffer = Reading::create(alloc, Side::Reply, 0)?;
    Ok(fetch(alloc, &mut net, &mut room, &uri, digest, &mut buffer))
}

// A reply, whether the connection is closed behind it, and what the download of `abc` into three bytes comes to.
const REPLIES: [(&[u8], bool, Size); 15] = [
    // it is whole, lost or another image
    (
        b"HTTP/1.1 200 OK\r\nContent-Length: 3\r\n\r\nabc",
        false,
        Ok(3),
    ),
    (
        b"HTTP/1.1 200 OK\r\nTransfer-Encoding: chunked\r\n\r\n1\r\na\r\n2\r\nbc\r\n0\r\n\r\n",
        false,
        Ok(3),
    ),
    (b"HTTP/1.0 200 OK\r\n\r\nabc", true, Ok(3)),
    (b"HTTP/1.0 200 OK\r\n\r\nabc", false, Err(ImageFault::Lost)),
    (GIVES_ABD, true, Err(OTHER)),
    // the first fault decides
    (
        b"HTTP/1.1 200 OK\r\nContent-Length: 3\r\n\r\nab",
        true,
        Err(ImageFault::EndedEarly),
    ),
    (b"HTTP/1.1 200", true, Err(ImageFault::EndedEarly)),
    (b"HTPP/1.1 200 OK\r\n\r\n", true, Err(ImageFault::BadHttp)),
    (
        b"HTTP/1.1 200 OK\r\nTransfer-Encoding: chunked\r\n\r\n3\r\nabcX",
        true,
        Err(ImageFault::BadHttp),
    ),
    (
        b"HTTP/1.1 404 Not Found\r\nContent-Encoding: gzip\r\n\r\n",
        true,
        Err(ImageFault::Coding),
    ),
    (
        b"HTTP/1.1 404 Not Found\r\nContent-Length: 9\r\n\r\n",
        true,
        Err(ImageFault::Status { code: 404 }),
    ),
    // an image over the room is told with its size
    (
        b"HTTP/1.1 200 OK\r\nContent-Length: 9\r\n\r\n",
        true,
        Err(ImageFault::ImageTooLarge { size: 9, area: 3 }),
    ),
    (b"HTTP/1.0 200 OK\r\n\r\nabcd", true, FOUR_OVER),
    (
        b"HTTP/1.1 200 OK\r\nTransfer-Encoding: chunked\r\n\r\n5\r\nabcde\r\n0\r\n\r\n",
        true,
        FOUR_OVER,
    ),
    (
        b"HTTP/1.1 200 OK\r\nTransfer-Encoding: chunked\r\n\r\n3\r\nabc\r\n1\r\nd",
        true,
        FOUR_OVER,
    ),
];

const FOUR_OVER: Size = Err(ImageFault::ImageTooLarge { size: 4, area: 3 });

const OTHER: ImageFault = ImageFault::WrongHash {
    found: digests::ABD,
};

#[test]
fn a_reply_gives_the_image_or_its_first_fault(rt: HostRuntime) -> Result<(), Fail> {
    for (bytes, closed, size) in REPLIES {
        let reply = Reply { bytes, closed };
        assert!(rt; download(rt.alloc(), reply, 3, &digests::ABC)? == size);
    }
    Ok(())
}

// The head of a reply, how many blocks of 4,096 zeros and which bytes follow, and what the download of as many zeros as
// the room holds comes to.
const ZEROS: [(&[u8], u32, &[u8], Size); 3] = [
    (b"HTTP/1.0 200 OK\r\n\r\n", 512, b"", Ok(AREA)),
    (
        b"HTTP/1.0 200 OK\r\n\r\n",
        512,
        b"\0",
        Err(ImageFault::ImageTooLarge {
            size: 2_097_153,
            area: AREA,
        }),
    ),
    (
        b"HTTP/1.1 200 OK\r\nContent-Length: 3000000\r\n\r\n",
        0,
        b"",
        Err(ImageFault::ImageTooLarge {
            size: 3_000_000,
            area: AREA,
        }),
    ),
];

// These parts, the second so often.
fn repeated(
    alloc: Global,
    front: &[u8],
    middle: &[u8],
    count: u32,
    back: &[u8],
) -> Result<Bytes, Fail> {
    let mut bytes = Bytes::from_slice(alloc, front)?;
    for _ in 0..count {
        bytes.append(middle)?;
    }
    bytes.append(back)?;
    Ok(bytes)
}

fn zeros(alloc: Global, head: &[u8], blocks: u32, back: &[u8]) -> Result<Size, Fail> {
    let reply = repeated(alloc, head, &[0; 4096], blocks, back)?;
    let reply = Reply {
        bytes: reply.as_slice(),
        closed: true,
    };
    download(alloc, reply, AREA, &digests::TWO_MIB_OF_ZEROS)
}

#[test]
fn an_image_fills_the_room_and_is_not_one_byte_over(rt: HostRuntime) -> Result<(), Fail> {
    for (head, blocks, back, size) in ZEROS {
        assert!(rt; zeros(rt.alloc(), head, blocks, back)? == size);
    }
    Ok(())
}

// What the download of 100,000 zeros comes to where the reply has so many chunks of one zero, the first behind an
// extension of so many letters.
fn chunks(alloc: Global, letters: u32, count: u32) -> Result<Size, Fail> {
    let head = b"HTTP/1.1 200 OK\r\nTransfer-Encoding: chunked\r\n\r\n1;";
    let reply = repeated(alloc, head, b"x", letters, b"")?;
    let reply = repeated(
        alloc,
        reply.as_slice(),
        b"\r\n\0\r\n1",
        count,
        b"\r\n\0\r\n0\r\n\r\n",
    )?;
    let reply = Reply {
        bytes: reply.as_slice(),
        closed: false,
    };
    download(alloc, reply, AREA, &digests::SHORT_ZEROS)
}

#[test]
fn chunks_of_one_byte_are_put_and_a_long_line_is_refused(rt: HostRuntime) -> Result<(), Fail> {
    assert!(rt; chunks(rt.alloc(), 254, 99_999)? == Ok(100_000));
    assert!(rt; chunks(rt.alloc(), 255, 0)? == Err(ImageFault::HeadTooLarge));
    Ok(())
}

// What was sent in the first exchange of a download from this URI, if there was one.
fn sent(alloc: Global, uri: &[u8]) -> Result<Option<Bytes>, Fail> {
    let reply = Reply {
        bytes: b"",
        closed: true,
    };
    let mut net = scripted(alloc, &[reply], 0)?;
    let mut room = Pad::create(alloc, 3);
    let uri = Text::from_slice(alloc, uri)?;
    let mut buffer = Reading::create(alloc, Side::Reply, 0)?;
    let answer = fetch(alloc, &mut net, &mut room, &uri, &[0; 32], &mut buffer);
    match net.past().first() {
        Some(exchange) if answer == Err(ImageFault::EndedEarly) => {
            Ok(Some(exchange.sent.copy(alloc)?))
        }
        _ => Ok(None),
    }
}

#[test]
fn the_request_asks_for_path_and_query(rt: HostRuntime) -> Result<(), Fail> {
    let request = b"GET /a?b HTTP/1.1\r\nHost: h:443\r\nConnection: close\r\n\r\n".as_slice();
    let text = sent(rt.alloc(), b"https://H/a?b#c")?;
    assert!(rt; text.is_some_and(|text| text.as_slice() == request));
    assert!(rt; sent(rt.alloc(), b"ftp://h/a")?.is_none());
    Ok(())
}

const GIVES_ABC: &[u8] = b"HTTP/1.1 200 OK\r\nContent-Length: 3\r\n\r\nabc";

const GIVES_ABD: &[u8] = b"HTTP/1.1 200 OK\r\nContent-Length: 3\r\n\r\nabd";

const GIVES_FIVE: &[u8] = b"HTTP/1.0 200 OK\r\n\r\nabcde";

const GIVES_SIX: &[u8] = b"HTTP/1.0 200 OK\r\n\r\nabcdef";

const CUT: &[u8] = b"HTTP/1.1 200 OK\r\nTransfer-Encoding: chunked\r\n\r\n2\r\nab\r\n";

const ABSENT: &[u8] = b"HTTP/1.1 404 Not Found\r\nContent-Length: 0\r\n\r\n";

// What a download from several URIs comes to: the size of the image, or the faults of each, or another end.
#[derive(Clone, Copy, PartialEq)]
enum First {
    Given(u64),
    Refused([ImageFault; 3]),
    Broken,
}

// The replies in turn, what the download of `abc` comes to from two URIs that can be asked and one that can't, what the
// room of five bytes holds then, and how many servers were asked.
const CHOICES: [([&[u8]; 2], First, &[u8], usize); 4] = [
    ([GIVES_ABC, GIVES_ABD], First::Given(3), b"abc", 1),
    ([GIVES_FIVE, GIVES_ABC], First::Given(3), b"abc", 2),
    (
        [ABSENT, GIVES_ABD],
        First::Refused([ImageFault::Status { code: 404 }, OTHER, ImageFault::Uri]),
        b"abd",
        2,
    ),
    (
        [GIVES_SIX, CUT],
        First::Refused([
            ImageFault::ImageTooLarge { size: 6, area: 5 },
            ImageFault::EndedEarly,
            ImageFault::Uri,
        ]),
        b"ab",
        2,
    ),
];

const URIS: &[&[u8]] = &[b"http://a/i", b"http://b/i", b"ftp://c/i"];

fn first_of(
    alloc: Global,
    net: &mut ScriptNet,
    room: &mut Pad,
    digest: &[u8; 32],
) -> Result<First, Fail> {
    let uris = texts(alloc, URIS)?;
    let mut buffer = Reading::create(alloc, Side::Reply, 0)?;
    match fetch_first(alloc, net, room, &uris, digest, &mut buffer) {
        Ok(size) => Ok(First::Given(size)),
        Err(NoImage::Refused(faults)) => match faults.as_slice() {
            [a, b, c] => Ok(First::Refused([*a, *b, *c])),
            _ => Err("not three faults".into()),
        },
        Err(NoImage::DiskFault) => Ok(First::Broken),
        Err(NoImage::OutOfMemory) => Err("out of memory".into()),
    }
}

#[test]
fn the_first_uri_that_gives_the_image_is_the_last_asked(rt: HostRuntime) -> Result<(), Fail> {
    let alloc = rt.alloc();
    for (replies, first, held, asked) in &CHOICES {
        let mut net = servers(alloc, replies, 0)?;
        let mut room = Pad::create(alloc, 5);
        assert!(rt; first_of(alloc, &mut net, &mut room, &digests::ABC)? == *first);
        assert!(rt; room.bytes() == *held && net.past().len() == *asked);
    }
    Ok(())
}

// A reply with an image of 40,000,000 bytes: zeros, and this one behind them.
fn large_reply(alloc: Global, last: u8) -> Result<Bytes, Fail> {
    let head = b"HTTP/1.1 200 OK\r\nContent-Length: 40000000\r\n\r\n";
    let reply = repeated(alloc, head, &[0; 4000], 9_999, &[0; 3999])?;
    repeated(alloc, reply.as_slice(), b"", 0, &[last])
}

#[test]
fn a_large_image_comes_from_the_second_uri(rt: HostRuntime) -> Result<(), Fail> {
    let alloc = rt.alloc();
    let (wrong, right) = (large_reply(alloc, 1)?, large_reply(alloc, 0)?);
    let mut net = servers(alloc, &[wrong.as_slice(), right.as_slice()], 0)?;
    let mut room = Pad::create(alloc, 67_108_864);
    let first = first_of(alloc, &mut net, &mut room, &digests::LONG_ZEROS)?;
    assert!(rt; first == First::Given(40_000_000));
    assert!(rt; room.bytes().len() == 40_000_000 && net.past().len() == 2);
    Ok(())
}

#[test]
fn a_fault_of_the_room_ends_the_download(rt: HostRuntime) -> Result<(), Fail> {
    let alloc = rt.alloc();
    let mut net = servers(alloc, &[GIVES_ABC, GIVES_ABC], 0)?;
    let mut room = Pad::create(alloc, 5);
    room.break_down();
    assert!(rt; first_of(alloc, &mut net, &mut room, &digests::ABC)? == First::Broken);
    assert!(rt; room.faults() == 1 && net.past().len() == 1);
    Ok(())
}
