//! Tests of sz_io: the forms in memory, each with calls that fail, and the reading of files.
ghost use Rattle.std.specs.Prelude.{None};

use crate::disk::calls;
use std::alloc::Global;
use std::test::Fail;
use sz_base::{BaseFault, Bytes, Failed, OutOfMemory, PutFault, Seconds, Target, Text};
use sz_io::{
    Clock, Entropy, Exchange, ExchangeEnd, Files, Folder, Found, Listener, MemoryFolder,
    MemorySink, Net, Script, ScriptListener, ScriptNet, Scripts, SetClock, SetEntropy, Sink, Times,
    read_whole,
};

fn script(alloc: Global, bytes: &[u8], closed: bool) -> Result<Script, OutOfMemory> {
    let bytes = Bytes::from_slice(alloc, bytes)?;
    Ok(Script { bytes, closed })
}

// Scripts, each with its bytes and whether the other side closes the connection behind them.
fn scripts(alloc: Global, rows: &[(&[u8], bool)]) -> Result<Scripts, OutOfMemory> {
    let mut scripts = Scripts::create(alloc);
    for (bytes, closed) in rows {
        scripts.push(script(alloc, bytes, *closed)?)?;
    }
    Ok(scripts)
}

// A server at this port.
fn at_port(alloc: Global, port: u16) -> Result<Target, BaseFault> {
    let mut target = Target::read(alloc, b"server:1")?;
    target.port = port;
    Ok(target)
}

// A folder with the path `a`, which stands twice. One call fails.
fn folder(alloc: Global, bytes: &[u8], fail: u64) -> Result<MemoryFolder, OutOfMemory> {
    let mut files = Files::create(alloc);
    for file in [bytes, b"second"] {
        files.push((
            Text::from_slice(alloc, b"a")?,
            Text::from_slice(alloc, file)?,
        ))?;
    }
    Ok(MemoryFolder::create(alloc, files, calls(alloc, &[fail])?))
}

#[test]
fn the_first_bytes_of_a_path_count_until_it_is_written(rt: HostRuntime) -> Result<(), Fail> {
    let mut folder = folder(rt.alloc(), b"one", 0)?;
    let path = Text::from_slice(rt.alloc(), b"a")?;
    let mut into = [0; 4];
    assert!(rt; folder.length(&path) == Ok(Some(3)));
    assert!(rt; folder.read_at(&path, 1, &mut into) == Ok(2) && into == *b"ne\0\0");
    folder.write(&path, b"other")?;
    assert!(rt; folder.length(&path) == Ok(Some(5)));
    Ok(())
}

#[test]
fn a_named_write_fails_alone(rt: HostRuntime) -> Result<(), Fail> {
    let mut sink = MemorySink::create(rt.alloc(), calls(rt.alloc(), &[2])?);
    sink.write(b"ab")?;
    assert!(rt; sink.write(b"cd") == Err(PutFault::Failed));
    sink.write(b"ef")?;
    assert!(rt; sink.bytes() == b"abef".as_slice());
    Ok(())
}

// Whether a file was found whole, with so many bytes.
fn is_whole(found: Found, length: u64) -> bool {
    match found {
        Found::Whole(bytes) => bytes.len() as u64 == length,
        Found::Absent | Found::Larger { length: _ } | Found::OutOfMemory => false,
    }
}

// The third call is the second read of a file that takes two.
#[test]
fn a_file_is_read_whole_where_no_read_fails(rt: HostRuntime) -> Result<(), Fail> {
    let mut folder = folder(rt.alloc(), &[7; 70_000], 3)?;
    let path = Text::from_slice(rt.alloc(), b"a")?;
    assert!(rt; read_whole(rt.alloc(), &mut folder, &path, 70_000).is_err());
    assert!(rt; is_whole(read_whole(rt.alloc(), &mut folder, &path, 70_000)?, 70_000));
    Ok(())
}

// A file that is said to have some bytes, has others, and fails where it is asked for bytes past those that
// it is said to have.
#[derive(Drop)]
struct Strict {
    said: u64,
    has: u64,
    faults: u64,
}

impl Folder for Strict {
    ghost faults = { λ folder. folder.faults };

    ghost files = { λ _. None };

    fn length(&mut self, _path: &Text) -> Result<Option<u64>, Failed> {
        Ok(Some(self.said))
    }

    fn read_at(&mut self, _path: &Text, at: u64, into: &mut [u8]) -> Result<usize, Failed> {
        if into.len() as u64 > self.said.saturating_sub(at) {
            self.faults = self.faults.saturating_add(1);
            return Err(Failed);
        }
        Ok(into.len().min(self.has.saturating_sub(at) as usize))
    }

    fn write(&mut self, _path: &Text, _bytes: &[u8]) -> Result<(), PutFault> {
        Err(PutFault::OutOfMemory)
    }
}

// How many bytes a file is said to have, how many it has, and how many are read.
static LENGTHS: [(u64, u64, u64); 4] = [
    (0, 0, 0),
    (10, 3, 3),
    (10, 99, 10),
    (70_000, 70_000, 70_000),
];

#[test]
fn a_file_is_asked_for_the_bytes_that_it_is_said_to_have(rt: HostRuntime) -> Result<(), Fail> {
    let path = Text::from_slice(rt.alloc(), b"a")?;
    for (said, has, read) in &LENGTHS {
        let mut folder = Strict {
            said: *said,
            has: *has,
            faults: 0,
        };
        assert!(rt; is_whole(read_whole(rt.alloc(), &mut folder, &path, 70_000)?, *read));
    }
    Ok(())
}

// A call of a network and whether it succeeds: a connect to a port, a send, and a receive into so many bytes, with the
// bytes that come.
#[derive(Clone, Copy)]
enum Step {
    Open(u16, bool),
    Send(&'static [u8], bool),
    Receive(usize, Option<&'static [u8]>),
    Close,
}

// The fourth call fails.
static STEPS: [Step; 14] = [
    Step::Open(1, true),
    Step::Send(b"GET", true),
    Step::Receive(2, Some(b"on")),
    Step::Receive(8, None),
    Step::Receive(8, Some(b"e")),
    Step::Open(2, true),
    Step::Receive(8, Some(b"two")),
    Step::Receive(8, None),
    Step::Close,
    Step::Send(b"more", false),
    Step::Open(3, true),
    Step::Receive(8, Some(b"")),
    Step::Open(4, true),
    Step::Open(5, false),
];

// Takes a step, and says whether the network answered so.
fn answers<N: Net>(alloc: Global, net: &mut N, step: Step) -> Result<bool, BaseFault> {
    let mut into = [0; 8];
    match step {
        Step::Open(port, succeeds) => {
            Ok(net.connect(&at_port(alloc, port)?, 0).is_ok() == succeeds)
        }
        Step::Send(bytes, succeeds) => Ok(net.send(bytes).is_ok() == succeeds),
        Step::Receive(room, bytes) => match net.receive(&mut into[..room.min(8)]) {
            Ok(count) => Ok(bytes.is_some_and(|bytes| bytes == &into[..count])),
            Err(Failed) => Ok(bytes.is_none()),
        },
        Step::Close => {
            net.close();
            Ok(true)
        }
    }
}

// An exchange: its port, the bytes sent and received, and its end.
type Row = (u16, &'static [u8], &'static [u8], ExchangeEnd);

static EXCHANGES: [Row; 5] = [
    (1, b"GET", b"one", ExchangeEnd::Lost),
    (2, b"", b"two", ExchangeEnd::Lost),
    (3, b"", b"", ExchangeEnd::Closed),
    (4, b"", b"", ExchangeEnd::Left),
    (5, b"", b"", ExchangeEnd::Lost),
];

fn is_exchange(exchange: &Exchange, (port, sent, received, end): Row) -> bool {
    exchange.target.port == port
        && exchange.sent.as_slice() == sent
        && exchange.received.as_slice() == received
        && exchange.end == end
}

#[test]
fn a_network_keeps_what_went_over_it(rt: HostRuntime) -> Result<(), Fail> {
    let answers_to_come = scripts(
        rt.alloc(),
        &[
            (b"one", true),
            (b"two", false),
            (b"", true),
            (b"four", true),
        ],
    )?;
    let mut net = ScriptNet::create(rt.alloc(), answers_to_come, calls(rt.alloc(), &[4])?);
    for step in &STEPS {
        assert!(rt; answers(rt.alloc(), &mut net, *step)?);
    }
    assert!(rt; net.past().len() == EXCHANGES.len());
    for (exchange, row) in net.past().iter().zip(&EXCHANGES) {
        assert!(rt; is_exchange(exchange, *row));
    }
    Ok(())
}

// What came of a connection: whether a send succeeded, and what two receives answered.
type Answers = (bool, Option<usize>, Option<usize>);

// Accepts a connection, sends these bytes on it and receives twice.
fn serve<L: Listener>(listener: &mut L, bytes: &[u8]) -> Option<Answers> {
    let mut into = [0; 8];
    listener.accept().ok()?;
    let sent = listener.send(bytes).is_ok();
    let first = listener.receive(&mut into).ok();
    let second = listener.receive(&mut into).ok();
    Some((sent, first, second))
}

// The bytes to be sent on a connection, what comes of it, and the bytes that were sent.
static CONNECTIONS: [(&[u8], Option<Answers>, Option<&[u8]>); 3] = [
    (b"first", Some((true, Some(3), Some(0))), Some(b"first")),
    (b"second", Some((false, Some(3), None)), Some(b"")),
    (b"third", None, None),
];

// The seventh call, the send on the second connection, fails.
#[test]
fn a_listener_keeps_what_was_sent_on_each_connection(rt: HostRuntime) -> Result<(), Fail> {
    let to_come = scripts(rt.alloc(), &[(b"one", true), (b"two", false)])?;
    let mut listener = ScriptListener::create(rt.alloc(), to_come, calls(rt.alloc(), &[7])?);
    listener.listen(&at_port(rt.alloc(), 1)?)?;
    for (place, (bytes, answers, sent)) in CONNECTIONS.iter().enumerate() {
        assert!(rt; serve(&mut listener, bytes) == *answers && listener.sent(place) == *sent);
    }
    listener.close();
    Ok(())
}

#[test]
fn a_clock_tells_its_times_in_order(rt: HostRuntime) -> Result<(), Fail> {
    let mut times = Times::create(rt.alloc());
    times.push(Seconds(5))?;
    times.push(Seconds(7))?;
    let mut clock = SetClock::create(rt.alloc(), times, calls(rt.alloc(), &[2])?);
    for answer in [Ok(Seconds(5)), Err(Failed), Ok(Seconds(7)), Err(Failed)] {
        assert!(rt; clock.now() == answer);
    }
    Ok(())
}

// How many bytes are asked for, what comes of it, and what then stands where they go.
static FILLS: [(usize, Result<(), Failed>, &[u8; 4]); 4] = [
    (4, Ok(()), b"abcd"),
    (4, Err(Failed), b"abcd"),
    (4, Err(Failed), b"abcd"),
    (2, Ok(()), b"efcd"),
];

#[test]
fn random_bytes_come_in_order(rt: HostRuntime) -> Result<(), Fail> {
    let bytes = Bytes::from_slice(rt.alloc(), b"abcdef")?;
    let mut entropy = SetEntropy::create(rt.alloc(), bytes, calls(rt.alloc(), &[2])?);
    let mut into = [0; 4];
    for (length, answer, filled) in &FILLS {
        assert!(rt; entropy.fill(&mut into[..(*length).min(4)]) == *answer && into == **filled);
    }
    Ok(())
}
