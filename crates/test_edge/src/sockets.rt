//! Connections over this machine's own address, with short limits.
use crate::scripted::Skipping;
use std::alloc::Global;
use std::io::{Read, Write};
use std::net::{SocketAddr, TcpListener, TcpStream};
use std::test::Fail;
use std::time::Duration;
use sz_base::{Failed, Host, PutFault, Target};
use sz_io::{Listener, Net};
use sz_real::{Limits, RealListener, RealNet};

// As many bytes as are taken where that doesn't matter.
const MOST: u64 = 6_291_456;

// Limits of a tenth of a second.
fn short() -> Limits {
    let tenth = Duration::from_millis(100);
    Limits {
        connect: tenth,
        call: tenth,
        linger: tenth,
        ..Limits::usual()
    }
}

fn target(alloc: Global, port: u16) -> Result<Target, Fail> {
    let host = Host::read(alloc, b"127.0.0.1")?;
    Ok(Target { host, port })
}

// A peer that listens, and the target that leads to it.
fn peer(rt: &HostRuntime) -> Result<(TcpListener, Target), Fail> {
    let listener = TcpListener::bind(rt, "127.0.0.1:0")?;
    let port = listener.local_addr()?.port();
    Ok((listener, target(rt.alloc(), port)?))
}

#[test]
fn a_port_on_which_nobody_listens_is_a_fault(rt: HostRuntime) -> Result<(), Fail> {
    let (listener, target) = peer(&rt)?;
    drop(listener);
    let mut net = RealNet::within(&rt, rt.alloc(), short());
    assert!(rt; net.connect(&target, MOST) == Err(PutFault::Failed));
    assert!(rt; net.send(b"bytes") == Err(PutFault::Failed));
    assert!(rt; net.receive(&mut [0u8; 4]) == Err(Failed));
    net.close();
    Ok(())
}

#[test]
fn a_silent_peer_is_a_fault(rt: HostRuntime) -> Result<(), Fail> {
    let (listener, target) = peer(&rt)?;
    let mut net = RealNet::within(&rt, rt.alloc(), short());
    net.connect(&target, MOST)?;
    let (_peer, _) = listener.accept()?;
    assert!(rt; net.receive(&mut [0u8; 4]) == Err(Failed));
    Ok(())
}

#[test]
fn a_peer_that_stops_after_a_byte_is_a_fault(rt: HostRuntime) -> Result<(), Fail> {
    let (listener, target) = peer(&rt)?;
    let mut net = RealNet::within(&rt, rt.alloc(), short());
    net.connect(&target, MOST)?;
    let (mut peer, _) = listener.accept()?;
    peer.write_all(b"a")?;
    let mut into = [0u8; 4];
    assert!(rt; net.receive(&mut into) == Ok(1));
    assert!(rt; into == *b"a\0\0\0");
    assert!(rt; net.receive(&mut into) == Err(Failed));
    Ok(())
}

#[test]
fn a_full_answer_ends(rt: HostRuntime) -> Result<(), Fail> {
    let (listener, target) = peer(&rt)?;
    let mut net = RealNet::create(&rt, rt.alloc());
    net.connect(&target, MOST)?;
    net.send(b"question")?;
    let (mut peer, _) = listener.accept()?;
    let mut asked = [0u8; 8];
    peer.read_exact(&mut asked)?;
    assert!(rt; asked == *b"question");
    peer.write_all(b"answer")?;
    drop(peer);
    let mut into = [0u8; 8];
    assert!(rt; net.receive(&mut into) == Ok(6));
    assert!(rt; into == *b"answer\0\0");
    assert!(rt; net.receive(&mut into) == Ok(0));
    net.connect(&target, MOST)?;
    net.close();
    assert!(rt; net.receive(&mut into) == Err(Failed));
    Ok(())
}

// How many bytes a receive moves and how many are taken at most, and how many receives there are until the connection
// is over, by a clock that goes 12 seconds forward at each look. A receive looks at it twice, the second time 24, 48
// and 72 seconds after the connection began. It lasts 60 seconds, 76 where it moved 16 KiB, and no more than 72 where
// 12 times 64 KiB are taken.
static LASTS: [(usize, u64, usize); 6] = [
    (1, MOST, 2),
    (8_192, MOST, 3),
    (8_192, 0, 2),
    (8_192, 786_432, 2),
    (8_192, 851_967, 2),
    (8_192, 851_968, 3),
];

// Whether so many receives of so many bytes are answered, and the next one is refused.
fn lasts(rt: &HostRuntime, moved: usize, most: u64, receives: usize) -> Result<bool, Fail> {
    let (listener, target) = peer(rt)?;
    let runtime = Skipping::create(rt, 12);
    let mut net = RealNet::create(&runtime, rt.alloc());
    net.connect(&target, most)?;
    let (mut peer, _) = listener.accept()?;
    peer.write_all(&[0x61; 32_768])?;
    let mut into = vec![in rt.alloc(); 0u8; moved]?;
    for _ in 0..receives {
        if net.receive(into.as_mut_slice()).is_err() {
            return Ok(false);
        }
    }
    Ok(net.receive(into.as_mut_slice()).is_err())
}

#[test]
fn a_connection_ends_by_what_it_moved_and_what_is_taken(rt: HostRuntime) -> Result<(), Fail> {
    for &(moved, most, receives) in &LASTS {
        assert!(rt; lasts(&rt, moved, most, receives)?);
    }
    Ok(())
}

#[test]
fn a_listener_answers_one_after_the_other(rt: HostRuntime) -> Result<(), Fail> {
    let mut listener = RealListener::within(&rt, rt.alloc(), short());
    assert!(rt; listener.accept() == Err(Failed));
    let (free, target) = peer(&rt)?;
    drop(free);
    listener.listen(&target)?;
    let address = SocketAddr::from(([127, 0, 0, 1], target.port));
    let mut first = TcpStream::connect(&rt, address)?;
    let mut second = TcpStream::connect(&rt, address)?;
    first.write_all(b"first")?;
    listener.accept()?;
    let mut into = [0u8; 8];
    assert!(rt; listener.receive(&mut into) == Ok(5));
    assert!(rt; into == *b"first\0\0\0");
    assert!(rt; listener.receive(&mut into) == Err(Failed));
    first.write_all(b"more")?;
    listener.send(b"reply")?;
    listener.close();
    first.read_exact(&mut into[..5])?;
    assert!(rt; into == *b"reply\0\0\0");
    second.write_all(b"2")?;
    listener.accept()?;
    assert!(rt; listener.receive(&mut into) == Ok(1));
    drop(second);
    assert!(rt; listener.receive(&mut into) == Ok(0));
    Ok(())
}
