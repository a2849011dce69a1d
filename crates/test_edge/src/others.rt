//! The sink, the clock and the random bytes.
use crate::scripted::{Failing, ShortWriter};
use std::io;
use std::test::Fail;
use sz_base::{Failed, PutFault, Seconds};
use sz_io::{Clock, Entropy, Sink};
use sz_real::{RealClock, RealEntropy, RealSink};

#[test]
fn a_sink_goes_on_or_fails(rt: HostRuntime) -> Result<(), Fail> {
    let writer = ShortWriter {
        taken: 0,
        is_interrupted: false,
    };
    let mut sink = RealSink::create(writer, rt.alloc());
    assert!(rt; sink.write(b"12345") == Ok(()));
    assert!(rt; sink.write(b"67890") == Err(PutFault::Failed));
    let mut out = RealSink::create(io::writer(&rt), rt.alloc());
    assert!(rt; out.write(b"") == Ok(()));
    Ok(())
}

#[test]
fn the_clock_and_the_random_bytes_are_the_runtimes(rt: HostRuntime) -> Result<(), Fail> {
    let now = RealClock::create(&rt, rt.alloc()).now()?;
    assert!(rt; now > Seconds(1_700_000_000));
    assert!(rt; RealClock::create(&Failing, rt.alloc()).now() == Err(Failed));
    let (mut some, mut others) = ([0u8; 300], [0u8; 300]);
    let mut entropy = RealEntropy::create(&rt, rt.alloc());
    entropy.fill(&mut some)?;
    entropy.fill(&mut others)?;
    assert!(rt; some[..] != others[..]);
    assert!(rt; RealEntropy::create(&Failing, rt.alloc()).fill(&mut some) == Err(Failed));
    Ok(())
}
