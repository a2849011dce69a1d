//! Boots of a device on a disk in memory, over a scripted server and evidence that other software made.

use std::alloc::Global;
use std::test::Fail;
use sz_agent::{Outcome, boot};
use sz_base::{Bytes, Calls};
use sz_disk::{Disk, MemoryDisk};
use sz_fixtures::disks::{SIZE, disk_of, find};
use sz_fixtures::sources::{NOW, sources};
use sz_fixtures::{base64, folder, reply, servers};
use sz_io::{Files, SetEntropy};
use sz_record::Stage;
use sz_samples::{ANCHOR, CERTIFICATES, INFORMATION, VOUCHER};
use sz_state::layout;

const ABSENT: &[u8] = b"HTTP/1.1 404 Not Found\r\nContent-Length: 0\r\n\r\n";

const NONCE: &[u8] = &[9; 16];

// How a boot ended.
#[derive(Clone, Copy, PartialEq, Eq)]
enum End {
    AlreadyOnboarded,
    Onboarded,
    NoSource,
    NotInitialised,
    Other,
}

fn end_of(outcome: &Outcome) -> End {
    match outcome {
        Outcome::AlreadyOnboarded(_) => End::AlreadyOnboarded,
        Outcome::Onboarded(_) => End::Onboarded,
        Outcome::NoSource => End::NoSource,
        Outcome::NotInitialised => End::NotInitialised,
        _ => End::Other,
    }
}

// What a boot came to: how it ended, how many visits it made and exchanges it added, and whether it had a nonce.
type Told = (End, usize, usize, bool);

// A boot of this disk over these replies and sources, with so many random bytes.
fn booted(
    alloc: Global,
    disk: &mut MemoryDisk,
    replies: &[&[u8]],
    words: &[&[u8]],
    random: &[u8],
) -> Result<Told, Fail> {
    let mut folder = folder(alloc, Files::create(alloc), 0)?;
    let mut net = servers(alloc, replies, 0)?;
    let drawn = Bytes::from_slice(alloc, random)?;
    let mut entropy = SetEntropy::create(alloc, drawn, Calls::create(alloc));
    let sources = sources(alloc, words)?;
    if layout(disk.size()).is_none() || sources.len() > 16 {
        return Err("a disk or sources of no use".into());
    }
    let report = boot(
        alloc,
        disk,
        &mut folder,
        &mut net,
        &mut entropy,
        sources,
        NOW.time,
    );
    Ok((
        end_of(&report.outcome),
        report.visits.len(),
        net.past().len(),
        report.moment.nonce.is_some(),
    ))
}

// What a server replies: evidence whose information has a configuration and names no image, or that it has none.
#[derive(Clone, Copy)]
enum Served {
    Right,
    Absent,
}

fn bytes_of(served: Served, right: &[u8]) -> &[u8] {
    match served {
        Served::Right => right,
        Served::Absent => ABSENT,
    }
}

// A boot of a device as it was made, and what it comes to.
struct Row {
    words: &'static [&'static [u8]],
    replies: [Served; 2],
    random: &'static [u8],
    told: Told,
    stage: Stage,
}

const ONE: &[&[u8]] = &[b"server:a:80"];

const BOTH: &[&[u8]] = &[b"server:a:80", b"server:b:80"];

static ROWS: [Row; 5] = [
    Row {
        words: ONE,
        replies: [Served::Right, Served::Absent],
        random: NONCE,
        told: (End::Onboarded, 1, 1, true),
        stage: Stage::Onboarded,
    },
    // a draw that fails leaves the moment without a nonce, and disturbs nothing
    Row {
        words: ONE,
        replies: [Served::Right, Served::Absent],
        random: &[],
        told: (End::Onboarded, 1, 1, false),
        stage: Stage::Onboarded,
    },
    // the second source is asked after the first gave nothing
    Row {
        words: BOTH,
        replies: [Served::Absent, Served::Right],
        random: NONCE,
        told: (End::Onboarded, 2, 2, true),
        stage: Stage::Onboarded,
    },
    // and not after an offer was taken
    Row {
        words: BOTH,
        replies: [Served::Right, Served::Right],
        random: NONCE,
        told: (End::Onboarded, 1, 1, true),
        stage: Stage::Onboarded,
    },
    Row {
        words: ONE,
        replies: [Served::Absent, Served::Right],
        random: NONCE,
        told: (End::NoSource, 1, 1, true),
        stage: Stage::Factory,
    },
];

// A disk that was made for the device A1.
fn fresh_disk(alloc: Global) -> Result<MemoryDisk, Fail> {
    disk_of(alloc, base64(alloc, ANCHOR)?)
}

fn right_reply(alloc: Global) -> Result<Bytes, Fail> {
    reply(alloc, INFORMATION, Some(CERTIFICATES), VOUCHER)
}

fn shows(alloc: Global, row: &Row) -> Result<bool, Fail> {
    let right = right_reply(alloc)?;
    let [first, second] = row.replies;
    let replies = [
        bytes_of(first, right.as_slice()),
        bytes_of(second, right.as_slice()),
    ];
    let mut disk = fresh_disk(alloc)?;
    let told = booted(alloc, &mut disk, &replies, row.words, row.random)?;
    Ok(told == row.told && find(alloc, &mut disk)?.device.stage() == row.stage)
}

#[test]
fn a_boot_takes_the_first_offer_that_the_device_can_take(rt: HostRuntime) -> Result<(), Fail> {
    for row in &ROWS {
        assert!(rt; shows(rt.alloc(), row)?);
    }
    Ok(())
}

#[test]
fn nothing_is_asked_where_there_is_nothing_to_take(rt: HostRuntime) -> Result<(), Fail> {
    let alloc = rt.alloc();
    let right = right_reply(alloc)?;
    let right: &[&[u8]] = &[right.as_slice()];
    let mut zeros = MemoryDisk::create(alloc, SIZE)?;
    let told = booted(alloc, &mut zeros, right, ONE, NONCE)?;
    assert!(rt; told == (End::NotInitialised, 0, 0, false));
    let mut disk = fresh_disk(alloc)?;
    booted(alloc, &mut disk, right, ONE, NONCE)?;
    let told = booted(alloc, &mut disk, right, ONE, NONCE)?;
    assert!(rt; told == (End::AlreadyOnboarded, 0, 0, false));
    Ok(())
}
