//! Offers tried by a device on a disk in memory, over a network in memory.

ghost use Rattle.std.specs.Prelude.{IfSome};
ghost use Rattle.sz_state.specs.Change.{HasShortNames};

use std::alloc::Global;
use std::test::Fail;
use sz_artifacts::Onboarding;
use sz_base::{Bytes, Moment, Seconds};
use sz_disk::MemoryDisk;
use sz_evidence::Reason;
use sz_fixtures::disks::{disk_of, find, holds};
use sz_fixtures::offers::{boot_image, evidence, information};
use sz_fixtures::{calls, digests, servers, texts};
use sz_http::{Reading, Side};
use sz_offer::{Trial, try_offer};

const WHEN: Moment = Moment {
    time: Seconds(0),
    nonce: None,
};

const GIVES: &[u8] = b"HTTP/1.1 200 OK\r\nContent-Length: 5\r\n\r\nimage";

const ABSENT: &[u8] = b"HTTP/1.1 404 Not Found\r\nContent-Length: 0\r\n\r\n";

// another image
const WRONG: &[u8] = b"HTTP/1.0 200 OK\r\n\r\nIMAGE";

// Three URIs, two of which can be asked.
const URIS: &[&[u8]] = &[b"http://a/i", b"ftp://b/i", b"http://c/i"];

// What a trial came to, with the size of the image or of the record, or the number of faults.
#[derive(Clone, Copy, PartialEq, Eq)]
enum Told {
    Satisfied,
    Staged(u64),
    TooLarge(u64),
    NoHash,
    NoImage(usize),
    DiskFault,
    Other,
}

fn told_of(trial: &Trial) -> Told {
    match trial {
        Trial::Satisfied => Told::Satisfied,
        Trial::Staged(staged) => Told::Staged(staged.size),
        Trial::Refused(Reason::RecordTooLarge { size }) => Told::TooLarge(*size),
        Trial::Refused(Reason::NoImageHash) => Told::NoHash,
        Trial::Refused(Reason::NoImage { faults }) => Told::NoImage(faults.len()),
        Trial::DiskFault => Told::DiskFault,
        _ => Told::Other,
    }
}

// The version of the boot image that information names, its hash, and the bytes of the configuration.
type Offer = (&'static [u8; 1], Option<[u8; 32]>, usize);

// What a trial came to, how many servers it asked, and whether the image is in its place.
type Outcome = (Told, usize, bool);

// What the trial by the device of this disk comes to, where the servers send these replies.
fn tried(
    alloc: Global,
    disk: &mut MemoryDisk,
    onboarding: &Onboarding,
    replies: &[&[u8]],
) -> Result<Outcome, Fail>
    requires { IfSome onboarding.now.image HasShortNames }
{
    let held = find(alloc, disk)?;
    if held.device.onboarded.is_some() {
        return Err("a device that is committed".into());
    }
    let mut net = servers(alloc, replies, 0)?;
    let evidence = evidence(alloc)?;
    let mut buffer = Reading::create(alloc, Side::Reply, 0)?;
    let trial = try_offer(
        alloc,
        &held,
        disk,
        &mut net,
        onboarding,
        &evidence,
        &WHEN,
        &mut buffer,
    );
    let placed = holds(alloc, disk, 262_144, b"image")?;
    Ok((told_of(&trial), net.past().len(), placed))
}

// What the trial of an offer by a new device comes to, where a call of its disk fails; 0 for none.
fn outcome_of(alloc: Global, offer: Offer, replies: &[&[u8]], fails: u64) -> Result<Outcome, Fail> {
    let (version, hash, configuration) = offer;
    let image = boot_image(alloc, version, texts(alloc, URIS)?, hash)?;
    let onboarding = information(alloc, Some(image), configuration)?;
    let mut disk = disk_of(alloc, Bytes::from_slice(alloc, b"pem")?)?;
    if fails > 0 {
        break_at(alloc, &mut disk, fails)?;
    }
    tried(alloc, &mut disk, &onboarding, replies)
}

// Makes this call of the disk fail, counted behind those that find its device next.
fn break_at(alloc: Global, disk: &mut MemoryDisk, call: u64) -> Result<(), Fail> {
    let before = disk.calls();
    find(alloc, disk)?;
    let finding = disk.calls().saturating_sub(before);
    let failing = disk.calls().saturating_add(finding).saturating_add(call);
    disk.fail_at(calls(alloc, failing)?);
    Ok(())
}

const HASH: Option<[u8; 32]> = Some(digests::IMAGE);

// An offer, what the second server replies, and the outcome. The record of the device has 29 bytes; committed it has 8
// more for a time, 1 for a nonce, 8 for the evidence, 1 for how the configuration is taken, 7 for what is absent and
// for lengths, and the configuration.
static OFFERS: [(Offer, &[u8], Outcome); 5] = [
    ((b"1", HASH, 16_314), GIVES, (Told::Satisfied, 0, false)),
    (
        (b"1", HASH, 16_315),
        GIVES,
        (Told::TooLarge(16_369), 0, false),
    ),
    ((b"2", None, 20_000), GIVES, (Told::NoHash, 0, false)),
    ((b"2", HASH, 20_000), GIVES, (Told::Staged(5), 2, true)),
    ((b"2", HASH, 0), ABSENT, (Told::NoImage(3), 2, false)),
];

#[test]
fn an_offer_is_taken_or_turned_down_for_the_first_reason(rt: HostRuntime) -> Result<(), Fail> {
    for &(offer, reply, wanted) in &OFFERS {
        assert!(rt; outcome_of(rt.alloc(), offer, &[WRONG, reply], 0)? == wanted);
    }
    Ok(())
}

// A call of the disk behind those that find its device, and the outcome where it fails. The second takes the image,
// the third syncs it.
static FAILURES: [(u64, Outcome); 2] = [
    (2, (Told::DiskFault, 1, false)),
    (3, (Told::DiskFault, 1, true)),
];

#[test]
fn a_disk_that_fails_ends_the_trial(rt: HostRuntime) -> Result<(), Fail> {
    for &(call, wanted) in &FAILURES {
        assert!(rt; outcome_of(rt.alloc(), (b"2", HASH, 0), &[GIVES], call)? == wanted);
    }
    Ok(())
}
