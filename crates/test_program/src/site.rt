//! The outside of the program in memory, over which these tests run it.

use std::alloc::Global;
use std::test::Fail;
use std::thread::Threads;
use sz_base::{Bytes, Calls, OutOfMemory, Seconds, Text};
use sz_disk::{Disks, MemoryDisk};
use sz_fixtures::{add_file, base64, calls, folder, identity_file, servers, texts};
use sz_io::{
    Files, MemoryFolder, MemorySink, ScriptListener, ScriptNet, Scripts, SetClock, SetEntropy,
    Times,
};
use sz_lms_tree::OpenGate;
use sz_program::{World, run};
use sz_samples::{
    ANCHOR, IMAGED_ANCHOR, IMAGED_CERTIFICATES, IMAGED_INFORMATION, IMAGED_VOUCHER,
    PINNED_INFORMATION, PINNED_VOUCHER,
};

/// 2025-01-01.
pub(crate) const NOW: Seconds = Seconds(1_735_689_600);

/// A device disk's size: 2 MiB.
pub(crate) const SIZE: u64 = 2_097_152;

/// What stays from one run to the next.
#[derive(Drop)]
pub(crate) struct Site {
    pub(crate) disks: Disks<MemoryDisk>,
    pub(crate) folder: MemoryFolder,
}

/// What a run is given beside its words and its site.
#[derive(Clone, Copy)]
pub(crate) struct Given<'a> {
    /// What servers reply, one connection after the other. An empty reply is lost, each other one ends with a close.
    pub(crate) replies: &'a [&'a [u8]],
    /// The time that the clock tells, if it tells one.
    pub(crate) time: Option<Seconds>,
    /// The random bytes that there are.
    pub(crate) random: &'static [u8],
    /// The number of the network's call that fails, from 1, or 0 for none.
    pub(crate) net_fails: u64,
    /// The number of the write that the output refuses, from 1, or 0 for none.
    pub(crate) out_fails: u64,
}

/// No reply, a clock that tells the time, and random bytes for one nonce.
pub(crate) const ALONE: Given<'static> = Given {
    replies: &[],
    time: Some(NOW),
    random: &[9; 16],
    net_fails: 0,
    out_fails: 0,
};

/// The same with these replies.
pub(crate) fn over<'a>(replies: &'a [&'a [u8]]) -> Given<'a> {
    Given { replies, ..ALONE }
}

// unsigned information with a configuration (RFC 8572 section 3.1)
const UNSIGNED: &[u8] =
    b"\x30\x5c\x06\x0b\x2a\x86\x48\x86\xf7\x0d\x01\x09\x10\x01\x2b\xa0\x4d\x04\x4b\
{\"ietf-sztp-conveyed-info:onboarding-information\":{\"configuration\":\"YQ==\"}}";

// adds the artifacts of the folders of evidence: `u`, whose voucher pins the owner, `i`, with an image, and `p`, which
// is unsigned
fn add_evidence(alloc: Global, files: &mut Files) -> Result<(), Fail> {
    for (path, artifact) in [
        (&b"u/conveyed-information.cms"[..], PINNED_INFORMATION),
        (b"u/ownership-voucher.cms", PINNED_VOUCHER),
        (b"i/conveyed-information.cms", IMAGED_INFORMATION),
        (b"i/owner-certificate.cms", IMAGED_CERTIFICATES),
        (b"i/ownership-voucher.cms", IMAGED_VOUCHER),
    ] {
        add_file(alloc, files, path, base64(alloc, artifact)?.as_slice())?;
    }
    add_file(alloc, files, b"p/conveyed-information.cms", UNSIGNED)?;
    Ok(())
}

/// A folder with the identities `id` and `i.id` of the device A1, the first with the anchor of the evidence under `u`,
/// the second with that of `i`; with that of a device A2, `a2`; with one that is too short, `short`; and with the
/// evidence. The call of this number fails, from 1, or none with 0.
pub(crate) fn device_folder(alloc: Global, fails: u64) -> Result<MemoryFolder, Fail> {
    let mut files = Files::create(alloc);
    for (path, serial, anchor) in [
        (&b"id"[..], &b"A1"[..], ANCHOR),
        (b"i.id", b"A1", IMAGED_ANCHOR),
        (b"a2", b"A2", ANCHOR),
    ] {
        let identity = identity_file(alloc, serial, anchor)?;
        add_file(alloc, &mut files, path, identity.as_slice())?;
    }
    let short = br#"{"serial": "A1", "os-name": "os"}"#;
    add_file(alloc, &mut files, b"short", short)?;
    add_evidence(alloc, &mut files)?;
    Ok(folder(alloc, files, fails)?)
}

/// Fresh disks of these sizes under these words.
pub(crate) fn fresh_disks(
    alloc: Global,
    sizes: &[(&[u8], u64)],
) -> Result<Disks<MemoryDisk>, OutOfMemory> {
    let mut disks = Disks::create(alloc);
    for (word, size) in sizes {
        disks.add(
            Text::from_slice(alloc, word)?,
            MemoryDisk::create(alloc, *size)?,
        )?;
    }
    Ok(disks)
}

/// A site with two fresh device disks, `@d` and `@e`, and one that is too small, `@s`.
pub(crate) fn fresh_site(alloc: Global) -> Result<Site, Fail> {
    Ok(Site {
        disks: fresh_disks(alloc, &[(b"@d", SIZE), (b"@e", SIZE), (b"@s", 2048)])?,
        folder: device_folder(alloc, 0)?,
    })
}

// the clock that tells this time, or none
fn clock(alloc: Global, time: Option<Seconds>) -> Result<SetClock, OutOfMemory> {
    let mut times = Times::create(alloc);
    if let Some(time) = time {
        times.push(time)?;
    }
    Ok(SetClock::create(alloc, times, Calls::create(alloc)))
}

/// What a run on these words prints, its status, and what stays.
pub(crate) fn outcome<R: Threads + Sync>(
    rt: &R,
    alloc: Global,
    words: &[&[u8]],
    given: &Given<'_>,
    site: Site,
) -> Result<(MemorySink, u8, Site), OutOfMemory> {
    let words = texts(alloc, words)?;
    let random = Bytes::from_slice(alloc, given.random)?;
    let mut out = MemorySink::create(alloc, calls(alloc, given.out_fails)?);
    let Site {
        mut disks,
        mut folder,
    } = site;
    let mut world = World {
        disks: &mut disks,
        net: &mut servers(alloc, given.replies, given.net_fails)?,
        listener: &mut ScriptListener::create(alloc, Scripts::create(alloc), Calls::create(alloc)),
        folder: &mut folder,
        clock: &mut clock(alloc, given.time)?,
        entropy: &mut SetEntropy::create(alloc, random, Calls::create(alloc)),
        out: &mut out,
    };
    let status = run(rt, &OpenGate, alloc, words.as_slice(), &mut world);
    Ok((out, status.0, Site { disks, folder }))
}

/// Words, what the run is given, what it prints, and its status.
pub(crate) type Row<'a> = (&'static [&'static [u8]], Given<'a>, &'static [u8], u8);

/// Whether the runs of these rows, one after another, each print their text and end with their status; and what stays.
pub(crate) fn prints<R: Threads + Sync>(
    rt: &R,
    alloc: Global,
    site: Site,
    rows: &[Row<'_>],
) -> Result<(bool, Site), OutOfMemory> {
    let mut site = site;
    let mut all = true;
    for (words, given, text, status) in rows {
        let (out, got, next) = outcome(rt, alloc, words, given, site)?;
        all = all && out.bytes() == *text && got == *status;
        site = next;
    }
    Ok((all, site))
}
