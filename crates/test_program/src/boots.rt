//! Boots over which the power is cut, and boots of which a call fails, at each call in turn: the device is as before or
//! as after, and two more boots commit it.

use crate::site::{Site, device_folder, fresh_site, outcome, over};
use std::alloc::Global;
use std::mem;
use std::test::Fail;
use std::thread::Threads;
use sz_base::OutOfMemory;
use sz_disk::MemoryDisk;
use sz_fixtures::{calls, reply};
use sz_samples::{IMAGED_CERTIFICATES, IMAGED_INFORMATION, IMAGED_VOUCHER};

// What comes over a boot at one of its calls, which are counted from 1 for the disk, the network and the folder each.
#[derive(Clone, Copy)]
enum Disturbance {
    // nothing
    None,
    // the power is cut at a call of the disk, and this choice picks what it leaves
    Cut { call: u64, choice: u64 },
    // a call fails
    Disk(u64),
    Net(u64),
    Folder(u64),
}

// the words of each boot: its evidence is in the folder, and the server has it too
const ONBOARD: &[&[u8]] = &[b"onboard", b"@d", b"usb:i", b"server:a:80"];

const GIVES: &[u8] = b"HTTP/1.1 200 OK\r\nContent-Length: 3\r\n\r\nabc";

// how far the device of the disk `@d` has come, as `show` prints it
#[derive(Clone, Copy, Debug, PartialEq)]
enum Stage {
    Factory,
    Installed,
    Onboarded,
    Unreadable,
}

const FACTORY: &[u8] = b"serial A1\nstage factory\nrunning os 1\n";

const INSTALLED: &[u8] = b"serial A1\nstage installed\nrunning os 2\n\
    image 0 3 ba7816bf8f01cfea414140de5dae2223b00361a396177a9cb410ff61f20015ad\n";

const ONBOARDED: &[u8] = b"serial A1\nstage onboarded\nrunning os 2\n\
    image 0 3 ba7816bf8f01cfea414140de5dae2223b00361a396177a9cb410ff61f20015ad\n\
    configuration 1 ca978112ca1bbdcafac231b39a23dc4da786eff8147c4e72b9807785afee48bb\n";

// what `show` prints of the device that the evidence under `u` commits, by the SHA-256 of `hostname a1` and LF
const COMMITTED: &[u8] = b"serial A1\nstage onboarded\nrunning os 1\nconfiguration 12 \
    73a0a5f7abd67af09438ba7716aad701880e35133c62daecadfd854c49059d7d\n";

fn stage_of(shown: &[u8]) -> Stage {
    if shown == FACTORY {
        Stage::Factory
    } else if shown == INSTALLED {
        Stage::Installed
    } else if shown == ONBOARDED || shown == COMMITTED {
        Stage::Onboarded
    } else {
        Stage::Unreadable
    }
}

// a run on these words over a server with this reply, and with the image behind it
fn ran<R: Threads + Sync>(
    rt: &R,
    alloc: Global,
    words: &[&[u8]],
    reply: &[u8],
    at: Disturbance,
    site: Site,
) -> Result<(Stage, u8, Site), OutOfMemory> {
    let replies = [reply, GIVES];
    let mut given = over(&replies);
    if let Disturbance::Net(call) = at {
        given.net_fails = call;
    }
    let (out, status, site) = outcome(rt, alloc, words, &given, site)?;
    Ok((stage_of(out.bytes()), status, site))
}

// the site, whose disk and folder are disturbed so
fn disturbed(alloc: Global, at: Disturbance, site: Site) -> Result<Site, Fail> {
    let Site {
        mut disks,
        folder: _,
    } = site;
    let fails = match at {
        Disturbance::Folder(call) => call,
        _ => 0,
    };
    if let Some(disk) = disks.find(b"@d") {
        match at {
            Disturbance::Cut { call, choice } => disk.cut_at(call, choice),
            Disturbance::Disk(call) => disk.fail_at(calls(alloc, call)?),
            _ => {}
        }
    }
    Ok(Site {
        disks,
        folder: device_folder(alloc, fails)?,
    })
}

// the site, whose disk is powered up
fn powered_up(alloc: Global, site: Site) -> Result<Site, OutOfMemory> {
    let mut site = site;
    let empty = MemoryDisk::create(alloc, 0)?;
    if let Some(disk) = site.disks.find(b"@d") {
        let cut = mem::replace(disk, empty);
        *disk = cut.power_up();
    }
    Ok(site)
}

// a boot that is disturbed so, and the power is cut behind it: how far the device has come, and the boot's status
fn boot<R: Threads + Sync>(
    rt: &R,
    alloc: Global,
    reply: &[u8],
    at: Disturbance,
    site: Site,
) -> Result<(Stage, u8, Site), Fail> {
    let site = disturbed(alloc, at, site)?;
    let (_, status, site) = ran(rt, alloc, ONBOARD, reply, at, site)?;
    let site = powered_up(alloc, site)?;
    let (stage, _, site) = ran(rt, alloc, &[b"show", b"@d"], b"", Disturbance::None, site)?;
    Ok((stage, status, site))
}

// What a boot makes of a device: from this stage to that one, with this status.
#[derive(Clone, Copy)]
struct Effect {
    before: Stage,
    after: Stage,
    status: u8,
}

const INSTALLS: Effect = Effect {
    before: Stage::Factory,
    after: Stage::Installed,
    status: 10,
};

const ONBOARDS: Effect = Effect {
    before: Stage::Installed,
    after: Stage::Onboarded,
    status: 0,
};

// a site with a device at the stage before the boot
fn site_before<R: Threads + Sync>(
    rt: &R,
    alloc: Global,
    reply: &[u8],
    of: Effect,
) -> Result<Site, Fail> {
    let words: &[&[u8]] = &[b"init", b"i.id", b"@d"];
    let (_, _, site) = ran(
        rt,
        alloc,
        words,
        reply,
        Disturbance::None,
        fresh_site(alloc)?,
    )?;
    if of.before == Stage::Factory {
        return Ok(powered_up(alloc, site)?);
    }
    let (_, _, site) = boot(rt, alloc, reply, Disturbance::None, site)?;
    Ok(site)
}

// the boot, disturbed so, leaves the device before or after, the first only where it ended otherwise; and then two
// undisturbed boots commit it
fn is_safe<R: Threads + Sync>(
    rt: &R,
    alloc: Global,
    reply: &[u8],
    of: Effect,
    at: Disturbance,
) -> Result<bool, Fail> {
    let site = site_before(rt, alloc, reply, of)?;
    let (stage, status, site) = boot(rt, alloc, reply, at, site)?;
    let is_one = stage == of.after || (stage == of.before && status != of.status);
    let (_, _, site) = boot(rt, alloc, reply, Disturbance::None, site)?;
    let (stage, status, _) = boot(rt, alloc, reply, Disturbance::None, site)?;
    Ok(is_one && stage == Stage::Onboarded && status == 0)
}

// the boot, disturbed at this call of the disk, the network or the folder, is safe
fn is_safe_at<R: Threads + Sync>(
    rt: &R,
    alloc: Global,
    reply: &[u8],
    of: Effect,
    call: u64,
) -> Result<bool, Fail> {
    let mut all = true;
    for at in [
        Disturbance::Cut { call, choice: 0 },
        Disturbance::Cut { call, choice: 1 },
        Disturbance::Cut { call, choice: 2 },
        Disturbance::Cut { call, choice: 4 },
        Disturbance::Disk(call),
        Disturbance::Net(call),
        Disturbance::Folder(call),
    ] {
        all = all && is_safe(rt, alloc, reply, of, at)?;
    }
    Ok(all)
}

// a number of calls that no boot of these tests reaches
const CALLS: u64 = 18;

#[test]
fn a_boot_leaves_the_device_before_or_after(rt: HostRuntime) -> Result<(), Fail> {
    let alloc = rt.alloc();
    let reply = reply(
        alloc,
        IMAGED_INFORMATION,
        Some(IMAGED_CERTIFICATES),
        IMAGED_VOUCHER,
    )?;
    for of in [INSTALLS, ONBOARDS] {
        for call in 1..=CALLS {
            assert!(rt; is_safe_at(&rt, alloc, reply.as_slice(), of, call)?);
        }
    }
    Ok(())
}

// how far a device as it was made has come, once the power is cut so over a boot that commits it
fn stage_after_cut<R: Threads + Sync>(
    rt: &R,
    alloc: Global,
    call: u64,
    choice: u64,
) -> Result<Stage, Fail> {
    let none = Disturbance::None;
    let init: &[&[u8]] = &[b"init", b"id", b"@d"];
    let (_, _, site) = ran(rt, alloc, init, b"", none, fresh_site(alloc)?)?;
    let site = powered_up(alloc, site)?;
    let site = disturbed(alloc, Disturbance::Cut { call, choice }, site)?;
    let onboard: &[&[u8]] = &[b"onboard", b"@d", b"usb:u"];
    let (_, _, site) = ran(rt, alloc, onboard, b"", none, site)?;
    let site = powered_up(alloc, site)?;
    let (stage, _, _) = ran(rt, alloc, &[b"show", b"@d"], b"", none, site)?;
    Ok(stage)
}

// the first call of the disk at which a cut that keeps all that was written leaves the device committed: it opens the
// gate of the slot
fn gate_call<R: Threads + Sync>(rt: &R, alloc: Global) -> Result<Option<u64>, Fail> {
    for call in 1..=CALLS {
        if stage_after_cut(rt, alloc, call, 1)? == Stage::Onboarded {
            return Ok(Some(call));
        }
    }
    Ok(None)
}

#[test]
fn a_device_is_committed_once_its_gate_is_written(rt: HostRuntime) -> Result<(), Fail> {
    let alloc = rt.alloc();
    let gate = gate_call(&rt, alloc)?.ok_or("no call opens the gate")?;
    assert!(rt; stage_after_cut(&rt, alloc, gate, 0)? == Stage::Factory);
    Ok(())
}
