//! Keys on disks in memory: made, signed with until none is left, and refused. What is signed is what other software
//! signs with the same SEED and I.

use crate::site::{ALONE, Given, Row, Site, fresh_disks, outcome, prints};
use crate::vector::{MESSAGE, PUBLIC, SIGNATURE};
use std::alloc::Global;
use std::test::Fail;
use std::thread::Threads;
use sz_base::{OutOfMemory, Text};
use sz_fixtures::{add_file, folder};
use sz_io::{Files, Found, read_whole};

// SEED and I of the other software's key
const SECRETS: &[u8] = b"\xc3\xa6\x25\xb3\x47\x46\x30\xa6\x8a\x3f\x99\xcd\x62\x1e\xa5\x17\
    \x9b\xb9\x8b\xa3\xf7\x4d\x84\x2c\x1f\x1e\xfa\x58\xea\x42\x20\xcc\
    \xfe\xb0\xda\xad\xa2\x5d\xaa\xd9\xbf\x7f\x6a\xf5\x55\x3e\xc4\x35";

// random bytes for the secrets of one key: the other software's, any, and none
const DRAWS: Given<'static> = Given {
    random: SECRETS,
    ..ALONE
};

const DRAWS_OTHERS: Given<'static> = Given {
    random: &[7; 48],
    ..ALONE
};

const DRAWS_NONE: Given<'static> = Given {
    random: &[],
    ..ALONE
};

// a site with a fresh disk `@k`, one that is too small, `@s`, and a message `m`
fn fresh_site(alloc: Global) -> Result<Site, OutOfMemory> {
    let mut files = Files::create(alloc);
    add_file(alloc, &mut files, b"m", MESSAGE)?;
    Ok(Site {
        disks: fresh_disks(alloc, &[(b"@k", 2048), (b"@s", 2047)])?,
        folder: folder(alloc, files, 0)?,
    })
}

// whether the site's file at the path has these bytes
fn holds(alloc: Global, site: &mut Site, path: &[u8], bytes: &[u8]) -> Result<bool, OutOfMemory> {
    let path = Text::from_slice(alloc, path)?;
    match read_whole(alloc, &mut site.folder, &path, u64::MAX) {
        Ok(Found::Whole(found)) => Ok(found.as_slice() == bytes),
        _ => Ok(false),
    }
}

const SIGN: &[&[u8]] = &[b"sign", b"m", b"t", b"@k"];

const KEYGEN: &[&[u8]] = &[b"keygen", b"5/8", b"p", b"@k"];

static FIRST_LEAF: [Row<'static>; 3] = [
    (SIGN, ALONE, b"not initialised\n", 40),
    (KEYGEN, DRAWS, b"key 32\n", 0),
    (SIGN, ALONE, b"leaf 0\n", 0),
];

static LAST_LEAF: [Row<'static>; 2] = [
    (SIGN, ALONE, b"leaf 31\n", 0),
    (SIGN, ALONE, b"exhausted: 32 of 32\n", 50),
];

// whether it signs so many times, and what stays
fn signs<R: Threads + Sync>(
    rt: &R,
    alloc: Global,
    site: Site,
    times: u8,
) -> Result<(bool, Site), OutOfMemory> {
    let mut site = site;
    let mut all = true;
    for _ in 0..times {
        let (_, status, next) = outcome(rt, alloc, SIGN, &ALONE, site)?;
        all = all && status == 0;
        site = next;
    }
    Ok((all, site))
}

#[test]
fn a_key_signs_as_other_software_does_until_no_leaf_is_left(rt: HostRuntime) -> Result<(), Fail> {
    let alloc = rt.alloc();
    let (all, mut site) = prints(&rt, alloc, fresh_site(alloc)?, &FIRST_LEAF)?;
    assert!(rt; all);
    assert!(rt; holds(alloc, &mut site, b"p", PUBLIC)?);
    assert!(rt; holds(alloc, &mut site, b"t", SIGNATURE)?);
    let (all, site) = signs(&rt, alloc, site, 30)?;
    assert!(rt; all);
    let (all, _) = prints(&rt, alloc, site, &LAST_LEAF)?;
    assert!(rt; all);
    Ok(())
}

static REFUSED: [Row<'static>; 11] = [
    (KEYGEN, DRAWS, b"key 32\n", 0),
    (KEYGEN, DRAWS_OTHERS, b"refused: in-use\n", 60),
    (
        &[b"keygen", b"5/8", b"q", b"@s"],
        DRAWS_OTHERS,
        b"refused: size 2047\n",
        60,
    ),
    (KEYGEN, DRAWS_NONE, b"entropy fault\n", 34),
    (
        &[b"keygen", b"20/4", b"q", b"@j"],
        DRAWS_NONE,
        b"refused: levels 20/4\n",
        60,
    ),
    (
        &[b"keygen", b"5/8", b"q", b"@j"],
        DRAWS_NONE,
        b"no file: @j\n",
        33,
    ),
    (&[b"keygen", b"5/8", b"q", b"@"], DRAWS_NONE, b"usage\n", 2),
    (&[b"keygen", b"5/8", b"k", b"@k"], DRAWS_NONE, b"usage\n", 2),
    (&[b"sign", b"x", b"k", b"@k"], DRAWS_NONE, b"usage\n", 2),
    (&[b"sign", b"k", b"x", b"@k"], DRAWS_NONE, b"usage\n", 2),
    (
        &[b"sign", b"x", b"t", b"@j"],
        DRAWS_NONE,
        b"no file: x\n",
        33,
    ),
];

#[test]
fn refusals_of_keygen_and_sign(rt: HostRuntime) -> Result<(), Fail> {
    let alloc = rt.alloc();
    let (all, _) = prints(&rt, alloc, fresh_site(alloc)?, &REFUSED)?;
    assert!(rt; all);
    Ok(())
}
