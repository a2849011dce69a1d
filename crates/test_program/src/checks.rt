//! Checks of a signature that other software made, and the words and faults of the command.

use crate::site::{ALONE, Given, Row, Site, prints};
use crate::vector::{MESSAGE, PUBLIC, SIGNATURE};
use std::alloc::Global;
use std::test::Fail;
use sz_base::OutOfMemory;
use sz_disk::Disks;
use sz_fixtures::{add_file, folder, joined};
use sz_io::Files;

const WORDS: &[&[u8]] = &[b"check", b"p", b"m", b"s"];

// a site without disks, and with the public key under `p`, the message under `m` and the signature under `s`, whose
// folder fails at this call
fn site<'a>(
    alloc: Global,
    message: &'a [u8],
    signature: &'a [u8],
    fails: u64,
) -> Result<Site, OutOfMemory> {
    let mut files = Files::create(alloc);
    for (path, bytes) in [(b"p", PUBLIC), (b"m", message), (b"s", signature)] {
        add_file(alloc, &mut files, path, bytes)?;
    }
    Ok(Site {
        disks: Disks::create(alloc),
        folder: folder(alloc, files, fails)?,
    })
}

#[test]
fn a_signature_of_other_software_is_valid_for_its_message_alone(
    rt: HostRuntime,
) -> Result<(), Fail> {
    let alloc = rt.alloc();
    let longer = joined(alloc, &[SIGNATURE, b"\0"])?;
    let table: [(&[u8], &[u8], &'static [u8], u8); 4] = [
        (MESSAGE, SIGNATURE, b"valid\n", 0),
        (MESSAGE, &SIGNATURE[..1295], b"not valid: length\n", 3),
        (MESSAGE, longer.as_slice(), b"not valid: length\n", 3),
        (b"lessage of one-h5w8\n", SIGNATURE, b"not valid: root\n", 3),
    ];
    for (message, signature, line, status) in table {
        let site = site(alloc, message, signature, 0)?;
        let (all, _) = prints(&rt, alloc, site, &[(WORDS, ALONE, line, status)])?;
        assert!(rt; all);
    }
    Ok(())
}

// an output that refuses the line
const SHUT: Given<'static> = Given {
    out_fails: 1,
    ..ALONE
};

// the call of the folder that fails, or 0, and the row
static ROWS: [(u64, Row<'static>); 13] = [
    (0, (&[], ALONE, b"usage\n", 2)),
    (0, (&[b"check", b"p", b"m"], ALONE, b"usage\n", 2)),
    (
        0,
        (&[b"check", b"p", b"m", b"s", b"s"], ALONE, b"usage\n", 2),
    ),
    (0, (&[b"verify", b"p", b"m", b"s"], ALONE, b"usage\n", 2)),
    (0, (&[b"check", b"--help"], ALONE, b"usage\n", 2)),
    (0, (&[b"check", b"p", b"m", b"-s"], ALONE, b"usage\n", 2)),
    (0, (&[b"check", b"p", b"m", b"\xff"], ALONE, b"usage\n", 2)),
    (
        0,
        (&[b"check", b"--", b"p", b"m", b"s"], ALONE, b"valid\n", 0),
    ),
    (
        0,
        (
            &[b"check", b"p", b"m", b"p"],
            ALONE,
            b"not valid: levels\n",
            3,
        ),
    ),
    (
        0,
        (
            &[b"check", b"missing.pub", b"m", b"s"],
            ALONE,
            b"no file: missing.pub\n",
            33,
        ),
    ),
    (4, (WORDS, ALONE, b"file fault: s\n", 33)),
    (6, (WORDS, ALONE, b"file fault: m\n", 33)),
    (0, (WORDS, SHUT, b"", 32)),
];

#[test]
fn words_and_faults_have_their_line_and_status(rt: HostRuntime) -> Result<(), Fail> {
    let alloc = rt.alloc();
    for &(fails, row) in &ROWS {
        let site = site(alloc, MESSAGE, SIGNATURE, fails)?;
        let (all, _) = prints(&rt, alloc, site, &[row])?;
        assert!(rt; all);
    }
    Ok(())
}
