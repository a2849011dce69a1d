//! Folders with artifacts and messages, and what they give.

use std::alloc::Global;
use sz_base::{Bytes, Evidence, OutOfMemory, Serial, Text};
use sz_fixtures::folder;
use sz_io::{Files, MemoryFolder};
use sz_visit::{FileFault, read_message, read_storage};

// The files of storage, those in the device's own folder first.
static PATHS: [&[u8]; 6] = [
    b"usb/A1/conveyed-information.cms",
    b"usb/A1/owner-certificate.cms",
    b"usb/A1/ownership-voucher.cms",
    b"usb/conveyed-information.cms",
    b"usb/owner-certificate.cms",
    b"usb/ownership-voucher.cms",
];

const MOST_ARTIFACT: usize = 1_048_576;

const MOST_MESSAGE: usize = 65_535;

// A folder with a file of so many bytes at each path that has some, which fails at one call.
fn folder_of(alloc: Global, sizes: [usize; 6], fails: u64) -> Result<MemoryFolder, OutOfMemory> {
    let mut files = Files::create(alloc);
    for (path, size) in PATHS.iter().zip(sizes) {
        if size > 0 {
            let bytes = Bytes::from_vec(vec![in alloc; 7u8; size]?);
            files.push((Text::from_slice(alloc, path)?, bytes))?;
        }
    }
    folder(alloc, files, fails)
}

// How large the artifacts are that storage gives.
type Sizes = Result<[usize; 3], FileFault>;

const OVER: Sizes = Err(FileFault::TooLarge { limit: 1_048_576 });

// The sizes of the files, the call of the folder that fails, and what storage gives.
static STORAGES: [([usize; 6], u64, Sizes); 12] = [
    ([1, 2, 3, 4, 5, 6], 0, Ok([1, 2, 3])),
    ([1, 0, 3, 4, 5, 6], 0, Ok([1, 0, 3])),
    ([0, 2, 3, 4, 0, 0], 0, Ok([4, 0, 0])),
    ([0, 2, 3, 4, 5, 6], 0, Ok([4, 5, 6])),
    ([0, 2, 3, 0, 5, 6], 0, Err(FileFault::Absent)),
    ([MOST_ARTIFACT, 0, 0, 0, 0, 0], 0, Ok([MOST_ARTIFACT, 0, 0])),
    ([MOST_ARTIFACT + 1, 0, 0, 4, 0, 0], 0, OVER),
    ([1, MOST_ARTIFACT + 1, 0, 4, 0, 0], 0, OVER),
    ([1, 0, MOST_ARTIFACT + 1, 4, 0, 0], 0, OVER),
    ([1, 0, 0, MOST_ARTIFACT + 1, 0, 0], 0, Ok([1, 0, 0])),
    ([1, 2, 3, 4, 5, 6], 1, Err(FileFault::Lost)),
    ([0, 2, 3, 4, 5, 6], 2, Err(FileFault::Lost)),
];

fn storage(alloc: Global, sizes: [usize; 6], fails: u64) -> Sizes {
    let mut folder = folder_of(alloc, sizes, fails)?;
    let path = Text::from_slice(alloc, b"usb")?;
    let Ok(serial) = Serial::read(alloc, b"A1") else {
        return Err(FileFault::OutOfMemory);
    };
    let evidence = read_storage(alloc, &mut folder, &path, &serial)?;
    Ok(sizes_of(&evidence))
}

fn sizes_of(evidence: &Evidence) -> [usize; 3] {
    [
        evidence.ci.len(),
        evidence.oc.as_ref().map_or(0, |oc| oc.len()),
        evidence.ov.as_ref().map_or(0, |ov| ov.len()),
    ]
}

#[test]
fn the_folder_named_as_the_serial_number_comes_first(rt: HostRuntime) {
    for &(sizes, fails, given) in &STORAGES {
        assert!(rt; storage(rt.alloc(), sizes, fails) == given);
    }
}

// How large the message of a file is, and what is read of it.
static MESSAGES: [(usize, Result<usize, FileFault>); 4] = [
    (0, Err(FileFault::Absent)),
    (1, Ok(1)),
    (MOST_MESSAGE, Ok(MOST_MESSAGE)),
    (MOST_MESSAGE + 1, Err(FileFault::TooLarge { limit: 65_535 })),
];

fn message(alloc: Global, size: usize) -> Result<usize, FileFault> {
    let mut folder = folder_of(alloc, [0, 0, 0, size, 0, 0], 0)?;
    let path = Text::from_slice(alloc, PATHS[3])?;
    Ok(read_message(alloc, &mut folder, &path)?.len())
}

#[test]
fn messages_have_at_most_so_many_bytes(rt: HostRuntime) {
    for &(size, read) in &MESSAGES {
        assert!(rt; message(rt.alloc(), size) == read);
    }
}
