//! Folders and disks, over a file made for the test and over real files.
use crate::scripted::{Fault, Scripted};
use std::alloc::Global;
use std::fs;
use std::io::Read;
use std::os::fd::AsRawFd;
use std::os::unix::fs::symlink;
use std::test::Fail;
use sz_base::{OutOfMemory, Text};
use sz_disk::Disk;
use sz_io::Folder;
use sz_real::{FILE_DISK_SIZE, FileDisk, RealFolder};

fn text(alloc: Global, bytes: &[u8]) -> Result<Text, OutOfMemory> {
    Text::from_slice(alloc, bytes)
}

// A path of this test process alone.
fn own_path(rt: &HostRuntime, name: &str) -> Result<String, Fail> {
    let id = std::process::id(rt.process());
    Ok(format!(in rt.alloc(); "/tmp/sz_real_{id}_{name}")?)
}

// Short and interrupted calls go on, an error midway is a fault, and so is a refused sync. A file is opened once
// for its reads, and once to be written, and then its folder to be synced.
#[test]
fn a_folder_goes_on_or_fails(rt: HostRuntime) -> Result<(), Fail> {
    let path = text(rt.alloc(), b"file")?;
    for (fault, read, written) in [
        (Fault::Nothing, true, true),
        (Fault::Interrupted, true, true),
        (Fault::Midway, false, false),
        (Fault::Sync, true, false),
    ] {
        let runtime = Scripted::create(fault);
        let from = &runtime;
        let mut folder = RealFolder::create(&from, rt.alloc());
        let mut into = [0u8; 8];
        assert!(rt; folder.length(&path) == Ok(Some(8)));
        assert!(rt; folder.read_at(&path, 0, &mut into) == Ok(2));
        assert!(rt; into == *b"co\0\0\0\0\0\0");
        assert!(rt; folder.read_at(&path, 3, &mut into).is_ok() == read);
        assert!(rt; runtime.opened.get() == 1);
        assert!(rt; folder.write(&path, b"12345678").is_ok() == written);
        if written {
            assert!(rt; runtime.opened.get() == 3);
        }
        if fault != Fault::Midway {
            assert!(rt; runtime.bytes.get() == *b"12345678");
        }
    }
    Ok(())
}

// The file is opened once, and its folder once more at the first sync. Once a sync was refused, all is.
#[test]
fn a_disk_goes_on_or_fails(rt: HostRuntime) -> Result<(), Fail> {
    for (fault, read, written, synced) in [
        (Fault::Nothing, true, true, true),
        (Fault::Interrupted, true, true, true),
        (Fault::Midway, false, false, true),
        (Fault::Sync, true, true, false),
    ] {
        let runtime = Scripted::create(fault);
        let from = &runtime;
        let mut disk = FileDisk::create(&from, rt.alloc(), text(rt.alloc(), b"disk")?);
        let mut into = [1u8; 6];
        assert!(rt; disk.size() == FILE_DISK_SIZE);
        assert!(rt; runtime.opened.get() == 0);
        assert!(rt; disk.read(4, &mut into).is_ok() == read);
        if read {
            assert!(rt; into == *b"ents\0\0");
        }
        assert!(rt; disk.write_at(1, b"12345").is_ok() == written);
        if written {
            assert!(rt; runtime.bytes.get() == *b"c12345ts");
        }
        assert!(rt; disk.sync().is_ok() == synced);
        if synced {
            assert!(rt; runtime.opened.get() == 2);
        }
        assert!(rt; disk.sync().is_ok() == synced);
        assert!(rt; runtime.opened.get() == if synced { 2 } else { 1 });
        if read {
            assert!(rt; disk.read(4, &mut into).is_ok() == synced);
        }
    }
    Ok(())
}

// The name is looked at before anything is opened, and what was opened is looked at, too.
#[test]
fn a_plain_file_is_looked_for_twice(rt: HostRuntime) -> Result<(), Fail> {
    for (fault, opened) in [(Fault::FolderNamed, 0), (Fault::FolderOpened, 1)] {
        let runtime = Scripted::create(fault);
        let from = &runtime;
        let mut folder = RealFolder::create(&from, rt.alloc());
        assert!(rt; folder.length(&text(rt.alloc(), b"file")?).is_err());
        assert!(rt; runtime.opened.get() == opened);
    }
    Ok(())
}

#[test]
fn what_is_no_plain_file_is_a_fault(rt: HostRuntime) -> Result<(), Fail> {
    let (reader, _writer) = std::io::pipe(&rt)?;
    let pipe = format!(in rt.alloc(); "/proc/self/fd/{}", reader.as_raw_fd())?;
    let mut folder = RealFolder::create(&rt, rt.alloc());
    for path in [
        b"/".as_slice(),
        b"/dev/null",
        b"/proc/version",
        b"/dev/null/below",
        b"\xFF",
        pipe.as_bytes(),
    ] {
        let path = text(rt.alloc(), path)?;
        let mut into = [0u8; 4];
        assert!(rt; folder.length(&path).is_err());
        assert!(rt; folder.read_at(&path, 0, &mut into).is_err());
        assert!(rt; folder.write(&path, b"bytes").is_err());
    }
    Ok(())
}

#[test]
fn a_link_to_nothing_is_no_file(rt: HostRuntime) -> Result<(), Fail> {
    let link = own_path(&rt, "link")?;
    symlink(&rt, "nothing_there", &link)?;
    let mut folder = RealFolder::create(&rt, rt.alloc());
    let mut into = [0u8; 4];
    for path in [link.as_bytes(), b"nothing_there", b""] {
        let path = text(rt.alloc(), path)?;
        assert!(rt; folder.length(&path) == Ok(None));
        assert!(rt; folder.read_at(&path, 0, &mut into) == Ok(0));
    }
    fs::remove_file(&rt, &link)?;
    Ok(())
}

// A file that gets the name meanwhile is not read, and one that was cut is not filled up.
#[test]
fn the_file_that_was_opened_is_read(rt: HostRuntime) -> Result<(), Fail> {
    let (name, other) = (own_path(&rt, "name")?, own_path(&rt, "other")?);
    let path = text(rt.alloc(), name.as_bytes())?;
    let mut folder = RealFolder::create(&rt, rt.alloc());
    let mut into = [0u8; 8];
    folder.write(&path, b"the first")?;
    assert!(rt; folder.length(&path) == Ok(Some(9)));
    fs::write(&rt, &other, "another")?;
    fs::rename(&rt, &other, &name)?;
    assert!(rt; folder.read_at(&path, 4, &mut into) == Ok(5));
    assert!(rt; into == *b"first\0\0\0");
    assert!(rt; folder.read_at(&path, 9, &mut into) == Ok(0));
    assert!(rt; folder.length(&path) == Ok(Some(7)));
    fs::write(&rt, &name, "cut")?;
    assert!(rt; folder.read_at(&path, 1, &mut into) == Ok(2));
    fs::remove_file(&rt, &name)?;
    Ok(())
}

#[test]
fn a_disk_is_one_process_alone(rt: HostRuntime) -> Result<(), Fail> {
    let name = own_path(&rt, "disk")?;
    let mut into = [1u8; 4];
    let mut first = FileDisk::create(&rt, rt.alloc(), text(rt.alloc(), name.as_bytes())?);
    assert!(rt; !fs::exists(&rt, &name)?);
    first.read(FILE_DISK_SIZE - 4, &mut into)?;
    assert!(rt; into == [0; 4]);
    first.write_at(70_000, b"far")?;
    first.sync()?;
    let metadata = fs::metadata(&rt, &name)?;
    assert!(rt; metadata.len() == 70_003);
    let mut folder = RealFolder::create(&rt, rt.alloc());
    assert!(rt;
        folder
            .write(&text(rt.alloc(), name.as_bytes())?, b"over")
            .is_err()
    );
    assert!(rt; fs::metadata(&rt, &name)?.len() == 70_003);
    let mut second = FileDisk::create(&rt, rt.alloc(), text(rt.alloc(), name.as_bytes())?);
    assert!(rt; second.read(0, &mut into).is_err());
    drop(first);
    assert!(rt; second.write_at(0, b"late").is_err());
    assert!(rt; second.sync().is_err());
    let mut third = FileDisk::create(&rt, rt.alloc(), text(rt.alloc(), name.as_bytes())?);
    third.read(70_001, &mut into)?;
    assert!(rt; into == *b"ar\0\0");
    fs::remove_file(&rt, &name)?;
    Ok(())
}
