//! The texts on both sides of each form of a source.

use crate::wanted::is_at;
use std::alloc::Global;
use sz_base::BaseFault;
use sz_source::{Item, Source};

/// A source, as its parts.
#[derive(Clone, Copy)]
enum Parts {
    Usb(&'static [u8]),
    Dhcp4(&'static [u8]),
    Dhcp6(&'static [u8]),
    /// A path and a domain.
    Dns(&'static [u8], &'static [u8]),
    /// A host and a port.
    Server(&'static [u8], u16),
}

const SOURCES: &[(&[u8], Parts)] = &[
    (b"usb:/a/b", Parts::Usb(b"/a/b")),
    (b"usb:a:b", Parts::Usb(b"a:b")),
    (b"dhcp4:a", Parts::Dhcp4(b"a")),
    (b"dhcp6:usb:\xff", Parts::Dhcp6(b"usb:\xff")),
    (b"dns:a:b.c", Parts::Dns(b"a", b"b.c")),
    (b"dns:a:b:c", Parts::Dns(b"a:b", b"c")),
    (b"dns:::a", Parts::Dns(b":", b"a")),
    (b"dns:a.:.b", Parts::Dns(b"a.", b".b")),
    (b"server:sim:80", Parts::Server(b"sim", 80)),
    (b"server:[::1]:8443", Parts::Server(b"[::1]", 8443)),
];

fn is_source(source: &Source, parts: Parts) -> bool {
    match (source, parts) {
        (Source::Usb(path), Parts::Usb(want)) => path.as_slice() == want,
        (Source::Dhcp4(path), Parts::Dhcp4(want)) => path.as_slice() == want,
        (Source::Dhcp6(path), Parts::Dhcp6(want)) => path.as_slice() == want,
        (Source::Dns { path, domain }, Parts::Dns(want, under)) => {
            path.as_slice() == want && domain.as_slice() == under
        }
        (Source::Server(target), Parts::Server(host, port)) => is_at(target, host, port),
        _ => false,
    }
}

fn is_first(item: &Item, parts: Parts) -> bool {
    match (item, parts) {
        (Item::Folder(path), Parts::Usb(want)) => path.as_slice() == want,
        (Item::File(path), Parts::Dhcp4(want) | Parts::Dhcp6(want) | Parts::Dns(want, _)) => {
            path.as_slice() == want
        }
        (Item::At(target), Parts::Server(host, port)) => is_at(target, host, port),
        _ => false,
    }
}

fn is_read(alloc: Global, word: &[u8], parts: Parts) -> Result<bool, BaseFault> {
    let source = Source::read(alloc, word)?;
    let item = source.item(alloc)?.copy(alloc)?;
    Ok(is_source(&source, parts) && is_first(&item, parts))
}

#[test]
fn sources_are_read_by_their_form(rt: HostRuntime) -> Result<(), BaseFault> {
    for &(word, parts) in SOURCES {
        assert!(rt; is_read(rt.alloc(), word, parts)?);
    }
    Ok(())
}

const OTHERS: &[&[u8]] = &[
    b"",
    b"usb",
    b"usb:",
    b"USB:a",
    b"dhcp:a",
    b"dhcp4:",
    b"dhcp5:a",
    b"dns:a",
    b"dns:a:",
    b"dns::a",
    b"dns:a:.",
    b"dns:a:b.c.",
    b"server:sim",
    b"server:sim:0",
];

#[test]
fn other_texts_are_refused(rt: HostRuntime) {
    for &word in OTHERS {
        assert!(rt; Source::read(rt.alloc(), word).err() == Some(BaseFault::Form));
    }
}
