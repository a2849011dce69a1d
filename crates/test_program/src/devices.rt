//! The commands of a device, over disks in memory and evidence that other software made.

use crate::site::{ALONE, Given, Row, SIZE, Site, fresh_site, over, prints};
use std::alloc::Global;
use std::test::Fail;
use std::thread::Threads;
use sz_base::{Evidence, Seconds, Text};
use sz_disk::Disk;
use sz_fixtures::reply;
use sz_rest::write_reply;
use sz_samples::{NONCE_CERTIFICATES, NONCE_INFORMATION, NONCE_VOUCHER};

// a site whose first disk stands for the device A1 as it is made
fn fresh_device<R: Threads + Sync>(rt: &R, alloc: Global) -> Result<Site, Fail> {
    let rows: [Row<'_>; 1] = [(INIT, ALONE, b"initialised A1\n", 0)];
    let (is_made, site) = prints(rt, alloc, fresh_site(alloc)?, &rows)?;
    if !is_made {
        return Err("no device was made".into());
    }
    Ok(site)
}

const INIT: &[&[u8]] = &[b"init", b"id", b"@d"];

const ONBOARD: &[&[u8]] = &[b"onboard", b"@d", b"usb:u"];

const SHOW: &[&[u8]] = &[b"show", b"@d"];

const AUDIT: &[&[u8]] = &[b"audit", b"@d"];

// the clock doesn't tell the time
const UNTOLD: Given<'static> = Given {
    time: None,
    ..ALONE
};

// what `show` prints of the committed device, by the SHA-256 of `hostname a1` and LF
const SHOWN: &[u8] = b"serial A1\nstage onboarded\nrunning os 1\nconfiguration 12 \
    73a0a5f7abd67af09438ba7716aad701880e35133c62daecadfd854c49059d7d\n";

#[test]
fn a_device_is_made_committed_shown_and_audited(rt: HostRuntime) -> Result<(), Fail> {
    let alloc = rt.alloc();
    let rows: [Row<'_>; 15] = [
        (SHOW, ALONE, b"not initialised\n", 40),
        (AUDIT, ALONE, b"not initialised\n", 40),
        (ONBOARD, ALONE, b"not initialised\n", 40),
        (INIT, ALONE, b"initialised A1\n", 0),
        (INIT, ALONE, b"refused: in-use 0\n", 60),
        (&[b"init", b"a2", b"@e"], ALONE, b"initialised A2\n", 0),
        (SHOW, ALONE, b"serial A1\nstage factory\nrunning os 1\n", 0),
        (AUDIT, ALONE, b"nothing committed\n", 0),
        (
            &[b"onboard", b"@d", b"usb:e", b"server:h:80", b"usb:p"],
            ALONE,
            b"source 1 depth 0 usb:e: 2 Absent\nsource 2 depth 0 h:80: 1 Lost\n\
                source 3 depth 0 usb:p: 14 Unsigned\nno source\n",
            20,
        ),
        (ONBOARD, UNTOLD, b"clock fault\n", 31),
        (
            ONBOARD,
            ALONE,
            b"source 1 depth 0 usb:u: accepted\nonboarded A1\n",
            0,
        ),
        (ONBOARD, ALONE, b"already onboarded A1\n", 0),
        (SHOW, ALONE, SHOWN, 0),
        (AUDIT, ALONE, b"configuration authorised\n", 0),
        (
            &[b"onboard", b"@e", b"usb:u"],
            ALONE,
            b"source 1 depth 0 usb:u: 17 WrongSerial\nno source\n",
            20,
        ),
    ];
    let (all, _) = prints(&rt, alloc, fresh_site(alloc)?, &rows)?;
    assert!(rt; all);
    Ok(())
}

// unsigned information that names one server: the host `a`, port 80 (RFC 8572 section 3.1)
const REDIRECT: &[u8] =
    b"\x30\x72\x06\x0b\x2a\x86\x48\x86\xf7\x0d\x01\x09\x10\x01\x2b\xa0\x63\x04\x61\
{\"ietf-sztp-conveyed-info:redirect-information\":{\"bootstrap-server\":[{\"address\":\"a\",\"port\":80}]}}";

#[test]
fn a_server_that_redirects_to_itself_is_left_for_the_next_source(
    rt: HostRuntime,
) -> Result<(), Fail> {
    let alloc = rt.alloc();
    let redirect = Evidence {
        ci: Text::from_slice(alloc, REDIRECT)?,
        oc: None,
        ov: None,
    };
    let redirect = write_reply(alloc, &redirect)?;
    let replies = [redirect.as_slice(); 11];
    let site = fresh_device(&rt, alloc)?;
    let rows: [Row<'_>; 1] = [(
        &[b"onboard", b"@d", b"server:a:80", b"usb:u"],
        over(&replies),
        b"source 1 depth 0 a:80: redirected 1\nsource 1 depth 1 a:80: redirected 1\n\
            source 1 depth 2 a:80: redirected 1\nsource 1 depth 3 a:80: redirected 1\n\
            source 1 depth 4 a:80: redirected 1\nsource 1 depth 5 a:80: redirected 1\n\
            source 1 depth 6 a:80: redirected 1\nsource 1 depth 7 a:80: redirected 1\n\
            source 1 depth 8 a:80: redirected 1\nsource 1 depth 9 a:80: redirected 1\n\
            source 1 depth 10 a:80: 24 Depth\nsource 2 depth 0 usb:u: accepted\nonboarded A1\n",
        0,
    )];
    let (all, _) = prints(&rt, alloc, site, &rows)?;
    assert!(rt; all);
    Ok(())
}

// the first URI of the image is lost, and the second gives it
const IMAGE: Given<'static> = Given {
    replies: &[b"", b"HTTP/1.1 200 OK\r\nContent-Length: 3\r\n\r\nabc"],
    ..ALONE
};

const ONBOARD_IMAGED: &[&[u8]] = &[b"onboard", b"@d", b"usb:i"];

// what `show` prints of the installed device, by the SHA-256 of `abc`, and of the committed one, by that of `a`
const SHOWN_INSTALLED: &[u8] = b"serial A1\nstage installed\nrunning os 2\n\
    image 0 3 ba7816bf8f01cfea414140de5dae2223b00361a396177a9cb410ff61f20015ad\n";

const SHOWN_ONBOARDED: &[u8] = b"serial A1\nstage onboarded\nrunning os 2\n\
    image 0 3 ba7816bf8f01cfea414140de5dae2223b00361a396177a9cb410ff61f20015ad\n\
    configuration 1 ca978112ca1bbdcafac231b39a23dc4da786eff8147c4e72b9807785afee48bb\n";

// the site, whose disk has another byte at the end of the image
fn with_other_image(site: Site) -> Result<Site, Fail> {
    let mut site = site;
    let disk = site.disks.find(b"@d").ok_or("no disk")?;
    if disk.size() != SIZE {
        return Err("a disk of another size".into());
    }
    disk.write_at(SIZE / 4 + 2, b"d")?;
    Ok(site)
}

#[test]
fn an_image_is_installed_at_one_boot_and_the_device_committed_at_the_next(
    rt: HostRuntime,
) -> Result<(), Fail> {
    let alloc = rt.alloc();
    let rows: [Row<'_>; 8] = [
        (&[b"init", b"i.id", b"@d"], ALONE, b"initialised A1\n", 0),
        (
            ONBOARD_IMAGED,
            IMAGE,
            b"source 1 depth 0 usb:i: accepted\ninstalled A1 os 2, restart\n",
            10,
        ),
        (SHOW, ALONE, SHOWN_INSTALLED, 0),
        (AUDIT, ALONE, b"image authorised\n", 0),
        (
            ONBOARD_IMAGED,
            IMAGE,
            b"source 1 depth 0 usb:i: accepted\nonboarded A1\n",
            0,
        ),
        (ONBOARD_IMAGED, IMAGE, b"already onboarded A1\n", 0),
        (SHOW, ALONE, SHOWN_ONBOARDED, 0),
        (
            AUDIT,
            ALONE,
            b"image authorised\nconfiguration authorised\n",
            0,
        ),
    ];
    let (all, site) = prints(&rt, alloc, fresh_site(alloc)?, &rows)?;
    assert!(rt; all);
    let site = with_other_image(site)?;
    let text = b"image other bytes\nconfiguration authorised\n";
    let (all, _) = prints(&rt, alloc, site, &[(AUDIT, ALONE, text, 3)])?;
    assert!(rt; all);
    Ok(())
}

// the last second of the certificates, and of the voucher: 2040-01-01
const END: i64 = 2_208_988_800;

const NONCE: &[u8] = &[0, 1, 2, 3, 4, 5, 6, 7, 8, 9, 10, 11, 12, 13, 14, 15];

const OTHER: &[u8] = &[9; 16];

const ONBOARD_SERVER: &[&[u8]] = &[b"onboard", b"@d", b"server:a:80"];

// these replies, this time and this nonce
fn at<'a>(replies: &'a [&'a [u8]], time: i64, nonce: &'static [u8]) -> Given<'a> {
    Given {
        replies,
        time: Some(Seconds(time)),
        random: nonce,
        ..ALONE
    }
}

#[test]
fn an_offer_is_for_its_time_and_its_nonce(rt: HostRuntime) -> Result<(), Fail> {
    let alloc = rt.alloc();
    let reply = reply(
        alloc,
        NONCE_INFORMATION,
        Some(NONCE_CERTIFICATES),
        NONCE_VOUCHER,
    )?;
    let replies = &[reply.as_slice()];
    let site = fresh_device(&rt, alloc)?;
    let rows: [Row<'_>; 3] = [
        (
            ONBOARD_SERVER,
            at(replies, END, OTHER),
            b"source 1 depth 0 a:80: 18 Nonce\nno source\n",
            20,
        ),
        (
            ONBOARD_SERVER,
            at(replies, END + 1, NONCE),
            b"source 1 depth 0 a:80: 15 NoChain\nno source\n",
            20,
        ),
        (
            ONBOARD_SERVER,
            at(replies, END, NONCE),
            b"source 1 depth 0 a:80: accepted\nonboarded A1\n",
            0,
        ),
    ];
    let (all, site) = prints(&rt, alloc, site, &rows)?;
    assert!(rt; all);
    let text = b"configuration authorised\n";
    let (all, _) = prints(&rt, alloc, site, &[(AUDIT, ALONE, text, 0)])?;
    assert!(rt; all);
    Ok(())
}

// 17 sources
const MANY: &[&[u8]] = &[
    b"onboard", b"@d", b"usb:u", b"usb:u", b"usb:u", b"usb:u", b"usb:u", b"usb:u", b"usb:u",
    b"usb:u", b"usb:u", b"usb:u", b"usb:u", b"usb:u", b"usb:u", b"usb:u", b"usb:u", b"usb:u",
    b"usb:u",
];

#[test]
fn refusals_of_the_commands_of_a_device(rt: HostRuntime) -> Result<(), Fail> {
    let alloc = rt.alloc();
    let rows: [Row<'_>; 18] = [
        (&[b"init", b"id"], ALONE, b"usage\n", 2),
        (&[b"init", b"id", b"d"], ALONE, b"usage\n", 2),
        (&[b"onboard"], ALONE, b"usage\n", 2),
        (&[b"onboard", b"@d"], ALONE, b"usage\n", 2),
        (&[b"onboard", b"@d", b"cd:u"], ALONE, b"usage\n", 2),
        (MANY, ALONE, b"usage\n", 2),
        (&[b"show", b"@"], ALONE, b"usage\n", 2),
        (&[b"init", b"n", b"@n"], ALONE, b"usage\n", 2),
        (&[b"onboard", b"@n", b"dhcp4:n"], ALONE, b"usage\n", 2),
        (
            &[b"onboard", b"@n", b"usb:n", b"dhcp6:n"],
            ALONE,
            b"usage\n",
            2,
        ),
        (&[b"onboard", b"@n", b"dns:n:a"], ALONE, b"usage\n", 2),
        (&[b"init", b"x", b"@n"], ALONE, b"no file: x\n", 33),
        (
            &[b"init", b"short", b"@n"],
            ALONE,
            b"refused: member os-version\n",
            60,
        ),
        (&[b"init", b"id", b"@n"], ALONE, b"no file: @n\n", 33),
        (&[b"init", b"id", b"@s"], ALONE, b"refused: size 2048\n", 60),
        (&[b"audit", b"@s"], ALONE, b"refused: size 2048\n", 60),
        (&[b"onboard", b"@n", b"usb:u"], UNTOLD, b"no file: @n\n", 33),
        (
            &[b"onboard", b"@s", b"usb:u"],
            ALONE,
            b"refused: size 2048\n",
            60,
        ),
    ];
    let (all, _) = prints(&rt, alloc, fresh_site(alloc)?, &rows)?;
    assert!(rt; all);
    Ok(())
}
