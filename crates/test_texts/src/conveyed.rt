//! Conveyed information: the examples as they are read and written, and the first member at fault, by its name.

use crate::conveyed_texts::{
    BARE, BARE_WRITTEN, EMPTY_IMAGE, HASH, NO_URIS, ONBOARDING, REDIRECT, WRITTEN, WRITTEN_REDIRECT,
};
use crate::wanted::{are, fault_of};
use std::alloc::{AllocError, Global};
use std::test::Fail;
use sz_artifacts::{
    Conveyed, Handling, Onboarding, is_onboarding, write_onboarding, write_redirect,
};
use sz_base::{Bytes, Text};
use sz_json::{JsonFault, Name};

/// What a text is.
#[derive(Clone, Copy)]
enum Example {
    Redirect,
    Onboarding,
    Bare,
}

const EXAMPLES: &[(&[u8], Example)] = &[
    (REDIRECT, Example::Redirect),
    (ONBOARDING, Example::Onboarding),
    (BARE, Example::Bare),
];

fn is_text(text: &Option<Text>, want: &[u8]) -> bool {
    match text {
        Some(text) => text.as_slice() == want,
        None => false,
    }
}

fn is_whole(onboarding: &Onboarding) -> bool {
    let Some(image) = &onboarding.image else {
        return false;
    };
    is_text(&image.os_name, b"VendorOS")
        && is_text(&image.os_version, b"17.2R1.6")
        && image.uris.len() == 1
        && image.hash == Some(HASH)
        && onboarding.handling == Handling::Merge
        && is_text(&onboarding.pre, b"foo")
        && is_text(&onboarding.configuration, b"foob")
        && is_text(&onboarding.post, b"")
}

// information without members replaces
fn is_bare(onboarding: &Onboarding) -> bool {
    onboarding.image.is_none()
        && onboarding.handling == Handling::Replace
        && onboarding.pre.is_none()
        && onboarding.configuration.is_none()
        && onboarding.post.is_none()
}

fn is_read(alloc: Global, content: &[u8], example: Example) -> Result<bool, JsonFault> {
    let told = is_onboarding(alloc, content)? != matches!(example, Example::Redirect);
    let read = match (Conveyed::read(alloc, content)?, example) {
        (Conveyed::Redirect(targets), Example::Redirect) => are(
            &targets,
            &[(b"sztp1.example.com", 8443), (b"[2001:db8::1]", 443)],
        ),
        (Conveyed::Onboarding(onboarding), Example::Onboarding) => is_whole(&onboarding),
        (Conveyed::Onboarding(onboarding), Example::Bare) => is_bare(&onboarding),
        _ => false,
    };
    Ok(told && read)
}

#[test]
fn the_examples_are_read(rt: HostRuntime) -> Result<(), JsonFault> {
    for &(content, example) in EXAMPLES {
        assert!(rt; is_read(rt.alloc(), content, example)?);
    }
    Ok(())
}

/// Where a value stands in a content.
#[derive(Clone, Copy)]
enum Place {
    /// As redirect information.
    Redirect,
    /// As the server of redirect information behind a good one.
    Server,
    /// As onboarding information.
    Onboarding,
    /// As the one member of onboarding information.
    Member(Name),
    /// As the one member of a boot image in it.
    ImageMember(Name),
}

// the object of this one member
fn object(alloc: Global, name: Name, value: &str) -> Result<String, AllocError> {
    let name = name.as_str();
    format!(in alloc; r#"{{"{name}":{value}}}"#)
}

fn content(alloc: Global, place: Place, value: &str) -> Result<String, AllocError> {
    match place {
        Place::Redirect => object(alloc, Name::RedirectInformation, value),
        Place::Server => {
            let servers = format!(in alloc; r#"[{{"address":"[::1]"}},{value}]"#)?;
            let inside = object(alloc, Name::BootstrapServer, servers.as_str())?;
            object(alloc, Name::RedirectInformation, inside.as_str())
        }
        Place::Onboarding => object(alloc, Name::OnboardingInformation, value),
        Place::Member(name) => {
            let inside = object(alloc, name, value)?;
            object(alloc, Name::OnboardingInformation, inside.as_str())
        }
        Place::ImageMember(name) => {
            let image = object(alloc, name, value)?;
            let inside = object(alloc, Name::BootImage, image.as_str())?;
            object(alloc, Name::OnboardingInformation, inside.as_str())
        }
    }
}

// the first member at fault of a content with this value at this place
fn fault(alloc: Global, place: Place, value: &str) -> Result<Option<Name>, Fail> {
    let content = content(alloc, place, value)?;
    Ok(fault_of(Conveyed::read(alloc, content.as_bytes()))?)
}

const FAULTS: &[(Place, &str, Option<Name>)] = &[
    (Place::Redirect, "1", Some(Name::RedirectInformation)),
    (Place::Redirect, "{}", Some(Name::BootstrapServer)),
    (
        Place::Redirect,
        r#"{"bootstrap-server":{}}"#,
        Some(Name::BootstrapServer),
    ),
    (
        Place::Redirect,
        r#"{"bootstrap-server":"a"}"#,
        Some(Name::BootstrapServer),
    ),
    (
        Place::Redirect,
        r#"{"bootstrap-server":[]}"#,
        Some(Name::BootstrapServer),
    ),
    (
        Place::Redirect,
        r#"{"bootstrap-server":[1]}"#,
        Some(Name::Address),
    ),
    (
        Place::Redirect,
        r#"{"bootstrap-server":[["a"]]}"#,
        Some(Name::Address),
    ),
    (Place::Server, "null", Some(Name::Address)),
    (Place::Server, r#"{"port":0}"#, Some(Name::Address)),
    (Place::Server, r#"{"address":1}"#, Some(Name::Address)),
    (Place::Server, r#"{"address":""}"#, Some(Name::Address)),
    (Place::Server, r#"{"address":"a b"}"#, Some(Name::Address)),
    (Place::Server, r#"{"address":"[::1"}"#, Some(Name::Address)),
    (
        Place::Server,
        r#"{"address":"a","port":0}"#,
        Some(Name::Port),
    ),
    (
        Place::Server,
        r#"{"address":"a","port":65536}"#,
        Some(Name::Port),
    ),
    (
        Place::Server,
        r#"{"address":"a","port":1.0}"#,
        Some(Name::Port),
    ),
    (
        Place::Server,
        r#"{"address":"a","port":"1"}"#,
        Some(Name::Port),
    ),
    (
        Place::Server,
        r#"{"address":"a","port":65535,"trust-anchor":1}"#,
        None,
    ),
    (Place::Onboarding, "[]", Some(Name::OnboardingInformation)),
    (
        Place::Onboarding,
        r#"{"configuration-handling":1,"boot-image":1}"#,
        Some(Name::BootImage),
    ),
    (
        Place::Onboarding,
        r#"{"configuration":1,"pre-configuration-script":1}"#,
        Some(Name::PreConfigurationScript),
    ),
    (
        Place::Member(Name::ConfigurationHandling),
        r#""Merge""#,
        Some(Name::ConfigurationHandling),
    ),
    (
        Place::Member(Name::PreConfigurationScript),
        r#""Zg""#,
        Some(Name::PreConfigurationScript),
    ),
    (
        Place::Member(Name::Configuration),
        r#""Zh==""#,
        Some(Name::Configuration),
    ),
    (
        Place::Member(Name::PostConfigurationScript),
        r#""Z""#,
        Some(Name::PostConfigurationScript),
    ),
    (
        Place::ImageMember(Name::DownloadUri),
        r#"["a",1]"#,
        Some(Name::DownloadUri),
    ),
    (VERIFICATION, "[1]", Some(Name::HashAlgorithm)),
    (VERIFICATION, "[{}]", Some(Name::HashAlgorithm)),
    (
        VERIFICATION,
        r#"[{"hash-algorithm":1}]"#,
        Some(Name::HashAlgorithm),
    ),
    (
        VERIFICATION,
        r#"[{"hash-algorithm":"sha-256"}]"#,
        Some(Name::HashValue),
    ),
    (
        VERIFICATION,
        r#"[{"hash-algorithm":"sha-256","hash-value":1}]"#,
        Some(Name::HashValue),
    ),
    (
        VERIFICATION,
        r#"[{"hash-algorithm":"sha-256","hash-value":"00"}]"#,
        Some(Name::HashValue),
    ),
    (
        VERIFICATION,
        r#"[{"hash-algorithm":"sha-512"},{}]"#,
        Some(Name::HashAlgorithm),
    ),
    (VERIFICATION, r#"[{"hash-algorithm":"sha-512"}]"#, None),
];

const VERIFICATION: Place = Place::ImageMember(Name::ImageVerification);

#[test]
fn the_first_member_at_fault_is_named(rt: HostRuntime) -> Result<(), Fail> {
    for &(place, value, want) in FAULTS {
        assert!(rt; fault(rt.alloc(), place, value)? == want);
    }
    Ok(())
}

// the members of onboarding information and of a boot image, each with a value in its form
const MEMBERS: &[(Place, Name, &str)] = &[
    (Place::Member(Name::BootImage), Name::BootImage, "{}"),
    (Place::ImageMember(Name::OsName), Name::OsName, r#""""#),
    (
        Place::ImageMember(Name::OsVersion),
        Name::OsVersion,
        r#""""#,
    ),
    (
        Place::ImageMember(Name::DownloadUri),
        Name::DownloadUri,
        "[]",
    ),
    (VERIFICATION, Name::ImageVerification, "[]"),
    (
        Place::Member(Name::ConfigurationHandling),
        Name::ConfigurationHandling,
        r#""merge""#,
    ),
    (
        Place::Member(Name::PreConfigurationScript),
        Name::PreConfigurationScript,
        r#""""#,
    ),
    (
        Place::Member(Name::Configuration),
        Name::Configuration,
        r#""Zg==""#,
    ),
    (
        Place::Member(Name::PostConfigurationScript),
        Name::PostConfigurationScript,
        r#""""#,
    ),
];

fn is_of_one_kind(alloc: Global, place: Place, name: Name, value: &str) -> Result<bool, Fail> {
    for other in ["null", "1", "true"] {
        if fault(alloc, place, other)? != Some(name) {
            return Ok(false);
        }
    }
    Ok(fault(alloc, place, value)?.is_none())
}

#[test]
fn members_are_of_one_kind(rt: HostRuntime) -> Result<(), Fail> {
    for &(place, name, value) in MEMBERS {
        assert!(rt; is_of_one_kind(rt.alloc(), place, name, value)?);
    }
    Ok(())
}

// names of an operating system with so many bytes
const LENGTHS: &[(Name, usize, Option<Name>)] = &[
    (Name::OsName, 256, None),
    (Name::OsName, 257, Some(Name::OsName)),
    (Name::OsVersion, 256, None),
    (Name::OsVersion, 257, Some(Name::OsVersion)),
];

fn fault_of_length(alloc: Global, name: Name, length: usize) -> Result<Option<Name>, Fail> {
    let text = "a".repeat(alloc, length)?;
    let value = format!(in alloc; "\"{text}\"")?;
    fault(alloc, Place::ImageMember(name), value.as_str())
}

#[test]
fn names_have_256_bytes_at_most(rt: HostRuntime) -> Result<(), Fail> {
    for &(name, length, want) in LENGTHS {
        assert!(rt; fault_of_length(rt.alloc(), name, length)? == want);
    }
    Ok(())
}

const OTHERS: &[&[u8]] = &[
    b"",
    b"[]",
    b"{}",
    br#"{"other":1}"#,
    b"{\"ietf-sztp-conveyed-info:onboarding-information\":{},\
    \"ietf-sztp-conveyed-info:redirect-information\":{}}",
];

#[test]
fn contents_have_exactly_one_of_two_members(rt: HostRuntime) {
    for &content in OTHERS {
        assert!(rt;
            is_onboarding(rt.alloc(), content) == Err(JsonFault::Member { name: Name::Json })
        );
    }
}

// a content, and what is written of it
const REWRITTEN: &[(&[u8], &[u8])] = &[
    (ONBOARDING, WRITTEN),
    (WRITTEN, WRITTEN),
    (BARE, BARE_WRITTEN),
    (NO_URIS, EMPTY_IMAGE),
    (REDIRECT, WRITTEN_REDIRECT),
    (WRITTEN_REDIRECT, WRITTEN_REDIRECT),
];

fn rewritten(alloc: Global, content: &[u8]) -> Result<Bytes, JsonFault> {
    match Conveyed::read(alloc, content)? {
        Conveyed::Redirect(targets) => Ok(write_redirect(alloc, &targets)?),
        Conveyed::Onboarding(onboarding) => Ok(write_onboarding(alloc, &onboarding)?),
    }
}

#[test]
fn what_is_read_is_written(rt: HostRuntime) -> Result<(), JsonFault> {
    for &(content, want) in REWRITTEN {
        assert!(rt; rewritten(rt.alloc(), content)?.as_slice() == want);
    }
    Ok(())
}
