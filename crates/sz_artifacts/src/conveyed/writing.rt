//! The writers of conveyed information.

ghost use Rattle.std.specs.Prelude.{◌≡◌, ◌<◌, ◌++◌, ◌∷◌, map, option_map, string_bytes, IfOk, IfSome, IsUtf8, OnOk};
ghost use Rattle.std.specs.List.{All, flat_map};
ghost use Rattle.std.specs.Option.{option_copied};
ghost use Rattle.serde_json.specs.Data.{array};
ghost use Rattle.serde_json.specs.View.{items_of, view};
ghost use Rattle.sz_artifacts.specs.Onboarding.{handling_text};
ghost use Rattle.serde_json.specs.Written.{compact_text};
ghost use Rattle.sz_artifacts.specs.WrittenInformation.{AreTexts, colon_text, HasTexts, image_value, information_value, lower_digit, onboarding_value, pair_text, ReadsBack, redirect_value, server_value, texts_value, uris_value, verification_value};
ghost use Rattle.sz_artifacts.specs.declared.conveyed.Conveyed.TheVariants.{Redirect, Onboarding as Information};

use crate::{BootImage, Handling, Onboarding};
use std::alloc::Global;
use sz_base::{Bytes, OutOfMemory, Target, Targets, Text, Texts};
use sz_json::{Name, Object, Value, single, write};

/// Writes onboarding information as compact JSON, with the members of each object in the byte order of their names.
pub fn write_onboarding(alloc: Global, onboarding: &Onboarding) -> Result<Bytes, OutOfMemory>
    requires { HasTexts onboarding.now }
    ensures written { IfOk result (λ bytes. bytes ≡ compact_text (onboarding_value onboarding.now)) }
    ensures reads_back { IfOk result (ReadsBack (Information onboarding.now)) }
{
    let value = onboarding_object(alloc, onboarding)?;
    write(alloc, &value)
}

/// Writes redirect information likewise.
pub fn write_redirect(alloc: Global, targets: &Targets) -> Result<Bytes, OutOfMemory>
    ensures written { IfOk result (λ bytes. bytes ≡ compact_text (redirect_value targets.now)) }
    ensures reads_back { IfOk result (ReadsBack (Redirect targets.now)) }
{
    let value = redirect_object(alloc, targets)?;
    write(alloc, &value)
}

fn redirect_object(alloc: Global, targets: &Targets) -> Result<Value, OutOfMemory>
    ensures { IfOk result (λ value. view value ≡ redirect_value targets.now) }
{
    let servers = servers(alloc, targets)?;
    let information = single(alloc, Name::BootstrapServer, servers)?;
    single(alloc, Name::RedirectInformation, information)
}

fn onboarding_object(alloc: Global, onboarding: &Onboarding) -> Result<Value, OutOfMemory>
    requires { HasTexts onboarding.now }
    ensures { IfOk result (λ value. view value ≡ onboarding_value onboarding.now) }
{
    let information = information(alloc, onboarding)?;
    single(alloc, Name::OnboardingInformation, information)
}

fn information(alloc: Global, onboarding: &Onboarding) -> Result<Value, OutOfMemory>
    requires { HasTexts onboarding.now }
    ensures { IfOk result (λ value. view value ≡ information_value onboarding.now) }
{
    let mut object = Object::create(alloc);
    object.put_optional(
        alloc,
        Name::BootImage,
        boot_image(alloc, &onboarding.image)?,
    )?;
    object.put_text(
        alloc,
        Name::ConfigurationHandling,
        handling(onboarding.handling),
    )?;
    object.put_optional_binary(alloc, Name::PreConfigurationScript, onboarding.pre.as_ref())?;
    object.put_optional_binary(
        alloc,
        Name::Configuration,
        onboarding.configuration.as_ref(),
    )?;
    object.put_optional_binary(
        alloc,
        Name::PostConfigurationScript,
        onboarding.post.as_ref(),
    )?;
    Ok(object.into_value())
}

fn boot_image(alloc: Global, image: &Option<BootImage>) -> Result<Option<Value>, OutOfMemory>
    requires { IfSome image.now AreTexts }
    ensures { IfOk result (λ value. option_map view value ≡ option_map image_value image.now) }
{
    match image {
        Some(image) => Ok(Some(image_of(alloc, image)?)),
        None => Ok(None),
    }
}

fn image_of(alloc: Global, image: &BootImage) -> Result<Value, OutOfMemory>
    requires { AreTexts image.now }
    ensures { IfOk result (λ value. view value ≡ image_value image.now) }
{
    let mut object = Object::create(alloc);
    object.put_optional_text(alloc, Name::OsName, optional_str(&image.os_name))?;
    object.put_optional_text(alloc, Name::OsVersion, optional_str(&image.os_version))?;
    object.put_optional(alloc, Name::DownloadUri, uris(alloc, &image.uris)?)?;
    object.put_optional(
        alloc,
        Name::ImageVerification,
        verification(alloc, &image.hash)?,
    )?;
    Ok(object.into_value())
}

// the text where there is one
fn optional_str(text: &Option<Text>) -> Option<&str>
    requires { IfSome text.now IsUtf8 }
    ensures { option_copied result ≡ text.now }
{
    match text {
        Some(text) => Some(as_str(text)),
        None => None,
    }
}

// the text, which is UTF-8
fn as_str(text: &Text) -> &str
    requires { IsUtf8 text.now }
    ensures { result.now ≡ text.now }
{
    match str::from_utf8(text.as_slice()) {
        Ok(text) => text,
        Err(_) => unreachable!(),
    }
}

fn handling(handling: Handling) -> &'static str
    ensures { result.now ≡ handling_text handling }
{
    match handling {
        Handling::Merge => "merge",
        Handling::Replace => "replace",
    }
}

fn uris(alloc: Global, uris: &Texts) -> Result<Option<Value>, OutOfMemory>
    requires { All IsUtf8 uris.now }
    ensures { IfOk result (λ value. option_map view value ≡ uris_value uris.now) }
{
    match uris.as_slice().split_first() {
        Some(_) => Ok(Some(texts(alloc, uris.as_slice())?)),
        None => Ok(None),
    }
}

fn texts(alloc: Global, texts: &[Text]) -> Result<Value, OutOfMemory>
    requires { All IsUtf8 texts.now }
    ensures { IfOk result (λ value. view value ≡ texts_value texts.now) }
{
    let mut items = Vec::new(alloc);
    for text in texts {
        items.push(Value::try_from_str(alloc, as_str(text))?)?;
    }
    Ok(Value::from(items))
}

fn verification(alloc: Global, hash: &Option<[u8; 32]>) -> Result<Option<Value>, OutOfMemory>
    ensures { IfOk result (λ value. option_map view value ≡ option_map verification_value hash.now) }
{
    match hash {
        Some(hash) => Ok(Some(entry(alloc, hash)?)),
        None => Ok(None),
    }
}

// the list with one entry, of SHA-256
fn entry(alloc: Global, hash: &[u8; 32]) -> Result<Value, OutOfMemory>
    ensures { IfOk result (λ value. view value ≡ verification_value hash.now) }
{
    let mut entry = Object::create(alloc);
    entry.put_text(
        alloc,
        Name::HashAlgorithm,
        "ietf-sztp-conveyed-info:sha-256",
    )?;
    entry.put_text(alloc, Name::HashValue, pairs(alloc, hash)?.as_str())?;
    let mut entries = Vec::new(alloc);
    entries.push(entry.into_value())?;
    Ok(Value::from(entries))
}

// the hash as pairs in lower case, joined by colons
fn pairs(alloc: Global, hash: &[u8; 32]) -> Result<String, OutOfMemory>
    ensures { IfOk result (λ text. string_bytes text ≡ colon_text hash.now) }
{
    match hash.split_first() {
        Some((first, rest)) => joined(alloc, *first, rest),
        None => unreachable!(),
    }
}

fn joined(alloc: Global, first: u8, rest: &[u8]) -> Result<String, OutOfMemory>
    ensures { IfOk result (λ text. string_bytes text
        ≡ pair_text first ++ flat_map (λ byte. 58 ∷ pair_text byte) rest.now) }
{
    let mut text = String::new(alloc);
    push_pair(&mut text, first)?;
    for byte in rest {
        text.push(':')?;
        push_pair(&mut text, *byte)?;
    }
    Ok(text)
}

fn push_pair(text: &mut String, byte: u8) -> Result<(), OutOfMemory>
    ensures { OnOk result (string_bytes text.new ≡ string_bytes text.old ++ pair_text byte) }
{
    text.push(digit(byte / 16))?;
    text.push(digit(byte % 16))?;
    Ok(())
}

fn digit(value: u8) -> char
    requires { value < 16 }
    ensures { result ≡ lower_digit value }
{
    let code = if value < 10 {
        b'0' + value
    } else {
        b'a' + (value - 10)
    };
    code as char
}

fn servers(alloc: Global, targets: &Targets) -> Result<Value, OutOfMemory>
    ensures { IfOk result (λ value. view value ≡ array (items_of (map server_value targets.now))) }
{
    let mut servers = Vec::new(alloc);
    for target in targets.as_slice() {
        servers.push(server(alloc, target)?)?;
    }
    Ok(Value::from(servers))
}

fn server(alloc: Global, target: &Target) -> Result<Value, OutOfMemory>
    ensures { IfOk result (λ value. view value ≡ server_value target.now) }
{
    let mut object = Object::create(alloc);
    object.put_text(alloc, Name::Address, host(target))?;
    object.put_number(alloc, Name::Port, u64::from(target.port))?;
    Ok(object.into_value())
}

// a host is ASCII
#[tactic(auto, using(crate::proofs::Texts::host_is_utf8))]
fn host(target: &Target) -> &str
    ensures { result.now ≡ target.now.host }
{
    match str::from_utf8(target.host.as_slice()) {
        Ok(host) => host,
        Err(_) => unreachable!(),
    }
}
