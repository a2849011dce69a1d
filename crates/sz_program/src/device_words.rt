//! The commands of a device, read from the words.
ghost use Rattle.std.specs.Prelude.{◌≡◌, IfOk, map, option_and_then};
ghost use Rattle.std.specs.Option.{option_map};
ghost use Rattle.clap.specs.Matches.{found_of};
ghost use Rattle.clap.specs.Walk.{rows_of};
ghost use Rattle.sz_program.specs.Forms.{matched};
ghost use Rattle.sz_program.specs.View.{command_of};
ghost use Rattle.sz_program.specs.Words.{audit_form, audit_matched, device_command_named, init_form, init_matched};
ghost use Rattle.sz_program.specs.Words.{onboard_form, onboard_matched, show_form, show_matched};

use crate::command::{Command, is_disk_at, is_disk_word};
use crate::form::{form, open_form, taken, texts, word_of, words_of};
use clap::ArgMatches;
use std::alloc::Global;
use sz_base::{OutOfMemory, Text, Texts};
use sz_device::{InitWords, OnboardWords};

static INIT_ARGUMENTS: [&str; 2] = ["IDENTITY", "DISK"];

static DISK_ARGUMENT: [&str; 1] = ["DISK"];

/// The command of a device that has this name and these words behind it, or `None` where there is none.
pub(crate) fn read_device_command(
    alloc: Global,
    name: &[u8],
    words: &[Text],
) -> Result<Option<Command>, OutOfMemory>
    ensures { IfOk result (λ found. option_map command_of found ≡ device_command_named name.now words.now) }
{
    if name == b"init".as_slice() {
        return read_init(alloc, words);
    }
    if name == b"onboard".as_slice() {
        return read_onboard(alloc, words);
    }
    if name == b"show".as_slice() {
        return read_show(alloc, words);
    }
    if name == b"audit".as_slice() {
        return read_audit(alloc, words);
    }
    Ok(None)
}

// The init that the words behind its name are.
fn read_init(alloc: Global, words: &[Text]) -> Result<Option<Command>, OutOfMemory>
    ensures { IfOk result (λ found.
        option_map command_of found ≡ option_and_then init_matched (matched init_form words.now)) }
{
    let Some(texts) = texts(alloc, words)? else {
        return Ok(None);
    };
    let form = form(alloc, "init", INIT_ARGUMENTS.as_slice())?;
    match taken(form, texts.as_slice())? {
        Some(matches) => init_matched(alloc, &matches),
        None => Ok(None),
    }
}

// The init of the words that were matched to its arguments.
fn init_matched(alloc: Global, matches: &ArgMatches<'_>) -> Result<Option<Command>, OutOfMemory>
    ensures { IfOk result (λ found.
        option_map command_of found ≡ init_matched (rows_of (found_of matches.now))) }
{
    let Some(identity) = word_of(matches, "IDENTITY") else {
        return Ok(None);
    };
    let Some(disk) = word_of(matches, "DISK") else {
        return Ok(None);
    };
    if !is_disk_word(disk.as_bytes()) || is_disk_at(identity.as_bytes(), disk.as_bytes()) {
        return Ok(None);
    }
    let words = InitWords {
        identity: Text::from_slice(alloc, identity.as_bytes())?,
        disk: Text::from_slice(alloc, disk.as_bytes())?,
    };
    Ok(Some(Command::Init(words)))
}

// The onboard that the words behind its name are.
fn read_onboard(alloc: Global, words: &[Text]) -> Result<Option<Command>, OutOfMemory>
    ensures { IfOk result (λ found.
        option_map command_of found ≡ option_and_then onboard_matched (matched onboard_form words.now)) }
{
    let Some(texts) = texts(alloc, words)? else {
        return Ok(None);
    };
    let form = open_form(alloc, "onboard", DISK_ARGUMENT.as_slice(), "SOURCE")?;
    match taken(form, texts.as_slice())? {
        Some(matches) => onboard_matched(alloc, &matches),
        None => Ok(None),
    }
}

// The onboard of the words that were matched to its arguments.
fn onboard_matched(alloc: Global, matches: &ArgMatches<'_>) -> Result<Option<Command>, OutOfMemory>
    ensures { IfOk result (λ found.
        option_map command_of found ≡ onboard_matched (rows_of (found_of matches.now))) }
{
    let Some(disk) = word_of(matches, "DISK") else {
        return Ok(None);
    };
    let Some(sources) = words_of(matches, "SOURCE") else {
        return Ok(None);
    };
    if !is_disk_word(disk.as_bytes()) {
        return Ok(None);
    }
    let words = OnboardWords {
        disk: Text::from_slice(alloc, disk.as_bytes())?,
        sources: copies(alloc, sources)?,
    };
    Ok(Some(Command::Onboard(words)))
}

// The show that the words behind its name are.
fn read_show(alloc: Global, words: &[Text]) -> Result<Option<Command>, OutOfMemory>
    ensures { IfOk result (λ found.
        option_map command_of found ≡ option_and_then show_matched (matched show_form words.now)) }
{
    let Some(texts) = texts(alloc, words)? else {
        return Ok(None);
    };
    let form = form(alloc, "show", DISK_ARGUMENT.as_slice())?;
    match taken(form, texts.as_slice())? {
        Some(matches) => show_matched(alloc, &matches),
        None => Ok(None),
    }
}

// The show of the words that were matched to its arguments.
fn show_matched(alloc: Global, matches: &ArgMatches<'_>) -> Result<Option<Command>, OutOfMemory>
    ensures { IfOk result (λ found.
        option_map command_of found ≡ show_matched (rows_of (found_of matches.now))) }
{
    let Some(disk) = word_of(matches, "DISK") else {
        return Ok(None);
    };
    if !is_disk_word(disk.as_bytes()) {
        return Ok(None);
    }
    let disk = Text::from_slice(alloc, disk.as_bytes())?;
    Ok(Some(Command::Show(disk)))
}

// The audit that the words behind its name are.
fn read_audit(alloc: Global, words: &[Text]) -> Result<Option<Command>, OutOfMemory>
    ensures { IfOk result (λ found.
        option_map command_of found ≡ option_and_then audit_matched (matched audit_form words.now)) }
{
    let Some(texts) = texts(alloc, words)? else {
        return Ok(None);
    };
    let form = form(alloc, "audit", DISK_ARGUMENT.as_slice())?;
    match taken(form, texts.as_slice())? {
        Some(matches) => audit_matched(alloc, &matches),
        None => Ok(None),
    }
}

// The audit of the words that were matched to its arguments.
fn audit_matched(alloc: Global, matches: &ArgMatches<'_>) -> Result<Option<Command>, OutOfMemory>
    ensures { IfOk result (λ found.
        option_map command_of found ≡ audit_matched (rows_of (found_of matches.now))) }
{
    let Some(disk) = word_of(matches, "DISK") else {
        return Ok(None);
    };
    if !is_disk_word(disk.as_bytes()) {
        return Ok(None);
    }
    let disk = Text::from_slice(alloc, disk.as_bytes())?;
    Ok(Some(Command::Audit(disk)))
}

// Copies of the words.
fn copies(alloc: Global, words: &[&str]) -> Result<Texts, OutOfMemory>
    ensures { IfOk result (λ copies. copies ≡ map (λ word. word.now) words.now) }
{
    let mut copies = Texts::create(alloc);
    for word in words {
        copies.push(Text::from_slice(alloc, word.as_bytes())?)?;
    }
    Ok(copies)
}
