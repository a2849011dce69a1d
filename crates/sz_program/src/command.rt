//! The commands as data, and reading them from the words.
ghost use Rattle.std.specs.Prelude.{◌≡◌, IfOk, option_and_then};
ghost use Rattle.std.specs.Option.{option_map};
ghost use Rattle.clap.specs.Matches.{found_of};
ghost use Rattle.clap.specs.Walk.{rows_of};
ghost use Rattle.sz_program.specs.Forms.{matched};
ghost use Rattle.sz_program.specs.View.{command_of};
ghost use Rattle.sz_program.specs.Words.{check_form, check_matched, keygen_form, keygen_matched, sign_form, sign_matched, words_of};
ghost use Rattle.sz_program.specs.Words.{is_disk_at, is_disk_word};

use crate::device_words::read_device_command;
use crate::form::{form, taken, texts, word_of};
use clap::ArgMatches;
use std::alloc::Global;
use sz_base::{OutOfMemory, Text};
use sz_device::{InitWords, OnboardWords};
use sz_keys::{CheckPaths, KeygenWords, SignWords};

static CHECK_ARGUMENTS: [&str; 3] = ["PUBLIC", "FILE", "SIGNATURE"];

static KEYGEN_ARGUMENTS: [&str; 3] = ["LEVELS", "PUBLIC", "KEY"];

static SIGN_ARGUMENTS: [&str; 3] = ["FILE", "SIGNATURE", "KEY"];

/// A command with its values.
#[derive(Drop)]
pub enum Command {
    /// Checks a signature of a file.
    Check(CheckPaths),
    /// Makes a key on a disk.
    Keygen(KeygenWords),
    /// Signs a file with a key on a disk.
    Sign(SignWords),
    /// Makes a disk stand for a device with an identity.
    Init(InitWords),
    /// Boots the device of a disk once over its sources.
    Onboard(OnboardWords),
    /// Prints the device of the disk under this word.
    Show(Text),
    /// Audits the device of the disk under this word.
    Audit(Text),
}

/// The command that the words are, or `None` where they are none. The first word is its name, and `clap` matches the
/// others to its form.
pub fn read_command(alloc: Global, words: &[Text]) -> Result<Option<Command>, OutOfMemory>
    ensures { IfOk result (λ found. option_map command_of found ≡ words_of words.now) }
{
    let Some((name, words)) = words.split_first() else {
        return Ok(None);
    };
    if name.as_slice() == b"check".as_slice() {
        return read_check(alloc, words);
    }
    if name.as_slice() == b"keygen".as_slice() {
        return read_keygen(alloc, words);
    }
    if name.as_slice() == b"sign".as_slice() {
        return read_sign(alloc, words);
    }
    read_device_command(alloc, name.as_slice(), words)
}

// The check that the words behind its name are.
fn read_check(alloc: Global, words: &[Text]) -> Result<Option<Command>, OutOfMemory>
    ensures { IfOk result (λ found.
        option_map command_of found ≡ option_and_then check_matched (matched check_form words.now)) }
{
    let Some(texts) = texts(alloc, words)? else {
        return Ok(None);
    };
    let form = form(alloc, "check", CHECK_ARGUMENTS.as_slice())?;
    match taken(form, texts.as_slice())? {
        Some(matches) => check_matched(alloc, &matches),
        None => Ok(None),
    }
}

// The check of the words that were matched to its arguments.
fn check_matched(alloc: Global, matches: &ArgMatches<'_>) -> Result<Option<Command>, OutOfMemory>
    ensures { IfOk result (λ found.
        option_map command_of found ≡ check_matched (rows_of (found_of matches.now))) }
{
    let Some(public) = word_of(matches, "PUBLIC") else {
        return Ok(None);
    };
    let Some(file) = word_of(matches, "FILE") else {
        return Ok(None);
    };
    let Some(signature) = word_of(matches, "SIGNATURE") else {
        return Ok(None);
    };
    let paths = CheckPaths {
        public: Text::from_slice(alloc, public.as_bytes())?,
        file: Text::from_slice(alloc, file.as_bytes())?,
        signature: Text::from_slice(alloc, signature.as_bytes())?,
    };
    Ok(Some(Command::Check(paths)))
}

// The keygen that the words behind its name are.
fn read_keygen(alloc: Global, words: &[Text]) -> Result<Option<Command>, OutOfMemory>
    ensures { IfOk result (λ found.
        option_map command_of found ≡ option_and_then keygen_matched (matched keygen_form words.now)) }
{
    let Some(texts) = texts(alloc, words)? else {
        return Ok(None);
    };
    let form = form(alloc, "keygen", KEYGEN_ARGUMENTS.as_slice())?;
    match taken(form, texts.as_slice())? {
        Some(matches) => keygen_matched(alloc, &matches),
        None => Ok(None),
    }
}

// The keygen of the words that were matched to its arguments.
fn keygen_matched(alloc: Global, matches: &ArgMatches<'_>) -> Result<Option<Command>, OutOfMemory>
    ensures { IfOk result (λ found.
        option_map command_of found ≡ keygen_matched (rows_of (found_of matches.now))) }
{
    let Some(levels) = word_of(matches, "LEVELS") else {
        return Ok(None);
    };
    let Some(public) = word_of(matches, "PUBLIC") else {
        return Ok(None);
    };
    let Some(key) = word_of(matches, "KEY") else {
        return Ok(None);
    };
    if !is_disk_word(key.as_bytes()) || is_disk_at(public.as_bytes(), key.as_bytes()) {
        return Ok(None);
    }
    let words = KeygenWords {
        levels: Text::from_slice(alloc, levels.as_bytes())?,
        public: Text::from_slice(alloc, public.as_bytes())?,
        key: Text::from_slice(alloc, key.as_bytes())?,
    };
    Ok(Some(Command::Keygen(words)))
}

// The sign that the words behind its name are.
fn read_sign(alloc: Global, words: &[Text]) -> Result<Option<Command>, OutOfMemory>
    ensures { IfOk result (λ found.
        option_map command_of found ≡ option_and_then sign_matched (matched sign_form words.now)) }
{
    let Some(texts) = texts(alloc, words)? else {
        return Ok(None);
    };
    let form = form(alloc, "sign", SIGN_ARGUMENTS.as_slice())?;
    match taken(form, texts.as_slice())? {
        Some(matches) => sign_matched(alloc, &matches),
        None => Ok(None),
    }
}

// The sign of the words that were matched to its arguments.
fn sign_matched(alloc: Global, matches: &ArgMatches<'_>) -> Result<Option<Command>, OutOfMemory>
    ensures { IfOk result (λ found.
        option_map command_of found ≡ sign_matched (rows_of (found_of matches.now))) }
{
    let Some(file) = word_of(matches, "FILE") else {
        return Ok(None);
    };
    let Some(signature) = word_of(matches, "SIGNATURE") else {
        return Ok(None);
    };
    let Some(key) = word_of(matches, "KEY") else {
        return Ok(None);
    };
    if !is_disk_word(key.as_bytes())
        || is_disk_at(file.as_bytes(), key.as_bytes())
        || is_disk_at(signature.as_bytes(), key.as_bytes())
    {
        return Ok(None);
    }
    let words = SignWords {
        file: Text::from_slice(alloc, file.as_bytes())?,
        signature: Text::from_slice(alloc, signature.as_bytes())?,
        key: Text::from_slice(alloc, key.as_bytes())?,
    };
    Ok(Some(Command::Sign(words)))
}

/// The word names a disk: it begins with `@`, and isn't that alone.
pub(crate) fn is_disk_word(word: &[u8]) -> bool
    ensures { result ≡ is_disk_word word.now }
{
    word.len() >= 2 && word[0] == b'@'
}

/// The word is that of the disk in the file at this path.
pub(crate) fn is_disk_at(path: &[u8], word: &[u8]) -> bool
    ensures { result ≡ is_disk_at path.now word.now }
{
    match word.split_first() {
        Some((b'@', file)) => file == path,
        _ => false,
    }
}
