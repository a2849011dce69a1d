//! The forms of command lines, and what `clap` matches of words to them.
ghost use Rattle.std.specs.Prelude.{◌≡◌, true, false, map, MatchOption, IfOk};
ghost use Rattle.std.specs.List.{list_all};
ghost use Rattle.std.specs.Option.{option_map};
ghost use Rattle.std.specs.Str.{is_utf8};
ghost use Rattle.clap.specs.Faults.{is_simple_and_free};
ghost use Rattle.clap.specs.Matches.{found_of};
ghost use Rattle.clap.specs.Simple.{app_of};
ghost use Rattle.clap.specs.Walk.{all_of, first_of, rows_of};
ghost use Rattle.sz_program.specs.Forms.{form_of, open_form_of, taken};

use clap::error::ErrorKind;
use clap::{Arg, ArgMatches, Command};
use std::alloc::Global;
use std::str;
use sz_base::{OutOfMemory, Text};

/// The simple command with this name and these arguments, in this order, of which each takes one word. It has no
/// option, not even for help.
pub fn form<'a>(
    alloc: Global,
    name: &'static str,
    arguments: &'static [&'static str],
) -> Result<Command<'a>, OutOfMemory>
    ensures { IfOk result (λ form. app_of form ≡ form_of name.now (map (λ argument. argument.now) arguments.now)) }
{
    let mut form = Command::new(alloc, name)
        .no_binary_name(true)
        .disable_help_flag(true);
    for argument in arguments {
        form = form.arg(Arg::new(alloc, argument).required(true))?;
    }
    Ok(form)
}

/// The same with a last argument behind the others, which takes one word or more.
pub fn open_form<'a>(
    alloc: Global,
    name: &'static str,
    arguments: &'static [&'static str],
    last: &'static str,
) -> Result<Command<'a>, OutOfMemory>
    ensures { IfOk result (λ form.
        app_of form ≡ open_form_of name.now (map (λ argument. argument.now) arguments.now) last.now) }
{
    let form = form(alloc, name, arguments)?;
    let last = Arg::new(alloc, last).required(true).num_args(1..);
    Ok(form.arg(last)?)
}

/// The words as texts, or `None` where one isn't UTF-8.
pub fn texts<'a>(alloc: Global, words: &'a [Text]) -> Result<Option<Vec<&'a str>>, OutOfMemory>
    ensures { IfOk result (λ found. MatchOption found (list_all is_utf8 words.now ≡ false)
        (λ texts. (map (λ text. text.now) texts.items ≡ words.now) × (list_all is_utf8 words.now ≡ true))) }
{
    let mut texts = Vec::new(alloc);
    for word in words {
        let Ok(text) = str::from_utf8(word.as_slice()) else {
            return Ok(None);
        };
        texts.push(text)?;
    }
    Ok(Some(texts))
}

/// What the form matches of the texts, or `None` where it doesn't take them.
pub fn taken<'a>(
    form: Command<'a>,
    texts: &'a [&'a str],
) -> Result<Option<ArgMatches<'a>>, OutOfMemory>
    requires { is_simple_and_free (app_of form) ≡ true }
    ensures { IfOk result (λ found. option_map (λ matches. rows_of (found_of matches)) found
        ≡ taken (app_of form.entry) (map (λ text. text.now) texts.now)) }
{
    match form.try_get_matches_from(texts) {
        Ok(matches) => Ok(Some(matches)),
        Err(error) => match error.kind() {
            ErrorKind::OutOfMemory => Err(OutOfMemory),
            _ => Ok(None),
        },
    }
}

/// The word that was matched to an argument, if one was.
pub fn word_of<'a>(matches: &ArgMatches<'a>, argument: &str) -> Option<&'a str>
    ensures { option_map (λ word. word.now) result ≡ first_of argument.now (rows_of (found_of matches.now)) }
{
    matches.get_str(argument)
}

/// The words that were matched to an argument, if some were.
pub fn words_of<'m, 'a>(matches: &'m ArgMatches<'a>, argument: &str) -> Option<&'m [&'a str]>
    ensures { option_map (λ words. map (λ word. word.now) words.now) result
        ≡ all_of argument.now (rows_of (found_of matches.now)) }
{
    matches.get_strs(argument)
}
