ghost use Rattle.std.specs.Prelude.{◌≡◌, None, Some, true, false, option_map, IfSome, IfOk, IfErr};
ghost use Rattle.clap.specs.Words.{app_of, rule_of, takes, first_value, found_of, HasMatchesOf};
ghost use Rattle.clap.specs.Walk.{texts};
ghost use Rattle.rl_cli.specs.Words.{number, IsSmall};
ghost use Rattle.rl_cli.specs.Orders.{Answers};
ghost use Rattle.rl_cli.specs.Apps.{rule_for, app_with};

use crate::fault::CliFault;
use crate::flag::Flag;
use clap::error::ErrorKind;
use clap::{Arg, ArgMatches, Command};
use rl_base::Text;
use rl_text::read_number;
use std::alloc::{AllocError, Global};

/// The argument as which the option is read.
fn argument(alloc: Global, flag: Flag) -> Arg<'static>
    ensures rule { rule_of result ≡ rule_for flag }
    ensures local { result.global ≡ false }
{
    let argument = Arg::new(alloc, flag.name());
    match flag {
        Flag::Schedule => argument.short('s'),
        Flag::Tries => argument.long("tries"),
        Flag::Workers => argument.long("workers"),
        Flag::Round => argument.long("round"),
    }
}

/// A simple command with these positionals and options. It adds no help.
fn command<'a>(
    alloc: Global,
    positionals: &[&'a str],
    options: &[Flag],
) -> Result<Command<'a>, AllocError>
    ensures { IfOk result (λ c. app_of c ≡ app_with (texts positionals.now) options.now) }
{
    let mut command = Command::new(alloc, "relis").disable_help_flag(true);
    for id in positionals {
        command = command.arg(Arg::new(alloc, *id))?;
    }
    for flag in options {
        command = command.arg(argument(alloc, *flag))?;
    }
    Ok(command)
}

/// What a simple command with these positionals and options makes of the words, of which the first is the
/// command's name.
pub fn matches_of<'a>(
    alloc: Global,
    positionals: &[&'a str],
    options: &[Flag],
    words: &'a [&'a str],
) -> Result<ArgMatches<'a>, CliFault>
    ensures ok { IfOk result (HasMatchesOf (app_with (texts positionals.now) options.now) (texts words.entry.now)) }
    ensures err { IfErr result (λ e. takes (app_with (texts positionals.now) options.now) (texts words.entry.now) ≡ true
        → e ≡ CliFault.NoMemory) }
{
    let command = command(alloc, positionals, options)?;
    match command.try_get_matches_from(words) {
        Ok(matches) => Ok(matches),
        Err(error) => match error.kind() {
            ErrorKind::OutOfMemory => Err(CliFault::NoMemory),
            _ => Err(CliFault::Usage),
        },
    }
}

/// The words as texts that `clap` reads.
pub fn texts_of(alloc: Global, words: &[Text]) -> Result<Vec<&str>, AllocError>
    ensures { IfOk result (λ all. texts all.items ≡ words.now) }
{
    let mut texts = Vec::new(alloc);
    for word in words {
        texts.push(word.as_str())?;
    }
    Ok(texts)
}

/// A copy of the word that was read as this argument.
pub fn text_at(alloc: Global, matches: &ArgMatches<'_>, id: &str) -> Result<Text, CliFault>
    ensures { Answers (first_value (found_of matches.now) id.now) result }
{
    match matches.get_str(id) {
        Some(word) => Ok(Text::of(alloc, word)?),
        None => Err(CliFault::Usage),
    }
}

/// The number that a word writes which writes one of 32 bits.
fn number(word: &str) -> u32
    ensures { IsSmall word.now → result ≡ number word.now }
{
    match read_number(word.as_bytes()) {
        Some(n) if n <= u64::from(u32::MAX) => n as u32,
        _ => 0,
    }
}

/// The number that was read as this argument, if it was given.
pub fn number_at(matches: &ArgMatches<'_>, id: &str) -> Option<u32>
    ensures { IfSome (first_value (found_of matches.now) id.now) IsSmall
        → result ≡ option_map number (first_value (found_of matches.now) id.now) }
{
    matches.get_str(id).map(|word| number(word))
}

/// The number that was read as this argument, which was given.
pub fn needed_number_at(matches: &ArgMatches<'_>, id: &str) -> Result<u32, CliFault>
    ensures { IfSome (first_value (found_of matches.now) id.now) IsSmall
        → Answers (option_map number (first_value (found_of matches.now) id.now)) result }
{
    match number_at(matches, id) {
        Some(n) => Ok(n),
        None => Err(CliFault::Usage),
    }
}
