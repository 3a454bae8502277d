//! The command that clap parses the words by.

ghost use Rattle.std.specs.Prelude.{◌≡◌, IfOk, IfErr, true, false, Bool, [], ◌∷◌, map};
ghost use Rattle.clap.specs.Words.{found_of, rows_of, rule_of, app_of, with_rule, kind_of};
ghost use Rattle.cr_words.specs.Commands.{ring_app, bare_app, option_with, rule_for, with_rules};
ghost use Rattle.cr_words.specs.Commands.{texts_of, rows_in, are_taken};
ghost use Rattle.cr_words.specs.Tables.{choice_of};
ghost use Rattle.clap.specs.declared.error.kind.ErrorKind.TheVariants.{OutOfMemory};
ghost use Rattle.cr_words.specs.Readings.{IsRefused, MayFail};

use crate::WordsFault;
use crate::table::{CHOICES, Choice};
use clap::error::ErrorKind;
use clap::{Arg, ArgAction, ArgMatches, Command, Error};
use std::alloc::{AllocError, Global};

// An option that takes one value.
fn option_named<'a>(alloc: Global, name: &'a str) -> Arg<'a>
    ensures rule { rule_of result ≡ option_with name.entry.now [] }
    ensures local { result.global ≡ false }
{
    Arg::new(alloc, name).long(name).action(ArgAction::Set)
}

// The same with a default.
fn option_or<'a>(alloc: Global, name: &'a str, value: &'a str) -> Arg<'a>
    ensures rule { rule_of result ≡ option_with name.entry.now (value.entry.now ∷ []) }
    ensures local { result.global ≡ false }
{
    option_named(alloc, name).default_value(value)
}

// The option of a row of the table.
fn option_of<'a>(alloc: Global, choice: &Choice) -> Arg<'a>
    ensures rule { rule_of result ≡ rule_for (choice_of choice.now) }
    ensures local { result.global ≡ false }
{
    match choice.default {
        Some(value) => option_or(alloc, choice.name, value),
        None => option_named(alloc, choice.name),
    }
}

// The command without its options.
fn bare_command<'a>(alloc: Global) -> Command<'a>
    ensures { app_of result ≡ bare_app }
{
    Command::new(alloc, "ringsearch").no_binary_name(true)
}

// One more option.
fn with_option<'a>(command: Command<'a>, option: Arg<'a>) -> Result<Command<'a>, AllocError>
    requires { option.global ≡ false }
    ensures { IfOk result (λ c. app_of c ≡ with_rule (app_of command.entry) (rule_of option.entry)) }
{
    command.arg(option)
}

// The command with some more options.
fn with_options<'a>(
    alloc: Global,
    command: Command<'a>,
    choices: &[Choice],
) -> Result<Command<'a>, AllocError>
    ensures { IfOk result (λ c. app_of c ≡ with_rules (app_of command.entry) (map rule_for (map choice_of choices.now))) }
{
    let mut command = command;
    for choice in choices {
        command = with_option(command, option_of(alloc, choice))?;
    }
    Ok(command)
}

// The whole command.
fn ring_command<'a>(alloc: Global) -> Result<Command<'a>, AllocError>
    ensures { IfOk result (λ c. app_of c ≡ ring_app) }
{
    let command = with_option(bare_command(alloc), option_or(alloc, "do", "search"))?;
    with_options(alloc, command, CHOICES)
}

// What an error means: want of memory, or that the words are not taken.
fn refusal(error: &Error) -> WordsFault
    ensures { (taken : Bool) → (taken ≡ true → kind_of error.now ≡ OutOfMemory) → IsRefused taken result }
{
    if error.kind() == ErrorKind::OutOfMemory {
        WordsFault::NoMemory
    } else {
        WordsFault::Line
    }
}

// What the words match to the options.
#[tactic(auto, unfolding(crate::specs::Commands::rows_in, crate::specs::Commands::are_taken))]
fn parsed<'a>(alloc: Global, words: &'a [String]) -> Result<ArgMatches<'a>, Error>
    ensures ok { IfOk result (λ m. rows_of (found_of m) ≡ rows_in (texts_of words.entry.now)) }
    ensures taken { IfOk result (λ _. are_taken (texts_of words.entry.now) ≡ true) }
    ensures passes { IfErr result (λ e. are_taken (texts_of words.entry.now) ≡ true → kind_of e ≡ OutOfMemory) }
{
    let command = ring_command(alloc)?;
    command.try_get_matches_from(words)
}

/// What the words match to the options.
pub fn matches_in<'a>(alloc: Global, words: &'a [String]) -> Result<ArgMatches<'a>, WordsFault>
    ensures ok { IfOk result (λ m. rows_of (found_of m) ≡ rows_in (texts_of words.entry.now)) }
    ensures taken { IfOk result (λ _. are_taken (texts_of words.entry.now) ≡ true) }
    ensures fails { IfErr result (MayFail (texts_of words.entry.now)) }
{
    match parsed(alloc, words) {
        Ok(matches) => Ok(matches),
        Err(error) => Err(refusal(&error)),
    }
}
