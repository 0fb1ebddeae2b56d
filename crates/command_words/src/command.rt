//! The command as `clap` is told of it.
ghost use Rattle.std.specs.Prelude.{◌≡◌, ◌≢◌, [], map, false, string_bytes, IfOk, OnOk, IsErrOf};
ghost use Rattle.clap.specs.Words.{app_of, rule_of, rows_of, found_of, fault_of, matches_of, kind_of};
ghost use Rattle.command_words.specs.Command.{place_of, option_of, command};

use crate::fault::WordsFault;
use clap::error::ErrorKind;
use clap::{Arg, ArgAction, ArgMatches, Command, Error};
use std::alloc::{AllocError, Global};

/// An argument that stands at its place, and has to be there.
fn place<'a>(alloc: Global, name: &'a str) -> Arg<'a>
    ensures rule { rule_of result ≡ place_of name.entry.now }
    ensures local { result.global ≡ false }
{
    Arg::new(alloc, name).required(true).action(ArgAction::Set)
}

/// An option with one value, under its own name.
fn option<'a>(alloc: Global, name: &'a str) -> Arg<'a>
    ensures rule { rule_of result ≡ option_of name.entry.now }
    ensures local { result.global ≡ false }
{
    Arg::new(alloc, name).long(name).action(ArgAction::Set)
}

/// The command, which asks for nothing by itself: neither help nor a version.
fn the_command<'a>(alloc: Global) -> Result<Command<'a>, AllocError>
    ensures { IfOk result (λ c. app_of c ≡ command) }
{
    let command = Command::new(alloc, "adiar")
        .disable_help_flag(true)
        .disable_version_flag(true)
        .arg(place(alloc, "action"))?
        .arg(place(alloc, "folder"))?
        .arg(option(alloc, "script"))?
        .arg(option(alloc, "netlist"))?
        .arg(option(alloc, "budget"))?
        .arg(option(alloc, "size"))?;
    Ok(command)
}

/// The fault that an error of `clap` stands for.
fn fault_by(e: &Error) -> WordsFault
    ensures { result ≡ WordsFault.Usage → kind_of e.now ≢ ErrorKind.OutOfMemory }
{
    if e.kind() == ErrorKind::OutOfMemory {
        WordsFault::Memory
    } else {
        WordsFault::Usage
    }
}

/// What `clap` finds in the words.
pub(crate) fn matches_for<'a>(
    alloc: Global,
    words: &'a [String],
) -> Result<ArgMatches<'a>, WordsFault>
    ensures found { IfOk result (λ m. rows_of (found_of m)
        ≡ matches_of command (map (λ word. string_bytes word) words.entry.now)) }
    ensures read { OnOk result (fault_of command (map (λ word. string_bytes word) words.entry.now) ≡ []) }
    ensures usage { IsErrOf result WordsFault.Usage
        → fault_of command (map (λ word. string_bytes word) words.entry.now) ≢ [] }
{
    let Ok(command) = the_command(alloc) else {
        return Err(WordsFault::Memory);
    };
    match command.try_get_matches_from(words) {
        Ok(matches) => Ok(matches),
        Err(e) => Err(fault_by(&e)),
    }
}
