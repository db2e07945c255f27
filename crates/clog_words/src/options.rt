//! The options behind a command, read by `clap`: they stand in any order, each once at most, as
//! `--name value` or `--name=value`, and no name is shortened. `clap` would also take `--` and a
//! value `-`, so words that begin with a dash and are no option's are refused before it.
ghost use Rattle.std.specs.Prelude.{◌≡◌, ◌≢◌, ℕ, List, [], IfOk, false, codes, MatchResult};
ghost use Rattle.std.specs.List.{list_all};
ghost use Rattle.clap.specs.Matches.{found_of};
ghost use Rattle.clap.specs.Simple.{app_of};
ghost use Rattle.clap.specs.Values.{kind_of};
ghost use Rattle.clap.specs.Walk.{rule_of};
ghost use Rattle.clog_words.specs.Asks.{OnUsage};
ghost use Rattle.clog_words.specs.Given.{Setting, texts};
ghost use Rattle.clog_words.specs.Options.{
  GivesFit,
  IsReadAs,
  IsReadable,
  Known,
  app_for,
  apply_options,
  is_own,
  mark_named,
  replay_options,
  rule_for,
  value_named,
};

use crate::request::WordsFault;
use clap::error::ErrorKind;
use clap::{Arg, ArgAction, ArgMatches, Command, Error};
use std::alloc::{AllocError, Global};

// An option that has a value.
fn value<'a>(alloc: Global, name: &'a str) -> Arg<'a>
    ensures rule { rule_of result ≡ rule_for (value_named name.entry.now) }
    ensures local { result.global ≡ false }
{
    Arg::new(alloc, name).long(name).action(ArgAction::Set)
}

// An option that has none.
fn mark<'a>(alloc: Global, name: &'a str) -> Arg<'a>
    ensures rule { rule_of result ≡ rule_for (mark_named name.entry.now) }
    ensures local { result.global ≡ false }
{
    Arg::new(alloc, name).long(name).action(ArgAction::SetTrue)
}

// A command without options. Its words are those behind its own.
fn command<'a>(alloc: Global, name: &'a str) -> Command<'a>
    ensures { app_of result ≡ app_for name.entry.now [] }
{
    Command::new(alloc, name)
        .no_binary_name(true)
        .disable_help_flag(true)
}

pub(crate) fn apply_command<'a>(alloc: Global) -> Result<Command<'a>, AllocError>
    ensures { IfOk result (λ command. app_of command ≡ app_for (codes "apply") apply_options) }
{
    command(alloc, "apply")
        .arg(value(alloc, "writers"))?
        .arg(value(alloc, "sync"))?
        .arg(value(alloc, "period"))?
        .arg(value(alloc, "segment-kib"))?
        .arg(value(alloc, "flush-at"))?
        .arg(mark(alloc, "archive"))?
        .arg(mark(alloc, "receipts"))?
        .arg(mark(alloc, "drain"))?
        .arg(mark(alloc, "dump"))
}

pub(crate) fn replay_command<'a>(alloc: Global) -> Result<Command<'a>, AllocError>
    ensures { IfOk result (λ command. app_of command ≡ app_for (codes "replay") replay_options) }
{
    command(alloc, "replay")
        .arg(value(alloc, "workers"))?
        .arg(mark(alloc, "ignore-errors"))
}

// Whether the word, where it begins with a dash, is that of an option.
fn is_ours(word: &str) -> bool
    ensures { result ≡ is_own word.now }
{
    match word.as_bytes() {
        [b'-', b'-', _, ..] => true,
        [b'-', ..] => false,
        _ => true,
    }
}

fn are_ours(words: &[String]) -> bool
    ensures { result ≡ list_all is_own (texts words.now) }
{
    for word in words {
        if !is_ours(word.as_str()) {
            return false;
        }
    }
    true
}

// What a refusal of `clap` says: all but want of memory is faulty words.
fn words_fault(error: &Error) -> WordsFault
    ensures { OnUsage result (kind_of error.now ≢ ErrorKind.OutOfMemory) }
{
    if error.kind() == ErrorKind::OutOfMemory {
        WordsFault::OutOfMemory
    } else {
        WordsFault::Usage
    }
}

// What the words give of the command's options.
pub(crate) fn matches_of<'a>(
    command: Command<'a>,
    words: &'a [String],
) -> Result<ArgMatches<'a>, WordsFault>
    ensures { (name : List ℕ) (options : List Known) → app_of command.entry ≡ app_for name options
        → IsReadable name options → MatchResult result
        (λ matches. IsReadAs options (texts words.entry.now) (found_of matches))
        (λ fault. OnUsage fault
        ((settings : List Setting) → ¬ GivesFit options settings (texts words.entry.now))) }
{
    if !are_ours(words) {
        return Err(WordsFault::Usage);
    }
    match command.try_get_matches_from(words) {
        Ok(matches) => Ok(matches),
        Err(error) => Err(words_fault(&error)),
    }
}
