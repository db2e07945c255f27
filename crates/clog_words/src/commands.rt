//! The commands, each with the options or the words that it has.
ghost use Rattle.std.specs.Prelude.{◌≡◌, ◌∷◌, ℕ, List, MatchOption, MatchResult};
ghost use Rattle.clap.specs.Matches.{found_of};
ghost use Rattle.clog_spec.specs.Names.{IsSegmentName};
ghost use Rattle.clog_words.specs.declared.request.ApplyOptions.{ApplyOptions as AskedApply};
ghost use Rattle.clog_words.specs.declared.request.ReplayOptions.{ReplayOptions as AskedReplay};
ghost use Rattle.clog_words.specs.declared.request.Request.{Request as Asked};
ghost use Rattle.clog_words.specs.Asks.{Asks, AsksApply, AsksReplay, AsksScan, AsksDrill, OnUsage};
ghost use Rattle.clog_words.specs.Asks.{SaysApply, SaysReplay};
ghost use Rattle.clog_words.specs.Given.{Setting, texts};
ghost use Rattle.clog_words.specs.Orders.{AsksOrders};
ghost use Rattle.clog_words.specs.Options.{Tells, apply_options as options_of_apply};
ghost use Rattle.clog_words.specs.Options.{replay_options as options_of_replay};

use crate::choices::{number_if_said, number_or, sync_of};
use crate::number::number_within;
use crate::options::{apply_command, matches_of, replay_command};
use crate::request::{ApplyOptions, ReplayOptions, Request, WordsFault};
use clap::ArgMatches;
use clog_base::{Name, parse_segment_name};
use std::alloc::Global;

fn apply_options(matches: &ArgMatches<'_>) -> Option<ApplyOptions>
    ensures { (settings : List Setting)
        → Tells options_of_apply settings (found_of matches.now)
        → MatchOption result ((options : AskedApply) → ¬ SaysApply settings options)
        (SaysApply settings) }
{
    Some(ApplyOptions {
        writers: number_or(matches, "writers", 1, 64, 1)? as u8,
        sync: sync_of(matches)?,
        segment_kib: number_or(matches, "segment-kib", 4, 32_768, 32_768)? as u16,
        flush_at: number_if_said(matches, "flush-at", 1, 1_000_000)?,
        archive: matches.get_flag("archive"),
        receipts: matches.get_flag("receipts"),
        drain: matches.get_flag("drain"),
        dump: matches.get_flag("dump"),
    })
}

fn replay_options(matches: &ArgMatches<'_>) -> Option<ReplayOptions>
    ensures { (settings : List Setting)
        → Tells options_of_replay settings (found_of matches.now)
        → MatchOption result ((options : AskedReplay) → ¬ SaysReplay settings options)
        (SaysReplay settings) }
{
    Some(ReplayOptions {
        workers: number_or(matches, "workers", 1, 64, 1)? as u8,
        ignore_errors: matches.get_flag("ignore-errors"),
    })
}

fn apply(alloc: Global, words: &[String]) -> Result<ApplyOptions, WordsFault>
    ensures { MatchResult result (AsksApply (texts words.now))
        (λ fault. OnUsage fault ((options : AskedApply) → ¬ AsksApply (texts words.now) options)) }
{
    let Ok(command) = apply_command(alloc) else {
        return Err(WordsFault::OutOfMemory);
    };
    let matches = matches_of(command, words)?;
    match apply_options(&matches) {
        Some(options) => Ok(options),
        None => Err(WordsFault::Usage),
    }
}

fn replay(alloc: Global, words: &[String]) -> Result<ReplayOptions, WordsFault>
    ensures { MatchResult result (AsksReplay (texts words.now))
        (λ fault. OnUsage fault
        ((options : AskedReplay) → ¬ AsksReplay (texts words.now) options)) }
{
    let Ok(command) = replay_command(alloc) else {
        return Err(WordsFault::OutOfMemory);
    };
    let matches = matches_of(command, words)?;
    match replay_options(&matches) {
        Some(options) => Ok(options),
        None => Err(WordsFault::Usage),
    }
}

// The id that the name says, where it is that of a segment of version 6.
pub(crate) fn segment_id(name: &Name) -> Option<u64>
    ensures { MatchOption result ((id : ℕ) → ¬ IsSegmentName name.now 6 id)
        (IsSegmentName name.now 6) }
{
    let Some(said) = parse_segment_name(name) else {
        return None;
    };
    if said.version == 6 {
        Some(said.id)
    } else {
        None
    }
}

// The word, where it is the name of a segment of version 6.
fn segment_name(word: &str) -> Option<Name>
    ensures { MatchOption result ((id : ℕ) → ¬ IsSegmentName word.now 6 id)
        (λ name. (name ≡ word.now) × ((id : ℕ) × IsSegmentName word.now 6 id)) }
{
    let Some(name) = Name::make(word.as_bytes()) else {
        return None;
    };
    match segment_id(&name) {
        Some(_) => Some(name),
        None => None,
    }
}

fn scan(words: &[String]) -> Option<Name>
    ensures { MatchOption result ((name : List ℕ) → ¬ AsksScan (texts words.now) name)
        (AsksScan (texts words.now)) }
{
    match words {
        [word] => segment_name(word.as_str()),
        _ => None,
    }
}

fn drill(words: &[String]) -> Option<(u32, u32)>
    ensures { MatchOption result ((seed count : ℕ) → ¬ AsksDrill (texts words.now) seed count)
        (λ drill. AsksDrill (texts words.now) drill.0 drill.1) }
{
    let [seed_word, count_word] = words else {
        return None;
    };
    let Some(seed) = number_within(seed_word.as_str(), 0, 4_294_967_295) else {
        return None;
    };
    let Some(count) = number_within(count_word.as_str(), 0, 1_000_000) else {
        return None;
    };
    Some((seed, count))
}

fn orders(words: &[String]) -> Option<(u8, u32)>
    ensures { MatchOption result
        ((readers rounds : ℕ) → ¬ AsksOrders (texts words.now) readers rounds)
        (λ orders. AsksOrders (texts words.now) orders.0 orders.1) }
{
    let [readers_word, rounds_word] = words else {
        return None;
    };
    let Some(readers) = number_within(readers_word.as_str(), 1, 63) else {
        return None;
    };
    let Some(rounds) = number_within(rounds_word.as_str(), 0, 100_000) else {
        return None;
    };
    Some((readers as u8, rounds))
}

fn request_of(alloc: Global, command: &str, words: &[String]) -> Result<Request, WordsFault>
    ensures { MatchResult result (Asks (command.now ∷ texts words.now))
        (λ fault. OnUsage fault
        ((request : Asked) → ¬ Asks (command.now ∷ texts words.now) request)) }
{
    if command == "apply" {
        return match apply(alloc, words) {
            Ok(options) => Ok(Request::Apply(options)),
            Err(fault) => Err(fault),
        };
    }
    if command == "replay" {
        return match replay(alloc, words) {
            Ok(options) => Ok(Request::Replay(options)),
            Err(fault) => Err(fault),
        };
    }
    if command == "scan" {
        return match scan(words) {
            Some(name) => Ok(Request::Scan(name)),
            None => Err(WordsFault::Usage),
        };
    }
    if command == "drill" {
        return match drill(words) {
            Some((seed, count)) => Ok(Request::Drill { seed, count }),
            None => Err(WordsFault::Usage),
        };
    }
    if command == "orders" {
        return match orders(words) {
            Some((readers, rounds)) => Ok(Request::Orders { readers, rounds }),
            None => Err(WordsFault::Usage),
        };
    }
    Err(WordsFault::Usage)
}

/// Reads the words after the program's name. `Usage` comes exactly where they ask for nothing that
/// there is; `OutOfMemory` where memory was refused.
pub fn parse(alloc: Global, words: &[String]) -> Result<Request, WordsFault>
    ensures { MatchResult result (Asks (texts words.now))
        (λ fault. OnUsage fault ((request : Asked) → ¬ Asks (texts words.now) request)) }
{
    match words {
        [command, rest @ ..] => request_of(alloc, command.as_str(), rest),
        [] => Err(WordsFault::Usage),
    }
}
