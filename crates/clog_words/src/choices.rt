//! What one option that has a value says, where it is given, and its default where it is not. None
//! stands for an option that is not given as its command has it.
ghost use Rattle.std.specs.Prelude.{ℕ, Option, codes, MatchOption};
ghost use Rattle.sync_core.specs.declared.SyncCore.{SyncCore as AskedSync};
ghost use Rattle.clog_words.specs.Asks.{
  IsMode,
  IsNumberIfSaid,
  IsNumberOr,
  IsSync,
  letters_of,
};
ghost use Rattle.clog_words.specs.Options.{value_in};

use crate::number::number_within;
use clap::ArgMatches;
use sync_core::SyncCore;

// How the log is synced, by its word.
#[derive(Clone, Copy)]
enum Mode {
    Batch,
    Periodic,
}

// The number that an option says, from `least` to `most`, or the default.
pub(crate) fn number_or(
    matches: &ArgMatches<'_>,
    name: &str,
    least: u32,
    most: u32,
    default: u32,
) -> Option<u32>
    ensures { MatchOption result
        ((n : ℕ) → ¬ IsNumberOr default least most (value_in matches.now name.now) n)
        (IsNumberOr default least most (value_in matches.now name.now)) }
{
    let Some(text) = matches.get_str(name) else {
        return Some(default);
    };
    number_within(text, least, most)
}

// The number that an option says, from `least` to `most`, or None where it is not given.
pub(crate) fn number_if_said(
    matches: &ArgMatches<'_>,
    name: &str,
    least: u32,
    most: u32,
) -> Option<Option<u32>>
    ensures { MatchOption result
        ((n : Option ℕ) → ¬ IsNumberIfSaid least most (value_in matches.now name.now) n)
        (IsNumberIfSaid least most (value_in matches.now name.now)) }
{
    let Some(text) = matches.get_str(name) else {
        return Some(None);
    };
    match number_within(text, least, most) {
        Some(number) => Some(Some(number)),
        None => None,
    }
}

fn mode_of(matches: &ArgMatches<'_>) -> Option<Mode>
    ensures { MatchOption result
        ((mode : Mode) → ¬ IsMode (value_in matches.now (codes "sync")) (letters_of mode))
        (λ mode. IsMode (value_in matches.now (codes "sync")) (letters_of mode)) }
{
    let Some(word) = matches.get_str("sync") else {
        return Some(Mode::Periodic);
    };
    if word == "batch" {
        return Some(Mode::Batch);
    }
    if word == "periodic" {
        return Some(Mode::Periodic);
    }
    None
}

// When the log is synced. A period is allowed in batch mode, and unused.
pub(crate) fn sync_of(matches: &ArgMatches<'_>) -> Option<SyncCore>
    ensures { MatchOption result
        ((sync : AskedSync) → ¬ IsSync (value_in matches.now (codes "sync"))
        (value_in matches.now (codes "period")) sync)
        (IsSync (value_in matches.now (codes "sync")) (value_in matches.now (codes "period"))) }
{
    let Some(mode) = mode_of(matches) else {
        return None;
    };
    let Some(period_ms) = number_or(matches, "period", 1, 3_600_000, 10_000) else {
        return None;
    };
    Some(match mode {
        Mode::Batch => SyncCore::Batch,
        Mode::Periodic => SyncCore::Periodic {
            period_ms: u64::from(period_ms),
        },
    })
}
