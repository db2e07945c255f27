//! What the program does, of what words ask for: a segment's name is read into its id.
ghost use Rattle.std.specs.Prelude.{MatchOption, MatchResult};
ghost use Rattle.clog_words.specs.Asks.{OnUsage};
ghost use Rattle.clog_words.specs.Built.{AsksBuilt, IsBuilt};
ghost use Rattle.clog_words.specs.Given.{texts};
ghost use Rattle.clog_words.specs.declared.built.Built.{Built as AskedBuilt};

use crate::commands::{parse, segment_id};
use crate::request::{ApplyOptions, ReplayOptions, Request, WordsFault};
use clog_base::Name;
use std::alloc::Global;

/// One thing that the program does.
#[derive(Clone, Copy, Debug, PartialEq, Eq)]
pub enum Built {
    /// `apply`: apply the mutation file on standard input.
    Apply(ApplyOptions),
    /// `replay`: tell what the folder holds.
    Replay(ReplayOptions),
    /// `scan`: tell what a segment of version 6 holds.
    Scan {
        /// The segment's id, by its name.
        id: u64,
    },
    /// `drill`: apply made lines and tell what the folder holds then, in numbers.
    Drill {
        /// Where the generator of lines begins.
        seed: u32,
        /// How many lines, 0 to 1000000.
        count: u32,
    },
    /// `orders`: an owner publishes values while readers read them.
    Orders {
        /// How many readers there are, 1 to 63.
        readers: u8,
        /// How many values are published, and how many operations each reader makes: 0 to 100000.
        rounds: u32,
    },
}

fn scan(name: Name) -> Option<Built>
    ensures { MatchOption result ((built : AskedBuilt) → ¬ IsBuilt (Request.Scan name) built)
        (IsBuilt (Request.Scan name)) }
{
    match segment_id(&name) {
        Some(id) => Some(Built::Scan { id }),
        None => None,
    }
}

fn built_of(request: Request) -> Option<Built>
    ensures { MatchOption result ((built : AskedBuilt) → ¬ IsBuilt request built)
        (IsBuilt request) }
{
    match request {
        Request::Apply(options) => Some(Built::Apply(options)),
        Request::Replay(options) => Some(Built::Replay(options)),
        Request::Scan(name) => scan(name),
        Request::Drill { seed, count } => Some(Built::Drill { seed, count }),
        Request::Orders { readers, rounds } => Some(Built::Orders { readers, rounds }),
    }
}

/// Reads the words after the program's name. `Usage` comes exactly where they ask for nothing that
/// the program does; `OutOfMemory` where memory was refused.
pub fn parse_built(alloc: Global, words: &[String]) -> Result<Built, WordsFault>
    ensures { MatchResult result (AsksBuilt (texts words.now))
        (λ fault. OnUsage fault ((built : AskedBuilt) → ¬ AsksBuilt (texts words.now) built)) }
{
    match built_of(parse(alloc, words)?) {
        Some(built) => Ok(built),
        None => Err(WordsFault::Usage),
    }
}
