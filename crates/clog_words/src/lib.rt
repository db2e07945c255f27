//! The words after the program's name, read into what they ask for. Words are accepted exactly
//! where they ask for something, and then for one thing alone: the first word is the command, its
//! options follow in any order, each once at most, as `--name value` or `--name=value`, and no name
//! is shortened. Options are read by `clap`; what is accepted is said without it.
#![tactic(auto)]

mod built;
mod choices;
mod commands;
mod laws;
mod number;
mod options;
mod request;

pub use built::{Built, parse_built};
pub use commands::parse;
pub use laws::words_laws;
pub use request::{ApplyOptions, ReplayOptions, Request, WordsFault};
