//! The words that begin a line.
use anyhow::{Result, bail};

/// What a line asks for.
#[derive(Clone, Copy)]
pub(crate) enum Verb {
    Case,
    Memory,
    Writer,
    Reader,
    Image,
    Swap,
    Append,
    Fill,
    Call(Call),
    Told(Told),
    Outside(Outside),
}

/// The calls that any disk has, but for `append_at`.
#[derive(Clone, Copy)]
pub(crate) enum Call {
    List,
    Len,
    Read,
    Change(Change),
    Settle,
    Faults,
    Moments,
    Changes,
}

/// Those that change a file, or make it last.
#[derive(Clone, Copy)]
pub(crate) enum Change {
    Sync,
    Publish,
    Remove,
    Link,
}

/// What one kind of disk tells besides.
#[derive(Clone, Copy)]
pub(crate) enum Told {
    Bytes,
    Change,
    Images,
    Said,
}

/// What is done in the case's folder by no disk.
#[derive(Clone, Copy)]
pub(crate) enum Outside {
    File,
    Folder,
    Symlink,
    Stands,
}

const VERBS: [(&str, Verb); 27] = [
    ("case", Verb::Case),
    ("memory", Verb::Memory),
    ("writer", Verb::Writer),
    ("reader", Verb::Reader),
    ("image", Verb::Image),
    ("swap", Verb::Swap),
    ("append", Verb::Append),
    ("fill", Verb::Fill),
    ("list", Verb::Call(Call::List)),
    ("len", Verb::Call(Call::Len)),
    ("read", Verb::Call(Call::Read)),
    ("sync", Verb::Call(Call::Change(Change::Sync))),
    ("settle", Verb::Call(Call::Settle)),
    ("publish", Verb::Call(Call::Change(Change::Publish))),
    ("remove", Verb::Call(Call::Change(Change::Remove))),
    ("link", Verb::Call(Call::Change(Change::Link))),
    ("faults", Verb::Call(Call::Faults)),
    ("moments", Verb::Call(Call::Moments)),
    ("changes", Verb::Call(Call::Changes)),
    ("bytes", Verb::Told(Told::Bytes)),
    ("change", Verb::Told(Told::Change)),
    ("images", Verb::Told(Told::Images)),
    ("said", Verb::Told(Told::Said)),
    ("file", Verb::Outside(Outside::File)),
    ("folder", Verb::Outside(Outside::Folder)),
    ("symlink", Verb::Outside(Outside::Symlink)),
    ("stands", Verb::Outside(Outside::Stands)),
];

/// What a line asks for that begins with this word.
pub(crate) fn verb_of(word: &str) -> Result<Verb> {
    for (name, verb) in &VERBS {
        if *name == word {
            return Ok(*verb);
        }
    }
    bail!("no such line")
}
