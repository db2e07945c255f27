//! The words of a line, read from left to right.
use crate::fault::Fault;
use clog_base::{Key, Table};
use path_core::{Cursor, Order, Place, Turn};
use std::str::SplitWhitespace;

#[derive(Clone, Copy)]
enum CursorName {
    Synced,
    OldestLive,
    Stopped,
}

const CURSORS: [(&str, CursorName); 3] = [
    ("synced", CursorName::Synced),
    ("oldest-live", CursorName::OldestLive),
    ("stopped", CursorName::Stopped),
];

#[derive(Clone, Copy)]
enum PlaceName {
    Count,
    Current,
    Oldest,
    Log,
    Newest,
    Bound,
    Turn,
    Cursor,
}

const PLACES: [(&str, PlaceName); 8] = [
    ("count", PlaceName::Count),
    ("current", PlaceName::Current),
    ("oldest", PlaceName::Oldest),
    ("log", PlaceName::Log),
    ("newest", PlaceName::Newest),
    ("bound", PlaceName::Bound),
    ("turn", PlaceName::Turn),
    ("cursor", PlaceName::Cursor),
];

const ORDERS: [(&str, Order); 2] = [("write", Order::Write), ("append", Order::Append)];

/// What a word means by a table of words.
pub(crate) fn meaning<T: Copy>(names: &[(&str, T)], word: &str) -> Result<T, Fault> {
    for (name, meaning) in names {
        if *name == word {
            return Ok(*meaning);
        }
    }
    Err(Fault::UnknownWord)
}

#[derive(Drop)]
pub(crate) struct Words<'a> {
    rest: SplitWhitespace<'a>,
}

impl<'a> Words<'a> {
    pub fn of(line: &'a str) -> Self {
        Words {
            rest: line.split_whitespace(),
        }
    }

    /// The next word, if there is one.
    pub fn next(&mut self) -> Option<&'a str> {
        self.rest.next()
    }

    pub fn word(&mut self) -> Result<&'a str, Fault> {
        self.next().ok_or(Fault::MissingWord)
    }

    /// The next word is this one.
    pub fn named(&mut self, name: &str) -> Result<(), Fault> {
        if self.word()? == name {
            Ok(())
        } else {
            Err(Fault::UnknownWord)
        }
    }

    /// No word is left.
    pub fn end(&mut self) -> Result<(), Fault> {
        match self.next() {
            None => Ok(()),
            Some(_) => Err(Fault::UnknownWord),
        }
    }

    pub fn number(&mut self) -> Result<u64, Fault> {
        self.word()?.parse::<u64>().map_err(|_| Fault::NoNumber)
    }

    pub fn medium(&mut self) -> Result<u32, Fault> {
        self.word()?.parse::<u32>().map_err(|_| Fault::NoNumber)
    }

    pub fn small(&mut self) -> Result<u8, Fault> {
        self.word()?.parse::<u8>().map_err(|_| Fault::NoNumber)
    }

    pub fn key(&mut self) -> Result<Key, Fault> {
        Ok(Key(self.number()?))
    }

    pub fn table(&mut self) -> Result<Table, Fault> {
        table_of(self.word()?)
    }

    /// What the next word means by a table of words.
    pub fn one_of<T: Copy>(&mut self, names: &[(&str, T)]) -> Result<T, Fault> {
        meaning(names, self.word()?)
    }

    pub fn order(&mut self) -> Result<Order, Fault> {
        self.one_of(&ORDERS)
    }

    pub fn turn(&mut self) -> Result<Turn, Fault> {
        match self.word()? {
            "sync" => Ok(Turn::Sync),
            "flush" => Ok(Turn::Flush(self.table()?)),
            _ => Err(Fault::UnknownWord),
        }
    }

    pub fn cursor(&mut self) -> Result<Cursor, Fault> {
        match self.one_of(&CURSORS)? {
            CursorName::Synced => Ok(Cursor::Synced),
            CursorName::OldestLive => Ok(Cursor::OldestLive(self.table()?)),
            CursorName::Stopped => Ok(Cursor::Stopped),
        }
    }

    pub fn place(&mut self) -> Result<Place, Fault> {
        match self.one_of(&PLACES)? {
            PlaceName::Log => Ok(Place::Log),
            PlaceName::Current => Ok(Place::Current(self.order()?)),
            PlaceName::Oldest => Ok(Place::Oldest(self.order()?)),
            PlaceName::Newest => Ok(Place::Newest(self.table()?)),
            PlaceName::Turn => Ok(Place::TurnWord(self.turn()?)),
            PlaceName::Cursor => Ok(Place::CursorWord(self.cursor()?)),
            PlaceName::Count => self.count(),
            PlaceName::Bound => self.bound(),
        }
    }

    fn count(&mut self) -> Result<Place, Fault> {
        let order = self.order()?;
        Ok(Place::Count(order, self.number()?))
    }

    fn bound(&mut self) -> Result<Place, Fault> {
        let table = self.table()?;
        Ok(Place::Bound(table, self.number()?))
    }
}

/// The table that a number names.
pub(crate) fn table_of(number: &str) -> Result<Table, Fault> {
    match number.parse::<u8>() {
        Ok(table) if table < 16 => Ok(Table(table)),
        _ => Err(Fault::NoTable),
    }
}
