//! The words of a line, with one space between, read from left to right. One that is missing reads
//! as an empty one; one that is not fit for its place reads as some fit one, and is told at the
//! line's end.
use anyhow::{Result, bail};
use clog_base::{Name, segment_name};
use std::alloc::Global;
use std::str::Split;

#[derive(Drop)]
pub(crate) struct Words<'a> {
    rest: Split<'a, char>,
    is_faulty: bool,
}

impl<'a> Words<'a> {
    pub fn of(line: &'a str) -> Self {
        Words {
            rest: line.split(' '),
            is_faulty: false,
        }
    }

    pub fn word(&mut self) -> &'a str {
        self.rest.next().unwrap_or("")
    }

    pub fn number(&mut self) -> u64 {
        let word = self.word();
        self.number_of(word)
    }

    fn number_of(&mut self, word: &str) -> u64 {
        match word.parse::<u64>() {
            Ok(number) => number,
            Err(_) => {
                self.is_faulty = true;
                0
            }
        }
    }

    pub fn name(&mut self) -> Name {
        match Name::make(self.word().as_bytes()) {
            Some(name) => name,
            None => {
                self.is_faulty = true;
                segment_name(0)
            }
        }
    }

    /// Numbers with commas between them, or none.
    pub fn numbers(&mut self, alloc: Global) -> Result<Vec<u64>> {
        let mut numbers = Vec::new(alloc);
        let list = self.word();
        if !list.is_empty() {
            for word in list.split(',') {
                numbers.push(self.number_of(word))?;
            }
        }
        Ok(numbers)
    }

    /// The line ends, and each word was fit for its place.
    pub fn end(&mut self) -> Result<()> {
        if self.is_faulty || !self.word().is_empty() {
            bail!("a word that is missing, not fit for its place, or too many");
        }
        Ok(())
    }
}
