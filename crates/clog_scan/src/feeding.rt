//! The calls of a scanner.
ghost use Rattle.std.specs.Prelude.{◌≡◌, ◌<◌, ◌≤◌, ◌^◌, ◌+◌, ◌-◌, ◌++◌, [], List, ℕ, length, drop};
ghost use Rattle.std.specs.Prelude.{IfOk, OnErr};
ghost use Rattle.clog_scan.specs.Laws.{IsFile};
ghost use Rattle.clog_scan.specs.Walks.{Feeds, FirstIs, HasScanned, IsAsBefore, Reads, ReadsHeld};

use crate::answer::End;
use crate::next::next_header;
use crate::scanner::Scanner;
use crate::walking::{Walked, walk};
use crate::whole::Whole;
use clog_base::{HEADER_SIZE, OutOfMemory};
use clog_entry::Cause;
use std::alloc::Global;

/// Reads a window from where a scanner stands.
fn read_on(
    alloc: Global,
    len: u32,
    id: u64,
    window: &[u8],
    from: u32,
    until: u32,
    begun: bool,
) -> Result<(Walked, bool), OutOfMemory>
    requires short { len < 2 ^ 31 }
    requires inside { from + length window.now ≤ len }
    requires order { from ≤ until }
    requires within { until ≤ len }
    ensures { IfOk result (Reads len id window.now from until begun) }
{
    if begun {
        return Ok((walk(alloc, len, id, window, from, until)?, true));
    }
    match next_header(len, id, window) {
        Some(Ok(())) => {
            let size = HEADER_SIZE as u32;
            let rest = &window[HEADER_SIZE..];
            Ok((walk(alloc, len, id, rest, from + size, from + size)?, true))
        }
        Some(Err(cause)) => Ok((
            Walked {
                wholes: Vec::new(alloc),
                at: from,
                until,
                end: Some(End::Torn(0, cause)),
            },
            false,
        )),
        None => Ok((
            Walked {
                wholes: Vec::new(alloc),
                at: from,
                until,
                end: None,
            },
            false,
        )),
    }
}

/// Reads on in what is held and a piece; what was read is held no more.
fn read_held(
    alloc: Global,
    len: u32,
    id: u64,
    held: &mut Vec<u8>,
    fed: u32,
    until: u32,
    begun: bool,
    piece: &[u8],
) -> Result<(Walked, bool), OutOfMemory>
    requires short { len < 2 ^ 31 }
    requires inside { fed + length piece.now ≤ len }
    requires behind { length held.old.items ≤ fed }
    requires order { fed ≤ until + length held.old.items }
    requires within { until ≤ len }
    ensures ok { IfOk result (ReadsHeld len id held.old.items fed until begun piece.now
        held.new.items) }
    ensures err { OnErr result (held.new.items ≡ held.old.items) }
{
    let old = held.len();
    held.extend_from_slice(piece)?;
    let from = fed - old as u32;
    match read_on(alloc, len, id, held.as_slice(), from, until, begun) {
        Err(fault) => {
            held.truncate(old);
            Err(fault)
        }
        Ok(read) => {
            let done = (read.0.at - from) as usize;
            drop(held.drain(..done));
            Ok(read)
        }
    }
}

/// The end of a segment's file of `len` bytes that is too short for a header.
fn first_end(len: u32, id: u64) -> Option<End>
    ensures { FirstIs len id result }
{
    match next_header(len, id, &[]) {
        Some(Err(cause)) => Some(End::Torn(0, cause)),
        Some(Ok(())) | None => None,
    }
}

impl Scanner {
    /// Nothing was fed yet of a file of `len` bytes, the segment of an id.
    pub fn new(alloc: Global, id: u64, len: u32) -> Scanner
        requires { len < 2 ^ 31 }
        ensures fed { result.fed ≡ 0 }
        ensures same_id { result.id ≡ id }
        ensures same_len { result.len ≡ len }
        ensures none { (file : List ℕ) → IsFile file → length file ≡ len
            → HasScanned file result [] }
    {
        let end = first_end(len, id);
        Scanner {
            alloc,
            id,
            len,
            fed: 0,
            until: 0,
            begun: false,
            end,
            held: Vec::new(alloc),
        }
    }

    /// The entries that the next piece ends. After a refusal the scanner is as before.
    pub fn feed(&mut self, piece: &[u8]) -> Result<Vec<Whole>, OutOfMemory>
        requires { self.old.fed + length piece.now ≤ self.old.len }
        ensures given { IfOk result (λ wholes. Feeds self.old self.new piece.now wholes.items) }
        ensures refused { OnErr result (IsAsBefore self.old self.new) }
    {
        let fed = self.fed + piece.len() as u32;
        if self.end.is_some() {
            self.held.clear();
            self.until = self.len;
            self.fed = fed;
            return Ok(Vec::new(self.alloc));
        }
        let (walked, begun) = read_held(
            self.alloc,
            self.len,
            self.id,
            &mut self.held,
            self.fed,
            self.until,
            self.begun,
            piece,
        )?;
        let Walked {
            wholes,
            until,
            end,
            ..
        } = walked;
        self.fed = fed;
        self.begun = begun;
        self.end = end;
        if end.is_some() {
            self.held.clear();
            self.until = self.len;
            return Ok(wholes);
        }
        self.until = until;
        Ok(wholes)
    }

    /// The segment's end, once it can be told; at the latest once all bytes were fed.
    pub fn end(&self) -> Option<End>
        ensures { result ≡ self.now.end }
    {
        self.end
    }
}
