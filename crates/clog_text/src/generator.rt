//! The generator of lines for drills: each line is made of one number of a sequence that the seed
//! begins, so that the same seed makes the same lines everywhere.
ghost use Rattle.std.specs.Prelude.{◌≡◌, ◌<◌, ◌++◌, [], ◌∷◌, codes, decimal, pos, IfOk};
ghost use Rattle.clog_base.specs.declared.cell.Kind.TheVariants.{Live};
ghost use Rattle.clog_text.specs.Made.{
  next_number,
  made_cell,
  made_update,
  made_updates,
  made_line,
  made_lines,
};

use clog_base::{Cell, Kind, OutOfMemory, Table, Text};
use clog_mutation::{Mutation, Mutations, Update, Updates};
use std::alloc::Global;

// The number behind another one in the sequence.
fn next_number(number: u32) -> u32
    ensures { result ≡ next_number number }
{
    ((1_664_525 * u64::from(number) + 1_013_904_223) % 4_294_967_296) as u32
}

fn numbered(alloc: Global, letter: &str, number: u32) -> Result<Text, OutOfMemory>
    ensures { IfOk result (λ text. text ≡ letter.now ++ decimal number) }
{
    let text = format!(in alloc; "{letter}{number}")?;
    Text::copy_of(alloc, text.as_str())
}

fn cell_of(alloc: Global, number: u32) -> Result<Cell, OutOfMemory>
    ensures { IfOk result (λ cell. cell ≡ made_cell number) }
{
    let upper = number / 65_536;
    let ts = i64::from(upper % 4096);
    if upper % 16 == 15 {
        let value = Text::copy_of(alloc, "")?;
        let kind = Kind::Deletion;
        return Ok(Cell { ts, kind, value });
    }
    let value = numbered(alloc, "v", number)?;
    let kind = Kind::Live;
    Ok(Cell { ts, kind, value })
}

fn update_of(alloc: Global, number: u32, index: u32) -> Result<Update, OutOfMemory>
    requires { index < 2 }
    ensures { IfOk result (λ update. update ≡ made_update number index) }
{
    let upper = number / 65_536;
    let table = Table(((upper + index) % 3) as u8);
    let column = numbered(alloc, "c", upper / 8 % 8)?;
    let cell = cell_of(alloc, number)?;
    Ok(Update {
        table,
        column,
        cell,
    })
}

fn updates_of(alloc: Global, number: u32) -> Result<Updates, OutOfMemory>
    ensures { IfOk result (λ updates. updates ≡ made_updates number) }
{
    let mut updates = Vec::new(alloc);
    updates.push(update_of(alloc, number, 0)?)?;
    if number / 65_536 % 2 == 0 {
        return Ok(Updates::new(updates));
    }
    updates.push(update_of(alloc, number, 1)?)?;
    Ok(Updates::new(updates))
}

fn line_of(alloc: Global, number: u32) -> Result<Mutation, OutOfMemory>
    ensures { IfOk result (λ line. line ≡ made_line number) }
{
    let key = numbered(alloc, "k", number / 65_536 % 1000)?;
    let updates = updates_of(alloc, number)?;
    Ok(Mutation { key, updates })
}

/// Makes the lines 1 to `count` of a seed, as mutations of one update or two. The sequence of
/// numbers begins with the seed, and line 1 is made of the number behind it.
pub fn made(alloc: Global, seed: u32, count: u32) -> Result<Mutations, OutOfMemory>
    ensures { IfOk result (λ lines. lines ≡ made_lines seed count) }
{
    let mut lines = Vec::new(alloc);
    let mut number = seed;
    for _index in 0..count {
        number = next_number(number);
        let line = line_of(alloc, number)?;
        lines.push(line)?;
    }
    Ok(Mutations::new(lines))
}

/// The first two lines of seed 7, worked out elsewhere.
pub fn made_laws()
    ensures first { made_lines 7 1 ≡ record {
      key = codes "k648";
      updates = record {
        table = record { 0 = 0 };
        column = codes "c4";
        cell = record { ts = pos 3360; kind = Live; value = codes "v1025555898" };
      } ∷ [];
    } ∷ [] }
    ensures second { made_lines 7 2 ≡ made_lines 7 1 ++ record {
      key = codes "k866";
      updates = record {
        table = record { 0 = 1 };
        column = codes "c3";
        cell = record { ts = pos 2522; kind = Live; value = codes "v3923423697" };
      } ∷ [];
    } ∷ [] }
{}
