//! Plays runs of single steps of the write path. It reads them as lines of text from standard
//! input, and prints for each step whether it was made, and states where a run asks for them. The
//! page `docs/PROTOCOL.md` tells the form.
#![tactic(auto)]

mod carried;
mod fault;
mod line;
mod play;
mod show;
mod show_seat;
mod step;
mod words;

use anyhow::{Result, bail};
use play::{Outcome, Player};
use show::show;
use std::io::{self, BufWriter, Write};

// Tells whether a step was made, or the name of a run.
fn tell<W: Write>(out: &mut W, outcome: Outcome, text: &str) -> io::Result<()> {
    match outcome {
        Outcome::Silent => Ok(()),
        Outcome::Begun => writeln!(out, "{text}"),
        Outcome::Made => writeln!(out, "made {text}"),
        Outcome::Refused => writeln!(out, "refused {text}"),
        Outcome::Shown => writeln!(out, "state"),
    }
}

fn play_line<W: Write>(out: &mut W, player: &mut Player, text: &str) -> Result<()> {
    let outcome = player.play(text)?;
    tell(out, outcome, text)?;
    if outcome == Outcome::Shown {
        show(out, player.state()?)?;
    }
    Ok(())
}

fn play_lines<W: Write>(out: &mut W, player: &mut Player, text: &str) -> Result<()> {
    for (number, line) in (1u64..).zip(text.lines()) {
        if let Err(fault) = play_line(out, player, line.trim()) {
            bail!("line {number}: {fault}");
        }
    }
    Ok(())
}

fn main(rt: HostRuntime) -> Result<()> {
    let text = io::read_to_string(rt.alloc(), rt.reader())?;
    let mut out = BufWriter::new(rt.alloc(), io::writer(&rt))?;
    let mut player = Player::new(rt.alloc());
    let played = play_lines(&mut out, &mut player, text.as_str());
    out.flush()?;
    played
}
