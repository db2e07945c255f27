//! A line of a run.
use crate::fault::Fault;
use crate::step::event;
use crate::words::Words;
use clog_base::Sizes;
use path_core::Event;
use std::alloc::Global;

/// What a line asks for.
#[derive(Drop)]
pub(crate) enum Line {
    /// Nothing: it is blank, or a comment.
    Nothing,
    /// A name is told.
    Run,
    /// A path of these sizes begins, its first segment with this id.
    Path(Sizes, u64),
    /// The step is tried.
    Step(Event),
    /// The state is shown.
    State,
}

/// What a line of text asks for.
pub(crate) fn line_of(alloc: Global, text: &str) -> Result<Line, Fault> {
    let mut words = Words::of(text);
    let Some(first) = words.next() else {
        return Ok(Line::Nothing);
    };
    if first.starts_with('#') {
        return Ok(Line::Nothing);
    }
    if first == "run" {
        return Ok(Line::Run);
    }
    let line = asked(alloc, first, &mut words)?;
    words.end()?;
    Ok(line)
}

fn asked(alloc: Global, first: &str, words: &mut Words) -> Result<Line, Fault> {
    if first == "state" {
        return Ok(Line::State);
    }
    if first == "path" {
        return path(words);
    }
    Ok(Line::Step(event(alloc, first, words)?))
}

fn path(words: &mut Words) -> Result<Line, Fault> {
    words.named("tables")?;
    let tables = words.small()?;
    words.named("writers")?;
    let writers = words.small()?;
    let (capacity, ordinals) = segments(words)?;
    words.named("base")?;
    let base = words.number()?;
    let sizes = Sizes::make(tables, writers, capacity, ordinals).ok_or(Fault::Sizes)?;
    Ok(Line::Path(sizes, base))
}

fn segments(words: &mut Words) -> Result<(u32, u32), Fault> {
    words.named("capacity")?;
    let capacity = words.medium()?;
    words.named("ordinals")?;
    Ok((capacity, words.medium()?))
}
