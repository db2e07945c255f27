//! A step, as the words of its line tell it: its name, its seat, and what it acts on.
use crate::carried::carried;
use crate::fault::Fault;
use crate::words::{Words, meaning};
use path_core::{ClaimKind, Event, SwitchPart};
use std::alloc::Global;

#[derive(Clone, Copy)]
enum StepName {
    Look,
    Close,
    Claim,
    TakeTurn,
    GiveTurn,
    Put,
    OfGroup(OfGroup),
    OfMemtable(OfMemtable),
}

/// The steps on a group of an order.
#[derive(Clone, Copy)]
enum OfGroup {
    Register,
    OpenGroup,
    MoveCurrent,
    Expire,
    Advance,
}

/// The steps on a memtable of a table.
#[derive(Clone, Copy)]
enum OfMemtable {
    Switch,
    Raise,
    Finalise,
}

const STEPS: [(&str, StepName); 14] = [
    ("look", StepName::Look),
    ("register", StepName::OfGroup(OfGroup::Register)),
    ("close", StepName::Close),
    ("open-group", StepName::OfGroup(OfGroup::OpenGroup)),
    ("move-current", StepName::OfGroup(OfGroup::MoveCurrent)),
    ("expire", StepName::OfGroup(OfGroup::Expire)),
    ("advance", StepName::OfGroup(OfGroup::Advance)),
    ("claim", StepName::Claim),
    ("switch", StepName::OfMemtable(OfMemtable::Switch)),
    ("raise", StepName::OfMemtable(OfMemtable::Raise)),
    ("finalise", StepName::OfMemtable(OfMemtable::Finalise)),
    ("take-turn", StepName::TakeTurn),
    ("give-turn", StepName::GiveTurn),
    ("put", StepName::Put),
];

const KINDS: [(&str, ClaimKind); 2] = [("entry", ClaimKind::Entry), ("marker", ClaimKind::Marker)];

const PARTS: [(&str, SwitchPart); 3] = [
    ("clear", SwitchPart::Clear),
    ("open", SwitchPart::Open),
    ("mark", SwitchPart::Mark),
];

/// The step of a name, whose seat is the next word.
pub(crate) fn event(alloc: Global, name: &str, words: &mut Words) -> Result<Event, Fault> {
    let name = meaning(&STEPS, name)?;
    let by = words.small()?;
    match name {
        StepName::Look => look(words, by),
        StepName::Close => close(alloc, words, by),
        StepName::Claim => claim(words, by),
        StepName::TakeTurn => take_turn(words, by),
        StepName::GiveTurn => give_turn(words, by),
        StepName::Put => put(words, by),
        StepName::OfGroup(name) => of_group(name, words, by),
        StepName::OfMemtable(name) => of_memtable(name, words, by),
    }
}

fn look(words: &mut Words, by: u8) -> Result<Event, Fault> {
    let at = words.place()?;
    Ok(Event::Look { by, at })
}

fn close(alloc: Global, words: &mut Words, by: u8) -> Result<Event, Fault> {
    let order = words.order()?;
    let group = words.number()?;
    let carried = carried(alloc, words, by)?;
    Ok(Event::Close {
        by,
        order,
        group,
        carried,
    })
}

fn claim(words: &mut Words, by: u8) -> Result<Event, Fault> {
    let from = words.key()?;
    let to = words.key()?;
    let what = words.one_of(&KINDS)?;
    Ok(Event::Claim { by, from, to, what })
}

fn take_turn(words: &mut Words, by: u8) -> Result<Event, Fault> {
    let turn = words.turn()?;
    Ok(Event::TakeTurn { by, turn })
}

fn give_turn(words: &mut Words, by: u8) -> Result<Event, Fault> {
    let turn = words.turn()?;
    Ok(Event::GiveTurn { by, turn })
}

fn put(words: &mut Words, by: u8) -> Result<Event, Fault> {
    let cursor = words.cursor()?;
    let value = words.number()?;
    Ok(Event::Put { by, cursor, value })
}

fn of_group(name: OfGroup, words: &mut Words, by: u8) -> Result<Event, Fault> {
    let order = words.order()?;
    let group = words.number()?;
    Ok(match name {
        OfGroup::Register => Event::Register { by, order, group },
        OfGroup::OpenGroup => Event::OpenGroup { by, order, group },
        OfGroup::MoveCurrent => Event::MoveCurrent { by, order, group },
        OfGroup::Expire => Event::Expire { by, order, group },
        OfGroup::Advance => Event::Advance { by, order, group },
    })
}

fn of_memtable(name: OfMemtable, words: &mut Words, by: u8) -> Result<Event, Fault> {
    let table = words.table()?;
    let memtable = words.number()?;
    match name {
        OfMemtable::Switch => Ok(Event::Switch {
            by,
            table,
            memtable,
            part: words.one_of(&PARTS)?,
        }),
        OfMemtable::Raise => Ok(Event::Raise {
            by,
            table,
            memtable,
            to: words.key()?,
        }),
        OfMemtable::Finalise => Ok(Event::Finalise {
            by,
            table,
            memtable,
        }),
    }
}
