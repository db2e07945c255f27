//! What a seat of the table knows. It is a ghost of the seat: no value of it is made, and its part
//! is exactly what the machine's seat of its number has.
use crate::lasting::Lasting;
use path_core::{EntryNote, Event, LastMarker, Placed, Seat};
use std::collections::LinkedList;
use std::snapshot::Snapshot;

/// What a path is told when it is opened: the sizes of the machine, and what its keeper's disk had
/// counted.
#[derive(Clone, Copy, Drop)]
pub struct PathSize {
    /// How many tables there are.
    pub tables: u64,
    /// How many seats.
    pub seats: u64,
    /// The bytes of a segment.
    pub capacity: u64,
    /// How many segments the log may have.
    pub ordinals: u64,
    /// The id of the first segment.
    pub base: u64,
    /// The count of faults of the keeper's disk when the keeper was opened.
    pub at_open: u64,
    /// Whether its memtables may go to table files.
    pub files: bool,
}

/// What a table is opened for: its sizes, and its keeper as it was then.
#[derive(Drop)]
pub struct PathKey<K> {
    /// The sizes.
    pub size: PathSize,
    /// The keeper. Only contracts read it.
    pub first: Snapshot<K>,
}

/// What a seat of the table is for.
pub enum Role {
    /// It hands out the seats from this number on.
    Opener(u64),
    /// It makes the steps of the machine's seat of this number.
    Steps(u64),
    /// It was taken in by another seat.
    Spent,
}

/// A step that a seat made.
pub struct OwnStep {
    /// The step of the machine.
    pub event: Event,
    /// What it found at its word, or put there where it found nothing.
    pub found: u64,
    /// The key above which its table file begins, where the step gave one.
    pub filed: Option<u64>,
}

/// What a seat knew when another took it in.
pub struct Returned {
    /// The number of the machine's seat.
    pub number: u64,
    /// What that seat does.
    pub part: Seat,
    /// Its steps, the newest first.
    pub trail: LinkedList<OwnStep>,
}

/// What the desk of the Sync turn tells of the last barrier of the append order.
#[derive(Clone, Copy, Drop)]
pub struct Progress {
    /// Each box of the last barrier was gathered, behind its passing.
    pub gathered: bool,
    /// The last marker of the log: where it starts, and its barrier once that is issued.
    pub marker: Option<LastMarker>,
}

/// What the holder of a table's Flush turn has read of a memtable, behind its barrier. Where that
/// is retired, its boxes are emptied.
pub struct FlushRead {
    /// The table.
    pub table: u64,
    /// The memtable: the least of the table that is not retired, or the last retired one.
    pub memtable: u64,
    /// Whether it is retired.
    pub retired: bool,
    /// The notes that were placed there, of the seats below `seen_to`.
    pub seen: LinkedList<EntryNote>,
    /// From the boxes of how many seats, from the first one on.
    pub seen_to: u64,
    /// The box in hand, which is that of the next seat.
    pub taken: Option<u64>,
    /// What that one held when it was taken.
    pub held: LinkedList<EntryNote>,
}

/// What a seat knows of the boxes that it has.
pub struct Hands {
    /// What its own box of the append order held when it was taken.
    pub notes: LinkedList<EntryNote>,
    /// The box of another seat that the holder of the Sync turn took.
    pub box_taken: Option<u64>,
    /// What that one held.
    pub taken: LinkedList<EntryNote>,
    /// The notes on the desk of the Sync turn: they were gathered, and are not yet lasting.
    pub pending: LinkedList<EntryNote>,
    /// What the keeper on the desk shows.
    pub lasting: Lasting,
    /// How many boxes of the last passed barrier were gathered while the turn is held.
    pub swept: u64,
    /// What the desk tells of the last barrier.
    pub progress: Progress,
    /// The own box of a memtable that the seat took.
    pub memtable_box: Option<u64>,
    /// What that one held.
    pub held: LinkedList<EntryNote>,
    /// The entries that the seat put into such boxes, the newest first: where each ends, and the
    /// table and the memtable of its place.
    pub applied: LinkedList<Placed>,
    /// What it has read of a memtable as the holder of a table's Flush turn.
    pub reading: Option<FlushRead>,
}

/// What a seat of the table knows.
pub struct View {
    /// What it is for.
    pub role: Role,
    /// What the machine's seat of its number does.
    pub part: Seat,
    /// Its steps, the newest first.
    pub trail: LinkedList<OwnStep>,
    /// The seats that it took in.
    pub returned: LinkedList<Returned>,
    /// What it knows of the boxes that it has.
    pub hands: Hands,
    /// The sizes of the machine.
    pub size: PathSize,
}
