//! What a seat of the table knows. It is a ghost of the seat: no value of it is made.
use std::collections::LinkedList;

/// How far a publication has got.
pub enum Stage {
    /// None is under way.
    Rest,
    /// The value is in its place.
    Stored,
    /// That place is the root.
    Rooted,
    /// The next group is made, for the barrier.
    Opened,
    /// It is the current one. The group before is not yet expired.
    Moved,
}

/// A step on one word of the table.
pub struct WordStep {
    /// Which word.
    pub word: u64,
    /// The number that it found there.
    pub found: u64,
    /// Whether it changed the word. A look, and an exchange that failed, does not. A register
    /// leaves one more than it found, an end one less.
    pub act: bool,
}

/// What the owner knows, which is all that it alone changes.
pub struct OwnerPart {
    /// How far its publication has got.
    pub stage: Stage,
    /// The sequence of the root.
    pub sequence: u64,
    /// The values published, from sequence 0 on.
    pub values: LinkedList<u64>,
    /// The value that was stored and is not yet published.
    pub next: u64,
    /// The current group.
    pub current: u64,
    /// The oldest group.
    pub oldest: u64,
    /// The oldest group was found finished.
    pub gone: bool,
    /// How many seats there are, with the owner's.
    pub seats: u64,
    /// Its looks at counts, the newest first.
    pub looks: LinkedList<WordStep>,
}

/// What a reader knows.
pub struct ReaderPart {
    /// The group of its operation.
    pub group: Option<u64>,
    /// The sequence of the root at which its operation looked.
    pub looked: Option<u64>,
    /// The group that it last found as the current one.
    pub current: u64,
    /// The sequence that it last found.
    pub seen: u64,
    /// Its steps, the newest first.
    pub trail: LinkedList<WordStep>,
}

/// What a seat knows.
pub enum View {
    /// It publishes.
    Owns(OwnerPart),
    /// It reads.
    Reads(ReaderPart),
}
