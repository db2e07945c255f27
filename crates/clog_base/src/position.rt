//! Places in the log. An entry's position is the end of its range (Cassandra's
//! `CommitLogPosition`). The order of positions is that of their keys.
ghost use Rattle.std.specs.Prelude.{◌≡◌, ℕ, ◌+◌, ◌<◌, ◌^◌, ◌↔◌, IsTrue};
ghost use Rattle.clog_base.specs.Positions.{
  IsBelow,
  IsUpTo,
  HasKey,
  key_of,
  ordinal_of,
  position_of,
  key_at,
};

/// A place in a segment: the segment's id, and an offset in bytes. Ordered by id, then by offset.
#[derive(Clone, Copy, Debug, PartialEq, Eq, PartialOrd, Ord)]
pub struct Position {
    /// The segment's id.
    pub id: u64,
    /// Where it is in the segment, in bytes from its beginning.
    pub offset: u32,
}

/// A place in the log as one word: `ordinal * 2^31 + offset`, where the segment of an ordinal has
/// the id `base + ordinal`.
#[derive(Clone, Copy, Debug, PartialEq, Eq, PartialOrd, Ord)]
pub struct Key(pub u64);

impl Position {
    /// Whether it stands before another.
    pub fn is_below(self, other: Position) -> bool
        ensures { IsTrue result ↔ IsBelow self other }
    {
        self < other
    }

    /// Whether it stands before another, or is it.
    pub fn is_up_to(self, other: Position) -> bool
        ensures { IsTrue result ↔ IsUpTo self other }
    {
        self <= other
    }
}

impl Key {
    /// The key of an offset, in bytes, in the segment of an ordinal.
    pub fn of(ordinal: u32, offset: u32) -> Key
        requires { offset < 2 ^ 31 }
        ensures { result.0 ≡ key_of ordinal offset }
    {
        Key((u64::from(ordinal) << 31) + u64::from(offset))
    }

    /// The position of the key. The segment of ordinal 0 has the id `base`.
    pub fn position(self, base: u64) -> Position
        requires { base + ordinal_of self.0 < 2 ^ 64 }
        ensures { result ≡ position_of base self.0 }
    {
        Position {
            id: base + (self.0 >> 31),
            offset: (self.0 & 0x7fff_ffff) as u32,
        }
    }
}

/// Keys and the positions from a base on, with offsets below 2^31, are functions of each other, and
/// one key is below another exactly where its position stands before the other's.
pub fn position_laws()
    ensures of_key { (base ordinal offset : ℕ) → offset < 2 ^ 31
        → position_of base (key_of ordinal offset)
        ≡ record { id = base + ordinal; offset = offset } }
    ensures key_again { (base key : ℕ) → key_at base (position_of base key) ≡ key }
    ensures position_again { (base : ℕ) (at : Position) → HasKey base at
        → position_of base (key_at base at) ≡ at }
    ensures has_key { (base key : ℕ) → HasKey base (position_of base key) }
    ensures order { (base key other : ℕ)
        → (key < other) ↔ IsBelow (position_of base key) (position_of base other) }
{}
