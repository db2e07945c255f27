//! The word of a group's count: bits 0 to 15 are its operations, bits 16 to 62 its number, and the
//! highest bit is set once it has expired.
ghost use Rattle.std.specs.Prelude.{◌≡◌, ◌↔◌, ◌<◌, ◌^◌, ℕ, IsTrue};
ghost use Rattle.op_core.specs.declared.count.Tally.{Tally};
ghost use Rattle.op_core.specs.Tallies.{running_of, number_of};
ghost use Rattle.op_core.specs.CountWords.{count_word, number_in};

/// The highest bit, which marks an expired group.
pub(crate) const EXPIRED: u64 = 0x8000_0000_0000_0000;

/// One in the bits of a group's number. Below lie those of its operations.
pub(crate) const GROUP: u64 = 65_536;

/// Whether the word is this group's, and not marked: then all above its operations is the group's
/// number.
pub(crate) fn is_open(word: u64, group: u64) -> bool
    requires { group < 2 ^ 47 }
    ensures { IsTrue result ↔ (word < 2 ^ 63) × (number_in word ≡ group) }
{
    word / GROUP == group
}

/// The count that a word tells, as a signed number: -1 is an expired group with no operation left.
pub(crate) fn count_in(word: u64) -> i64
    ensures { (g : ℕ) → (k : Tally) → g < 2 ^ 47 → running_of k < 65536 → word ≡ count_word g k
        → result ≡ number_of k }
{
    let running = (word % GROUP) as i64;
    if word < EXPIRED {
        running
    } else {
        -1 - running
    }
}
