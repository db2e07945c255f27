//! The pending notes that a sync writes: those up to a key, in the order of the log.
ghost use Rattle.std.specs.Prelude.{
  ◌≡◌,
  ◌++◌,
  ◌+◌,
  ◌≤◌,
  ◌<◌,
  ℕ,
  [],
  drop,
  get_or,
  length,
  take,
  vec_capacity,
};
ghost use Rattle.std.specs.List.Sorted.{IsNonDecreasingBy, IsPermutation};
ghost use Rattle.path_core.specs.declared.note.EntryNote.{EntryNote};
ghost use Rattle.path_core.specs.Keeper.{IsParted};

use path_core::EntryNote;

// How many notes, in the order of their ends, end at or below a key.
fn count_up_to(notes: &[EntryNote], upto: u64) -> usize
    requires { IsNonDecreasingBy (λ (n : EntryNote). n.end.0) notes.now }
    ensures within { result ≤ length notes.now }
    ensures low { (k : ℕ) (d : EntryNote) → k < result → (get_or notes.now k d).end.0 ≤ upto }
    ensures high { (k : ℕ) (d : EntryNote) → result ≤ k → k < length notes.now
        → upto < (get_or notes.now k d).end.0 }
{
    let mut count = 0;
    while count < notes.len() && notes[count].end.0 <= upto {
        count += 1;
    }
    count
}

/// Brings the notes into the order of the log, and answers how many end at or below a key. A path
/// lends them in order, but a keeper is not promised that: notes in order cost one look at each.
pub(crate) fn part_at(pending: &mut Vec<EntryNote>, upto: u64) -> usize
    ensures within { result ≤ length pending.new.items }
    ensures same { IsPermutation pending.old.items pending.new.items }
    ensures room { length pending.new.items ≤ vec_capacity pending.new }
    ensures parted { IsParted upto pending.old.items (take result pending.new.items)
        (drop result pending.new.items) }
{
    pending.sort_unstable_by_key(|note| note.end.0);
    count_up_to(pending, upto)
}

/// Moves notes behind others, for which there is room.
pub(crate) fn move_behind(notes: &mut Vec<EntryNote>, more: &mut Vec<EntryNote>)
    requires { length notes.old.items + length more.old.items ≤ vec_capacity notes.old }
    ensures all { notes.new.items ≡ notes.old.items ++ more.old.items }
    ensures none { more.new.items ≡ [] }
    ensures room { vec_capacity more.new ≡ vec_capacity more.old }
{
    if notes.append(more).is_err() {
        unreachable!()
    }
}
