//! Laws of notes, of writes that a marker stands behind, of how far a round of a sync reaches, of
//! where a log begins, of what spends a path, and of what an answer promises for its close. Each is
//! the contract of a function that does nothing.
ghost use Rattle.std.specs.Prelude.{◌≡◌, ℕ, ◌+◌, ◌-◌, ◌*◌, ◌/◌, ◌^◌, ◌<◌, ◌≤◌, List, [], ◌∷◌, ◌++◌};
ghost use Rattle.std.specs.Prelude.{length, true, Some, None, IsTrue};
ghost use Rattle.std.specs.List.{All, Contains};
ghost use Rattle.clog_base.specs.declared.cell.Table.{Table};
ghost use Rattle.clog_base.specs.declared.position.Key.{Key};
ghost use Rattle.clog_base.specs.declared.sizes.Sizes.{Sizes};
ghost use Rattle.clog_mutation.specs.declared.mutation.Mutation.{Mutation};
ghost use Rattle.clog_mutation.specs.Limits.{IsWithinLimits};
ghost use Rattle.path_core.specs.declared.event.ClaimKind.TheVariants.{Entry};
ghost use Rattle.path_core.specs.declared.note.EntryNote.{EntryNote};
ghost use Rattle.path_core.specs.declared.state.Bound.TheVariants.{Final};
ghost use Rattle.path_core.specs.History.{IsHistory};
ghost use Rattle.path_core.specs.Keeper.{Holding, IsFiledIn};
ghost use Rattle.path_core.specs.Keys.{least_entry, ordinal_of, MovesLog, claimed_size};
ghost use Rattle.path_core.specs.Keys.{claim_start};
ghost use Rattle.path_core.specs.Parts.{is_empty, memtable_of, touches};
ghost use Rattle.path_core.specs.Whole.{IsWhole};
ghost use Rattle.path_rule.specs.declared.answer.SyncAnswer.TheVariants.{Done};
ghost use Rattle.path_rule.specs.declared.view.OwnStep.{OwnStep};
ghost use Rattle.path_rule.specs.declared.view.PathSize.{PathSize};
ghost use Rattle.path_rule.specs.FindsBounds.{FindsFinal, Retires};
ghost use Rattle.path_rule.specs.Reached.{Reaches};
ghost use Rattle.path_rule.specs.Trails.{HoldsSome};
ghost use Rattle.path_table.specs.Members.{view_of};
ghost use Rattle.path_flush.specs.declared.flush_answer.Flush.{Flush};
ghost use Rattle.path_flush.specs.declared.flush_answer.Flush.TheVariants.{Flushed, Empty};
ghost use Rattle.write_path.specs.declared.prepared.Prepared.{Prepared};
ghost use Rattle.write_path.specs.ClosedFiles.{HasRetired, IsGiven};
ghost use Rattle.write_path.specs.Closed.{IsOutcome, PassesNoSegment, all_writes};
ghost use Rattle.write_path.specs.Commits.{IsLogged};
ghost use Rattle.path_flush.specs.OwnWrites.{writes_of};
ghost use Rattle.path_flush.specs.Grown.{HasGrown};
ghost use Rattle.write_path.specs.Promised.{HasFileFrom, HasVoid, IsUpTo, WasDone, WasDurable};
ghost use Rattle.write_path.specs.Promised.{WasFlushed, WasSpent};
ghost use Rattle.write_path.specs.Sealed.{HasMarkBehind, HasMarkBetween, IsSealed};
ghost use Rattle.write_path.specs.SealedRows.{behind_it, before_it, behind_a_claim};
ghost use Rattle.write_path.specs.Writes.{entry_size, IsNoteOf, IsClaimed, IsDepositable};

use path_core::Keeper;
use path_table::PathSeat;

/// The note of a prepared write may be deposited once it is claimed.
pub fn note_laws()
    // A note that is as long as the entry is whole.
    ensures whole { (line : ℕ) (m : Mutation) (n : EntryNote) → IsWithinLimits m
        → IsNoteOf line m n → n.end.0 ≡ n.start.0 + entry_size m → IsWhole n }
    // The note of a claimed write may be deposited on a path of the sizes that it was made for.
    ensures claimed { (sizes : Sizes) (line start writer : ℕ) (m : Mutation) (p : Prepared)
        → (c : IsClaimed sizes line m start writer p)
        → IsDepositable sizes.tables c.prepared.note }
    // The range that a claim of its size takes is as long as the entry, and ends at the log key.
    ensures claim { (capacity ordinals from to : ℕ) → MovesLog Entry capacity ordinals from to
        → claim_start Entry from to + claimed_size from to ≡ to }
    // An entry is as large as a claim has to be.
    ensures least { (m : Mutation) → IsWithinLimits m → least_entry ≤ entry_size m }
{}

/// A write is sealed by a synced key at or above its end that its seat finds before it claims
/// anything further, and stays so. These are the rows of three short trails, and a law.
pub fn what_seals_a_write()
    // The key was found behind the write.
    ensures behind { (n : EntryNote) (key : ℕ) → n.end.0 ≤ key → IsSealed n (behind_it n key) }
    // In front of it the key says nothing of it.
    ensures before { (n : EntryNote) (key : ℕ) → ¬ IsSealed n (before_it n key) }
    // Nor does it behind a further claim, which may stand in front of its marker.
    ensures claimed { (n : EntryNote) (from to key : ℕ)
        → ¬ IsSealed n (behind_a_claim n from to key) }
    // Whatever the seat does then, the write stays sealed.
    ensures stays { (n : EntryNote) (newer trail : List OwnStep) → IsSealed n trail
        → IsSealed n (newer ++ trail) }
{}

/// How far the log is lasting behind a round of a sync that is answered `Done`, by values, in
/// segments of 4096 bytes.
pub fn what_a_round_reaches()
    // Behind the marker at 100 the log goes on at 108: so far it reaches.
    ensures marker { Reaches 4096 108 (Done 100) }
    // A sync that ended at an older marker, at 60, does not.
    ensures older { ¬ Reaches 4096 108 (Done 60) }
    // Before the first marker it reaches the front of the first segment, and no entry.
    ensures front { Reaches 4096 28 (Done 0) }
    ensures empty { ¬ Reaches 4096 60 (Done 0) }
{}

/// What a seat was promised is so when the path is closed, whatever the seats did between.
pub fn what_close_keeps<K: Keeper>()
    // The keeper has each write that a commit answered `Durable`.
    ensures durable { (size : PathSize) (seats : List (PathSeat K)) (end : ℕ) (h : Holding)
        → IsOutcome size seats end h → (s : PathSeat K) → Contains seats s → (n : EntryNote)
        → WasDurable size s.member.number n (view_of s.member).trail → Contains h.logged n }
    // A marker stands behind it, also where its seat logged no other.
    ensures marked { (size : PathSize) (seats : List (PathSeat K)) (end : ℕ) (h : Holding)
        → (o : IsOutcome size seats end h) → (s : PathSeat K) → Contains seats s → (n : EntryNote)
        → WasDurable size s.member.number n (view_of s.member).trail
        → HasMarkBehind size.capacity o.core.notes h.synced n.end.0 }
    // It has synced to each key that a sync answered `Done` with, and has each write that was of
    // the seat's list then.
    ensures done { (size : PathSize) (seats : List (PathSeat K)) (end : ℕ) (h : Holding)
        → IsOutcome size seats end h → (s : PathSeat K) → Contains seats s
        → (key : ℕ) (n : EntryNote) → WasDone s.member.number key n (view_of s.member).trail
        → (key ≤ h.synced) × Contains h.logged n }
    // A marker stands between a write that was answered `Durable` and each one that its seat logged
    // behind it.
    ensures apart { (size : PathSize) (seats : List (PathSeat K)) (end : ℕ) (h : Holding)
        → (o : IsOutcome size seats end h) → (s : PathSeat K) → Contains seats s
        → (n : EntryNote) (before after : List OwnStep) (start to : ℕ) (p : Prepared)
        → WasDurable size s.member.number n before
        → (l : IsLogged before s.member.number start to p after)
        → HasGrown after (view_of s.member).trail
        → HasMarkBetween size.capacity o.core.notes h.synced n.end.0 l.listed.note.start.0 }
    // Where a seat made a memtable of a table final at a key, or found it so, and retired it, or
    // found it retired, each write of any seat that touches the table and ends at or below the key
    // lies in a table file of the keeper.
    ensures flushed { (size : PathSize) (seats : List (PathSeat K)) (end : ℕ) (h : Holding)
        → IsOutcome size seats end h → (s : PathSeat K) → Contains seats s
        → (t : Table) (key : ℕ) (before : List OwnStep) → HasRetired t key before
        → HasGrown before (view_of s.member).trail → (other : PathSeat K) → Contains seats other
        → (n : EntryNote) → Contains (writes_of (view_of other.member).trail) n
        → IsTrue (touches n.tables t.0) → n.end.0 ≤ key → IsFiledIn h.files t.0 n.end.0 }
    // Where it made a memtable final at a key, or found it so, the memtable is final at that key.
    ensures finals { (size : PathSize) (seats : List (PathSeat K)) (end : ℕ) (h : Holding)
        → (o : IsOutcome size seats end h) → (s : PathSeat K) → Contains seats s
        → (t m key : ℕ) (before : List OwnStep) → FindsFinal t m key before
        → HasGrown before (view_of s.member).trail
        → (memtable_of o.core t m).bound ≡ Final (record { 0 = key }) }
    // In a memtable that it retired without a table file nothing is placed.
    ensures emptied { (size : PathSize) (seats : List (PathSeat K)) (end : ℕ) (h : Holding)
        → (o : IsOutcome size seats end h) → (s : PathSeat K) → Contains seats s
        → (t : Table) (m : ℕ) (before : List OwnStep) → Retires t m None before
        → HasGrown before (view_of s.member).trail → is_empty o.core t.0 m ≡ true }
    // In one that it retired with a table file something is placed, and the keeper has that file,
    // from the key that the step gave to the memtable's final bound.
    ensures given { (size : PathSize) (seats : List (PathSeat K)) (end : ℕ) (h : Holding)
        → (o : IsOutcome size seats end h) → (s : PathSeat K) → Contains seats s
        → (t : Table) (m lower : ℕ) (before : List OwnStep) → Retires t m (Some lower) before
        → HasGrown before (view_of s.member).trail
        → HoldsSome o.core t.0 m × IsGiven o.core h.files t.0 m lower }
    // A flush that was answered `Flushed` or `Empty`, whenever it was, has each write of any seat
    // that touches the table and ends at or below the upper key in a table file of the keeper.
    ensures covered { (size : PathSize) (seats : List (PathSeat K)) (end : ℕ) (h : Holding)
        → IsOutcome size seats end h → (s : PathSeat K) → Contains seats s
        → (t : Table) (answer : Flush) (key : ℕ) → IsUpTo key answer
        → WasFlushed s.member.number t answer (view_of s.member).trail
        → (other : PathSeat K) → Contains seats other
        → (n : EntryNote) → Contains (writes_of (view_of other.member).trail) n
        → IsTrue (touches n.tables t.0) → n.end.0 ≤ key → IsFiledIn h.files t.0 n.end.0 }
    // Where it was answered `Flushed`, the keeper has a file of the table with that interval.
    ensures filed { (size : PathSize) (seats : List (PathSeat K)) (end : ℕ) (h : Holding)
        → IsOutcome size seats end h → (s : PathSeat K) → Contains seats s
        → (t : Table) (lower upper : Key)
        → WasFlushed s.member.number t (Flushed lower upper) (view_of s.member).trail
        → HasFileFrom h.files t.0 lower.0 upper.0 }
    // Where it was answered `Empty`, a memtable of the table is final at that key, and nothing is
    // placed in it.
    ensures voided { (size : PathSize) (seats : List (PathSeat K)) (end : ℕ) (h : Holding)
        → (o : IsOutcome size seats end h) → (s : PathSeat K) → Contains seats s
        → (t : Table) (key : Key)
        → WasFlushed s.member.number t (Empty key) (view_of s.member).trail
        → HasVoid o.core t.0 key.0 }
{}

/// A path runs out of segments only under many writes: one whose seat was answered `Spent` has at
/// most two segments for each write that was logged in it, or one where none was.
pub fn what_spends_a_path<K: Keeper>()
    ensures segments { (size : PathSize) (seats : List (PathSeat K)) (end : ℕ) (h : Holding)
        → IsOutcome size seats end h → (s : PathSeat K) → Contains seats s → (bytes key : ℕ)
        → bytes ≤ size.capacity / 2 → WasSpent size bytes key (view_of s.member).trail
        → size.ordinals ≤ 1 + (2 * length (all_writes seats) - 1) }
    // So in one of more than 2^30 segments that never comes, where each of at most 64 seats logs
    // at most 8,388,608 writes.
    ensures never { (size : PathSize) (seats : List (PathSeat K)) (end : ℕ) (h : Holding)
        → IsOutcome size seats end h → length seats ≤ 64
        → All (λ (s : PathSeat K). length (writes_of (view_of s.member).trail) ≤ 8388608) seats
        → 2 ^ 30 < size.ordinals → (s : PathSeat K) → Contains seats s → (bytes key : ℕ)
        → bytes ≤ size.capacity / 2 → ¬ WasSpent size bytes key (view_of s.member).trail }
{}

/// The log of a path begins in the segment of ordinal 0, and passes over none.
pub fn where_a_log_begins<K: Keeper>()
    // The first entry of a history that passes over no segment stands in the first one.
    ensures first { (capacity : ℕ) (n : EntryNote) (ns : List EntryNote)
        → IsHistory capacity (n ∷ ns) → PassesNoSegment (n ∷ ns) → ordinal_of n.start.0 ≡ 0 }
    // A lone entry in the second segment leaves the first one out.
    ensures second { (n : EntryNote) → ordinal_of n.start.0 ≡ 1 → ¬ PassesNoSegment (n ∷ []) }
    // What the keeper of a closed path has logged passes over none.
    ensures logged { (size : PathSize) (seats : List (PathSeat K)) (end : ℕ) (h : Holding)
        → IsOutcome size seats end h → PassesNoSegment h.logged }
{}
