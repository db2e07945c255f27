//! What a scanner of pieces has given.
ghost use Rattle.std.specs.Prelude.{◌≡◌, ◌^◌, ◌<◌, List, ℕ, IsSome, Some};
ghost use Rattle.clog_scan.specs.declared.answer.End.{End as segment_end};
ghost use Rattle.clog_scan.specs.declared.scanner.Scanner.{Scanner as scanner};
ghost use Rattle.clog_scan.specs.Segment.{Entry, IsSegment};
ghost use Rattle.clog_scan.specs.Walks.{AreUpTo, HasScanned};

/// The entries given so far are exactly those of the segment that end at or below the number of
/// bytes fed.
pub fn given_up_to()
    ensures { (file : List ℕ) (s : scanner) (given entries : List Entry) (end : segment_end)
        → s.id < 2 ^ 64 → HasScanned file s given → IsSegment file s.id entries end
        → AreUpTo entries given s.fed }
{}

/// An end that is told is the segment's, and all its entries were given; it is told once all bytes
/// were fed.
pub fn told_at_the_end()
    ensures told { (file : List ℕ) (s : scanner) (given : List Entry) (end : segment_end)
        → HasScanned file s given → s.end ≡ Some end → IsSegment file s.id given end }
    ensures all { (file : List ℕ) (s : scanner) (given : List Entry)
        → HasScanned file s given → s.fed ≡ s.len → IsSome s.end }
{}
