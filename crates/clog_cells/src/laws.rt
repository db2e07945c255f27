//! Laws of the order of cells and of merging. Each is the contract of a function that does nothing.
ghost use Rattle.std.specs.Prelude.{
  ◌≡◌,
  ◌<◌,
  ◌<ℤ◌,
  ◌+◌,
  ◌++◌,
  ◌↔◌,
  ℕ,
  List,
  Contains,
  true,
};
ghost use Rattle.std.specs.declared.cmp.Ordering.TheVariants.{Less, Equal, Greater};
ghost use Rattle.std.specs.Ordering.{nat_cmp};
ghost use Rattle.std.specs.Cmp.{IsTotalOrder};
ghost use Rattle.std.specs.Cmp.Lexicographic.{slice_cmp};
ghost use Rattle.clog_base.specs.declared.cell.Kind.TheVariants.{Deletion, Live};
ghost use Rattle.clog_base.specs.declared.cell.Cell.{Cell};
ghost use Rattle.clog_base.specs.declared.cell.CellKey.{CellKey};
ghost use Rattle.clog_base.specs.declared.cell.Table.{Table};
ghost use Rattle.clog_cells.specs.Merge.{
  cell_cmp,
  is_newer,
  key_cmp,
  AreInOrder,
  IsMerge,
  HaveSameMembers,
  part_on,
};
ghost use Rattle.clog_cells.specs.Parted.{part_below, part_from};

/// Cells and keys are totally ordered, and what compares as equal is the same. Bytes are compared
/// unsigned, and a proper prefix is smaller.
pub fn order_laws()
    ensures cells { IsTotalOrder cell_cmp }
    ensures one_cell { (a b : Cell) → cell_cmp a b ≡ Equal → a ≡ b }
    // The greater timestamp is newer.
    ensures later { (a b : Cell) → b.ts <ℤ a.ts → is_newer a b ≡ true }
    // At one timestamp a deletion is newer than a live value.
    ensures deletion { (a b : Cell) → a.ts ≡ b.ts → a.kind ≡ Deletion → b.kind ≡ Live
        → is_newer a b ≡ true }
    // Of two live values at one timestamp that of the greater bytes is newer.
    ensures bytes { (a b : Cell) → a.ts ≡ b.ts → a.kind ≡ Live → b.kind ≡ Live
        → slice_cmp nat_cmp a.value b.value ≡ Greater → is_newer a b ≡ true }
    ensures keys { IsTotalOrder key_cmp }
    ensures one_key { (a b : CellKey) → key_cmp a b ≡ Equal → a ≡ b }
    // Keys stand by table, in a table by their bytes, and under one key by the column's.
    ensures table { (a b : CellKey) → a.table.0 < b.table.0 → key_cmp a b ≡ Less }
    ensures key { (a b : CellKey) → a.table ≡ b.table → slice_cmp nat_cmp a.key b.key ≡ Less
        → key_cmp a b ≡ Less }
    ensures column { (a b : CellKey) → a.table ≡ b.table → a.key ≡ b.key
        → slice_cmp nat_cmp a.column b.column ≡ Less → key_cmp a b ≡ Less }
{}

/// A list of cells has one merge, which its members alone decide, and which may be made in parts.
pub fn merge_laws()
    // There is a merge.
    ensures merge_of { (pairs : List (CellKey × Cell))
        → (rows : List (CellKey × Cell)) × IsMerge pairs rows }
    // The merge is unique.
    ensures unique { (pairs rows others : List (CellKey × Cell))
        → IsMerge pairs rows → IsMerge pairs others → rows ≡ others }
    // It depends on the members of the list, and not on their order or number.
    ensures members { (pairs others rows : List (CellKey × Cell))
        → HaveSameMembers pairs others → IsMerge pairs rows → IsMerge others rows }
    // Rows in order are their own merge.
    ensures itself { (rows : List (CellKey × Cell)) → AreInOrder rows → IsMerge rows rows }
    // Merging on from a merge is merging all.
    ensures continues { (pairs merged more rows : List (CellKey × Cell))
        → IsMerge pairs merged → IsMerge (merged ++ more) rows → IsMerge (pairs ++ more) rows }
    // Merging two merges is merging the concatenation.
    ensures joins { (pairs others left right rows : List (CellKey × Cell))
        → IsMerge pairs left → IsMerge others right
        → IsMerge (left ++ right) rows → IsMerge (pairs ++ others) rows }
    // The part of a merge on a table is the merge of the part.
    ensures part { (table : Table) (pairs rows : List (CellKey × Cell))
        → IsMerge pairs rows → IsMerge (part_on table pairs) (part_on table rows) }
    // What that part holds is what stands at the table's own keys.
    ensures on_table { (table : Table) (rows : List (CellKey × Cell)) (pair : CellKey × Cell)
        → Contains (part_on table rows) pair ↔ (Contains rows pair × (pair.0.table ≡ table)) }
{}

/// Cells that are parted at one table after another come table by table.
pub fn parting_laws()
    // What is below the next table, of what stands from a table on, is the table's.
    ensures below_next { (table : Table) (rows : List (CellKey × Cell))
        → part_below (table.0 + 1) (part_from table.0 rows) ≡ part_on table rows }
    // What stands from the next table on, of that, is what stands from there on in all.
    ensures from_next { (number : ℕ) (rows : List (CellKey × Cell))
        → part_from (number + 1) (part_from number rows) ≡ part_from (number + 1) rows }
    // From the first table on all stand.
    ensures from_first { (rows : List (CellKey × Cell)) → part_from 0 rows ≡ rows }
{}
