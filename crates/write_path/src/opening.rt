//! A path is opened over a keeper that was just opened, and its seats are handed out once.
ghost use Rattle.std.specs.Prelude.{
  ◌≡◌,
  ◌+◌,
  ◌<◌,
  ◌≤◌,
  ◌^◌,
  [],
  None,
  vec_capacity,
  IfOk,
  IfErr,
  OnOk,
  OnErr,
  IsSome,
};
ghost use Rattle.path_core.specs.Keeper.{IsFresh};
ghost use Rattle.write_path.specs.Opened.{
  sized_for,
  size_of,
  filing_size_of,
  ShowsAsBefore,
  IsUnused,
  IsNewSeat,
  AreNew,
};

use crate::resting::Resting;
use crate::seats::WritePath;
use clog_base::{OutOfMemory, Sizes};
use path_core::Keeper;
use path_rule::PathSize;
use path_table::{Opener, PathSeat, PathTable};
use std::alloc::{Allocator, Global};
use sync_core::SyncCore;

// What a path is told of its sizes and of its keeper's, and whether its memtables may go to files.
fn size_for(files: bool, sizes: Sizes, base: u64, at_open: u64) -> PathSize
    ensures { result ≡ sized_for files sizes base at_open }
{
    PathSize {
        tables: u64::from(sizes.tables),
        seats: u64::from(sizes.writers),
        capacity: u64::from(sizes.capacity),
        ordinals: u64::from(sizes.ordinals),
        base,
        at_open,
        files,
    }
}

impl<K: Keeper + Drop> WritePath<K, Global> {
    /// Opens a path over a keeper of this base and these sizes that was just opened. Its commits
    /// are made lasting in this mode, and its seats are not handed out yet. Where memory is refused
    /// the keeper comes back, and shows what it did.
    ///
    /// No memtable of it goes to a table file, and no segment is dropped (Cassandra: tables that
    /// are not flushed while they are written). Where some are to be flushed, take `open_filing`.
    pub fn open(
        alloc: Global,
        keeper: K,
        sizes: Sizes,
        base: u64,
        mode: SyncCore,
    ) -> Result<WritePath<K, Global>, (K, OutOfMemory)>
        requires fresh { IsFresh base sizes (K.holds keeper) }
        requires base { base < 2 ^ 62 }
        ensures opened { IfOk result (λ p. (IsSome p.opener)
            × (p.table.size ≡ size_of sizes base (K.holds keeper).at_open)
            × (p.mode ≡ mode)) }
        ensures first { IfOk result (λ p. p.table.table.shared.key.first.value ≡ keeper) }
        ensures back { IfErr result (λ r. ShowsAsBefore (K.holds keeper) (K.holds r.0)) }
    {
        Self::open_for(alloc, keeper, sizes, base, mode, false)
    }

    /// Opens a path as `open` does, whose memtables may go to table files, so that segments of the
    /// log may be dropped (Cassandra: tables that are flushed while they are written). What its
    /// close tells of files is then what `IsOutcome` says of both kinds of path.
    pub fn open_filing(
        alloc: Global,
        keeper: K,
        sizes: Sizes,
        base: u64,
        mode: SyncCore,
    ) -> Result<WritePath<K, Global>, (K, OutOfMemory)>
        requires fresh { IsFresh base sizes (K.holds keeper) }
        requires base { base < 2 ^ 62 }
        ensures opened { IfOk result (λ p. (IsSome p.opener)
            × (p.table.size ≡ filing_size_of sizes base (K.holds keeper).at_open)
            × (p.mode ≡ mode)) }
        ensures first { IfOk result (λ p. p.table.table.shared.key.first.value ≡ keeper) }
        ensures back { IfErr result (λ r. ShowsAsBefore (K.holds keeper) (K.holds r.0)) }
    {
        Self::open_for(alloc, keeper, sizes, base, mode, true)
    }

    // Opens a path of either kind.
    fn open_for(
        alloc: Global,
        keeper: K,
        sizes: Sizes,
        base: u64,
        mode: SyncCore,
        files: bool,
    ) -> Result<WritePath<K, Global>, (K, OutOfMemory)>
        requires fresh { IsFresh base sizes (K.holds keeper) }
        requires base { base < 2 ^ 62 }
        ensures opened { IfOk result (λ p. (IsSome p.opener)
            × (p.table.size ≡ sized_for files sizes base (K.holds keeper).at_open)
            × (p.mode ≡ mode)) }
        ensures first { IfOk result (λ p. p.table.table.shared.key.first.value ≡ keeper) }
        ensures back { IfErr result (λ r. ShowsAsBefore (K.holds keeper) (K.holds r.0)) }
    {
        let size = size_for(files, sizes, base, keeper.at_open());
        let (table, opener) = match path_table::open(alloc, keeper, size) {
            Ok(opened) => opened,
            Err(refused) => return Err(refused),
        };
        match Resting::lay(alloc, opener) {
            Ok(opener) => Ok(WritePath {
                table,
                opener: Some(opener),
                mode,
            }),
            Err(opener) => {
                let (keeper, _log, _bounds) = table.finish_unused(alloc, opener);
                Err((keeper, OutOfMemory))
            }
        }
    }
}

// The next seat, which has made no step.
fn next_seat<K: Keeper, A: Allocator>(
    table: &PathTable<K, A>,
    opener: &mut Opener<K>,
) -> PathSeat<K>
    requires table { (opener.old.seat.table_id ≡ table.now.table.shared.table_id)
        × (opener.old.seat.me.0.size ≡ table.now.size) }
    requires left { opener.old.made < table.now.size.seats }
    ensures opener { (opener.new.seat.table_id ≡ opener.old.seat.table_id)
        × (opener.new.made ≡ opener.old.made + 1)
        × (opener.new.seat.me.0.size ≡ opener.old.seat.me.0.size) }
    ensures number { result.member.number ≡ opener.old.made }
    ensures seat { IsNewSeat table.now.table.shared.table_id table.now.size result }
{
    PathSeat {
        member: table.seat(opener),
    }
}

// Hands out all seats.
fn hand_out<K: Keeper, A: Allocator>(
    table: &PathTable<K, A>,
    opener: Opener<K>,
    seats: &mut Vec<PathSeat<K>>,
)
    requires opener { IsUnused table.now.table.shared.table_id table.now.size opener }
    requires room { table.now.size.seats ≤ vec_capacity seats.old }
    requires void { seats.old.items ≡ [] }
    ensures { AreNew table.now.table.shared.table_id table.now.size table.now.size.seats
        seats.new.items }
{
    let mut opener = opener;
    for _ in 0..table.size().seats {
        let seat = next_seat(table, &mut opener);
        if seats.push(seat).is_err() {
            unreachable!()
        }
    }
}

impl<K: Keeper, A: Allocator> WritePath<K, A> {
    /// Hands out the seats, one for each writer, in order. It may be asked for once; where memory
    /// is refused nothing has changed, and it may be asked again.
    pub fn seats(&mut self, alloc: Global) -> Result<Vec<PathSeat<K>>, OutOfMemory>
        requires { IsSome self.old.opener }
        ensures seats { IfOk result (λ v. AreNew self.old.table.table.shared.table_id
            self.old.table.size self.old.table.size.seats v.items) }
        ensures path { (self.new.table ≡ self.old.table) × (self.new.mode ≡ self.old.mode) }
        ensures made { OnOk result (self.new.opener ≡ None) }
        ensures refused { OnErr result (self.new ≡ self.old) }
    {
        let mut seats = Vec::with_capacity(alloc, self.table.size().seats as usize)?;
        match self.opener.take() {
            Some(opener) => hand_out(&self.table, opener.take(), &mut seats),
            None => unreachable!(),
        }
        Ok(seats)
    }
}
