//! A path of two seats in batch mode over a store over a disk in memory, whose seats commit in turn
//! on one thread: so runs begin with the same calls of the disk, however many commits they have.
//! What the calls of the path ask is kept by the type.
ghost use Rattle.std.specs.Prelude.{◌≡◌, ℕ, ◌<◌, ◌^◌, true, false, is_some, IfOk};
ghost use Rattle.clog_base.specs.declared.sizes.Sizes.{Sizes};
ghost use Rattle.clog_mutation.specs.declared.mutation.Mutation.{Mutation};
ghost use Rattle.path_core.specs.Keeper.{IsFresh};
ghost use Rattle.path_table.specs.Members.{IsOf};
ghost use Rattle.path_flush.specs.Seats.{Stays};
ghost use Rattle.write_path.specs.Writes.{IsPrepared};

use crate::alone::prepared;
use clog_base::{Sizes, Table};
use clog_disk::MemDisk;
use clog_io::OpenGate;
use clog_store::Store;
use path_core::Keeper;
use std::alloc::Global;
use std::sync::Wait;
use std::test::Fail;
use std::thread::Threads;
use sync_core::SyncCore;
use write_path::{Commit, Flush, MOST_ISSUED, PathSeat, Prepared, WritePath};

// A path over a keeper that was just opened, for table files, and its two seats.
fn both_seated<K: Keeper + Drop>(
    alloc: Global,
    keeper: K,
    base: u64,
    sizes: Sizes,
) -> Result<(WritePath<K, Global>, PathSeat<K>, PathSeat<K>), Fail>
    requires fresh { IsFresh base sizes (K.holds keeper) }
    requires base { base < 2 ^ 62 }
    ensures zero { IfOk result (λ r. IsOf r.0.table.table.shared.table_id r.0.table.size
        r.1.member) }
    ensures one { IfOk result (λ r. IsOf r.0.table.table.shared.table_id r.0.table.size
        r.2.member) }
    ensures sized { IfOk result (λ r. (sizes.tables ≡ r.0.table.size.tables)
        × (sizes.capacity ≡ r.0.table.size.capacity) × (r.0.table.size.files ≡ true)
        × (sizes.writers ≡ r.0.table.size.seats)) }
    ensures handed { IfOk result (λ r. is_some r.0.opener ≡ false) }
{
    let Ok(mut path) = WritePath::open_filing(alloc, keeper, sizes, base, SyncCore::batch()) else {
        return Err(Fail::new("no path"));
    };
    let mut seats = path.seats(alloc)?;
    let (Some(one), Some(zero)) = (seats.pop(), seats.pop()) else {
        return Err(Fail::new("no two seats"));
    };
    Ok((path, zero, one))
}

// A seat commits a write, which lasts when that returns.
fn made_lasting<R: Wait, K: Keeper>(
    rt: &R,
    alloc: Global,
    path: &WritePath<K, Global>,
    seat: PathSeat<K>,
    write: Prepared,
) -> Result<PathSeat<K>, Fail>
    requires table { IsOf path.now.table.table.shared.table_id path.now.table.size seat.member }
    requires prepared { (sizes : Sizes) × (line : ℕ) × (m : Mutation)
        × IsPrepared sizes line m write × (sizes.tables ≡ path.now.table.size.tables)
        × (sizes.capacity ≡ path.now.table.size.capacity) }
    ensures { IfOk result (λ s. Stays path.now.table.table.shared.table_id path.now.table.size
        seat.member s.member) }
{
    if seat.issued() > MOST_ISSUED {
        return Err(Fail::new("too many barriers"));
    }
    match path.commit(rt, alloc, seat, write, &OpenGate::new()) {
        (seat, Commit::Durable(_)) => Ok(seat),
        _ => Err(Fail::new("a commit that does not last")),
    }
}

/// A path in segments of 4096 bytes, whose memtables may go to table files, and its two seats.
#[derive(Drop)]
pub(crate) struct Pair {
    path: WritePath<Store<MemDisk>, Global>,
    sizes: Sizes,
    zero: PathSeat<Store<MemDisk>>,
    one: PathSeat<Store<MemDisk>>,
    ghost of_zero: { IsOf path.table.table.shared.table_id path.table.size zero.member },
    ghost of_one: { IsOf path.table.table.shared.table_id path.table.size one.member },
    ghost sized: { (sizes.tables ≡ 16) × (path.table.size.tables ≡ 16)
        × (sizes.capacity ≡ path.table.size.capacity) × (path.table.size.files ≡ true) },
    ghost both: { (is_some path.opener ≡ false) × (path.table.size.seats ≡ 2)
        × (zero.member.number ≡ 0) × (one.member.number ≡ 1) },
}

impl Pair {
    /// Opened at 1000 ms over a disk with no file, so that the first segment is 1000.
    pub(crate) fn open(alloc: Global) -> Result<Pair, Fail> {
        let Some(sizes) = Sizes::make(16, 2, 4096, 2147483647) else {
            return Err(Fail::new("no sizes"));
        };
        let Ok(store) = Store::open(alloc, MemDisk::new(alloc), 1000, sizes, false) else {
            return Err(Fail::new("no store"));
        };
        let base = store.base();
        let (path, zero, one) = both_seated(alloc, store, base, sizes)?;
        if zero.member.number() != 0 {
            return Err(Fail::new("another first seat"));
        }
        if one.member.number() != 1 {
            return Err(Fail::new("another second seat"));
        }
        Ok(Pair {
            path,
            sizes,
            zero,
            one,
        })
    }

    /// A line with this payload is committed by its writer, and lasts.
    pub(crate) fn commit<R: Wait>(
        self,
        rt: &R,
        alloc: Global,
        line: u8,
        payload: &[u8],
    ) -> Result<Pair, Fail> {
        let Pair {
            path,
            sizes,
            zero,
            one,
        } = self;
        let write = prepared(alloc, sizes, u32::from(line), payload)?;
        if line % 2 == 0 {
            let zero = made_lasting(rt, alloc, &path, zero, write)?;
            return Ok(Pair {
                path,
                sizes,
                zero,
                one,
            });
        }
        let one = made_lasting(rt, alloc, &path, one, write)?;
        Ok(Pair {
            path,
            sizes,
            zero,
            one,
        })
    }

    /// Writer 0 flushes table 1, which becomes a file.
    pub(crate) fn flush<R: Wait>(self, rt: &R, alloc: Global) -> Result<Pair, Fail> {
        let Pair {
            path,
            sizes,
            zero,
            one,
        } = self;
        if zero.issued() > MOST_ISSUED {
            return Err(Fail::new("too many barriers"));
        }
        match path.flush(rt, alloc, zero, Table(1)) {
            (zero, Flush::Flushed { .. }) => Ok(Pair {
                path,
                sizes,
                zero,
                one,
            }),
            _ => Err(Fail::new("no table file")),
        }
    }

    /// The disk, once the path is closed. That makes no call of the disk.
    pub(crate) fn close<R: Threads>(self, rt: &R, alloc: Global) -> Result<MemDisk, Fail> {
        let Pair {
            path,
            sizes: _,
            zero,
            one,
        } = self;
        let mut seats = Vec::new(alloc);
        seats.push(zero)?;
        seats.push(one)?;
        let (store, _outcome) = path.close(rt, alloc, seats);
        Ok(store.into_disk(rt))
    }
}
