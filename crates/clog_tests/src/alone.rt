//! A path of one seat over a store over a disk in memory, for tests of what its commits and flushes
//! are answered. What the calls of the path ask is kept by the type.
ghost use Rattle.std.specs.Prelude.{◌≡◌, ◌<◌, ◌^◌, true, false, is_some, IfOk};
ghost use Rattle.clog_mutation.specs.declared.mutation.Mutation.{Mutation};
ghost use Rattle.path_core.specs.Keeper.{IsFresh};
ghost use Rattle.path_table.specs.Members.{IsOf};
ghost use Rattle.write_path.specs.Writes.{IsPrepared};

use clog_base::{Sizes, Table};
use clog_disk::MemDisk;
use clog_io::OpenGate;
use clog_mutation::decode;
use clog_store::Store;
use path_core::Keeper;
use std::alloc::Global;
use std::sync::Wait;
use std::test::Fail;
use std::thread::Threads;
use sync_core::SyncCore;
use write_path::{Commit, Flush, MOST_ISSUED, PathSeat, Prepared, WritePath};

/// Between a table and a value's length: column `c`, timestamp 1.
const BEHIND_TABLE: &[u8] = b"\x00\x01c\x00\x00\x00\x00\x00\x00\x00\x01\x01";

/// The payload of a value of so many letters, with a key of one byte, in a table. Its entry is 34
/// bytes longer.
pub(crate) fn payload_of(alloc: Global, key: u8, table: u8, letters: u32) -> Result<Vec<u8>, Fail> {
    let mut payload = Vec::new(alloc);
    payload.extend_from_slice(&[0, 1, key, 0, 1, table])?;
    payload.extend_from_slice(BEHIND_TABLE)?;
    payload.extend_from_slice(&letters.to_be_bytes())?;
    for _ in 0..letters {
        payload.push(b'x')?;
    }
    Ok(payload)
}

// The write of a line with this payload.
pub(crate) fn prepared(
    alloc: Global,
    sizes: Sizes,
    line: u32,
    payload: &[u8],
) -> Result<Prepared, Fail>
    requires { sizes.tables ≡ 16 }
    ensures { IfOk result (λ p. (m : Mutation) × IsPrepared sizes line m p) }
{
    Ok(Prepared::make(alloc, sizes, line, decode(alloc, payload)?)?)
}

// A path over a keeper that was just opened, for table files, and its last seat.
fn seated<K: Keeper + Drop>(
    alloc: Global,
    keeper: K,
    base: u64,
    sizes: Sizes,
    mode: SyncCore,
) -> Result<(WritePath<K, Global>, PathSeat<K>), Fail>
    requires fresh { IsFresh base sizes (K.holds keeper) }
    requires base { base < 2 ^ 62 }
    ensures of { IfOk result (λ r. IsOf r.0.table.table.shared.table_id r.0.table.size r.1.member) }
    ensures sized { IfOk result (λ r. (sizes.tables ≡ r.0.table.size.tables)
        × (sizes.capacity ≡ r.0.table.size.capacity) × (r.0.table.size.files ≡ true)
        × (sizes.writers ≡ r.0.table.size.seats)) }
    ensures handed { IfOk result (λ r. is_some r.0.opener ≡ false) }
{
    let Ok(mut path) = WritePath::open_filing(alloc, keeper, sizes, base, mode) else {
        return Err(Fail::new("no path"));
    };
    let Some(seat) = path.seats(alloc)?.pop() else {
        return Err(Fail::new("no seat"));
    };
    Ok((path, seat))
}

/// A path in segments of 4096 bytes, whose memtables may go to table files, and its one seat.
#[derive(Drop)]
pub(crate) struct Alone {
    path: WritePath<Store<MemDisk>, Global>,
    seat: PathSeat<Store<MemDisk>>,
    ghost of: { IsOf path.table.table.shared.table_id path.table.size seat.member },
    ghost sized: { (path.table.size.tables ≡ 16) × (path.table.size.capacity ≡ 4096)
        × (path.table.size.files ≡ true) },
    ghost alone: { (is_some path.opener ≡ false) × (path.table.size.seats ≡ 1)
        × (seat.member.number ≡ 0) },
}

impl Alone {
    /// Opened at 1000 ms over a disk with no file, so that the first segment is 1000.
    pub(crate) fn open(alloc: Global, disk: MemDisk, mode: SyncCore) -> Result<Alone, Fail> {
        let Some(sizes) = Sizes::make(16, 1, 4096, 2147483647) else {
            return Err(Fail::new("no sizes"));
        };
        let Ok(store) = Store::open(alloc, disk, 1000, sizes, false) else {
            return Err(Fail::new("no store"));
        };
        let base = store.base();
        let (path, seat) = seated(alloc, store, base, sizes, mode)?;
        if seat.member.number() != 0 {
            return Err(Fail::new("another seat"));
        }
        Ok(Alone { path, seat })
    }

    /// The write of a line with this payload is committed.
    pub(crate) fn commit<R: Wait>(
        self,
        rt: &R,
        alloc: Global,
        line: u32,
        payload: &[u8],
    ) -> Result<(Alone, Commit), Fail> {
        let Some(sizes) = Sizes::make(16, 1, 4096, 2147483647) else {
            return Err(Fail::new("no sizes"));
        };
        let write = prepared(alloc, sizes, line, payload)?;
        let Alone { path, seat } = self;
        if seat.issued() > MOST_ISSUED {
            return Err(Fail::new("too many barriers"));
        }
        let (seat, commit) = path.commit(rt, alloc, seat, write, &OpenGate::new());
        Ok((Alone { path, seat }, commit))
    }

    /// Table 0 is flushed.
    pub(crate) fn flush<R: Wait>(self, rt: &R, alloc: Global) -> Result<(Alone, Flush), Fail> {
        let Alone { path, seat } = self;
        if seat.issued() > MOST_ISSUED {
            return Err(Fail::new("too many barriers"));
        }
        let (seat, flush) = path.flush(rt, alloc, seat, Table(0));
        Ok((Alone { path, seat }, flush))
    }

    /// The disk, once the path is closed.
    pub(crate) fn close<R: Threads>(self, rt: &R, alloc: Global) -> Result<MemDisk, Fail> {
        let Alone { path, seat } = self;
        let mut seats = Vec::new(alloc);
        seats.push(seat)?;
        let (store, _outcome) = path.close(rt, alloc, seats);
        Ok(store.into_disk(rt))
    }
}
