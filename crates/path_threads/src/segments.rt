//! The segments of a disk are read again, whole, by id.
ghost use Rattle.std.specs.Prelude.{◌<◌, ◌^◌, IfOk, length};

use anyhow::{Result, bail};
use clog_base::{FILE_LIMIT, Name};
use clog_disk::Disk;
use clog_folder::segment_names;
use clog_scan::{Founds, scan};
use std::alloc::Global;

/// A segment of a disk.
#[derive(Drop)]
pub struct SegmentRead {
    /// Its id.
    pub id: u64,
    /// All its bytes.
    pub bytes: Vec<u8>,
    /// Its entries, in order.
    pub entries: Founds,
}

// The bytes of the file of a segment.
fn bytes_on<D: Disk>(disk: &mut D, name: &Name) -> Result<Vec<u8>>
    ensures { IfOk result (λ bytes. length bytes.items < 2 ^ 31) }
{
    let Ok(len) = disk.len(name) else {
        bail!("a segment has no length");
    };
    if len > FILE_LIMIT {
        bail!("a segment has {len} bytes");
    }
    match disk.read(name, 0, len as u32) {
        Ok(bytes) => Ok(bytes),
        Err(_) => bail!("a segment is not read again"),
    }
}

// The segment of an id, whose file has this name.
fn segment_on<D: Disk>(alloc: Global, disk: &mut D, id: u64, name: &Name) -> Result<SegmentRead> {
    let bytes = bytes_on(disk, name)?;
    let Ok(scanned) = scan(alloc, bytes.as_slice(), id) else {
        bail!("no memory for the entries of segment {id}");
    };
    Ok(SegmentRead {
        id,
        bytes,
        entries: scanned.entries,
    })
}

/// The segments of a disk, by id.
pub fn segments_on<D: Disk>(alloc: Global, disk: &mut D) -> Result<Vec<SegmentRead>> {
    let Ok(names) = disk.list() else {
        bail!("the disk does not list its files");
    };
    let Ok(places) = segment_names(alloc, names.as_slice()) else {
        bail!("no memory for the names of segments");
    };
    let mut segments = Vec::new(alloc);
    for ((id, version), name) in places {
        if version != 6 {
            bail!("segment {id} is of version {version}");
        }
        segments.push(segment_on(alloc, disk, id, &name)?)?;
    }
    Ok(segments)
}
