//! What `scan` prints of a segment.
ghost use Rattle.std.specs.Prelude.{◌≡◌, ◌-◌, ◌++◌, decimal, OnOk, IfOk};
ghost use Rattle.std.specs.List.{flat_map};
ghost use Rattle.clog_spec.specs.Sizes.{frame_size};
ghost use Rattle.clog_engine.specs.ScanReport.{
  segment_line,
  found_line,
  end_line,
  found_report,
};

use crate::printing::Report;
use clog_base::{FRAME_SIZE, OutOfMemory};
use clog_scan::{End, Found, Scan};
use itoa::Buffer;
use std::alloc::{AllocError, Global};

fn put_number(out: &mut Vec<u8>, number: u64) -> Result<(), AllocError>
    ensures { OnOk result (out.new.items ≡ out.old.items ++ decimal number) }
{
    let mut buffer = Buffer::new();
    out.extend_from_slice(buffer.format(number).as_bytes())
}

fn put_segment(out: &mut Vec<u8>, id: u64) -> Result<(), AllocError>
    ensures { OnOk result (out.new.items ≡ out.old.items ++ segment_line id) }
{
    out.extend_from_slice(b"segment ")?;
    put_number(out, id)?;
    Ok(out.push(b'\n')?)
}

// The length of an entry's payload.
fn payload_len(found: Found) -> u32
    ensures { result ≡ found.end - found.start - frame_size }
{
    found
        .end
        .saturating_sub(found.start)
        .saturating_sub(FRAME_SIZE as u32)
}

fn put_found(out: &mut Vec<u8>, found: Found) -> Result<(), AllocError>
    ensures { OnOk result (out.new.items ≡ out.old.items ++ found_line found) }
{
    out.extend_from_slice(b"entry ")?;
    put_number(out, u64::from(found.start))?;
    out.push(b' ')?;
    put_number(out, u64::from(found.end))?;
    out.push(b' ')?;
    put_number(out, u64::from(payload_len(found)))?;
    Ok(out.push(b'\n')?)
}

fn put_founds(out: &mut Vec<u8>, founds: &[Found]) -> Result<(), AllocError>
    ensures { OnOk result (out.new.items ≡ out.old.items ++ flat_map found_line founds.now) }
{
    for found in founds {
        put_found(out, *found)?;
    }
    Ok(())
}

fn put_end(out: &mut Vec<u8>, end: End) -> Result<(), AllocError>
    ensures { OnOk result (out.new.items ≡ out.old.items ++ end_line end) }
{
    match end {
        End::Clean(at) => {
            out.extend_from_slice(b"end clean ")?;
            put_number(out, u64::from(at))?;
            Ok(out.push(b'\n')?)
        }
        End::Torn(at, cause) => {
            out.extend_from_slice(b"end torn ")?;
            put_number(out, u64::from(at))?;
            out.push(b' ')?;
            out.extend_from_slice(cause.text().as_bytes())?;
            Ok(out.push(b'\n')?)
        }
    }
}

/// The report of the segment of an id: its entries, in order, and its end.
pub(crate) fn scan_report(alloc: Global, id: u64, scan: &Scan) -> Result<Report, OutOfMemory>
    ensures { IfOk result (λ text. text ≡ found_report id scan.now.entries scan.now.end) }
{
    let mut out = Vec::new(alloc);
    put_segment(&mut out, id)?;
    put_founds(&mut out, scan.entries.as_slice())?;
    put_end(&mut out, scan.end)?;
    Ok(Report::whole(alloc, out))
}
