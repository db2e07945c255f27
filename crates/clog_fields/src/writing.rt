//! Fields are appended to what is there. What is written can be read back: it is within the limits,
//! and its texts are UTF-8. For want of memory a first part of a field may stand behind what was
//! there.
ghost use Rattle.std.specs.Prelude.{◌≡◌, ◌<◌, ◌^◌, ◌++◌, length, OnOk, OnErr, IsUtf8, FitsSigned};
ghost use Rattle.std.specs.Int.{w64};
ghost use Rattle.clog_fields.specs.Limits.{IsNameLength, IsValueSize, IsNameText, IsStoredValue};
ghost use Rattle.clog_fields.specs.Fields.{short_text, timestamp_bytes, tagged, AppendsPart};

use clog_base::{Kind, OutOfMemory, Text};

#[inline]
fn bytes_of(text: &Text) -> &[u8]
    ensures bytes { result.now ≡ text.now }
    ensures utf8 { IsUtf8 text.now }
{
    text.as_str().as_bytes()
}

/// Appends a key or a column: its length in two bytes, and its bytes.
#[inline]
pub fn put_name(out: &mut Vec<u8>, name: &Text) -> Result<(), OutOfMemory>
    requires { IsNameLength (length name.now) }
    ensures bytes { OnOk result (out.new.items ≡ out.old.items ++ short_text name.now) }
    ensures stored { OnOk result (IsNameText name.now) }
    ensures err { OnErr result (AppendsPart out.old.items out.new.items (short_text name.now)) }
{
    out.extend_from_slice(&(name.len() as u16).to_be_bytes())?;
    Ok(out.extend_from_slice(bytes_of(name))?)
}

/// Appends a timestamp, eight bytes. For want of memory nothing was appended.
#[inline]
pub fn put_timestamp(out: &mut Vec<u8>, ts: i64) -> Result<(), OutOfMemory>
    ensures bytes { OnOk result (out.new.items ≡ out.old.items ++ timestamp_bytes ts) }
    ensures stored { FitsSigned w64 ts }
    ensures err { OnErr result (out.new.items ≡ out.old.items) }
{
    Ok(out.extend_from_slice(&ts.to_be_bytes())?)
}

/// Appends a value behind its tag: 0 is a deletion, and behind 1 stand the length of a live value
/// in four bytes and its bytes.
#[inline]
pub fn put_value(out: &mut Vec<u8>, kind: Kind, value: &Text) -> Result<(), OutOfMemory>
    requires { IsValueSize kind value.now }
    ensures bytes { OnOk result (out.new.items ≡ out.old.items ++ tagged kind value.now) }
    ensures stored { OnOk result (IsStoredValue kind value.now) }
    ensures err { OnErr result
        (AppendsPart out.old.items out.new.items (tagged kind value.now)) }
{
    match kind {
        Kind::Deletion => Ok(out.push(0)?),
        Kind::Live => {
            out.push(1)?;
            out.extend_from_slice(&(value.len() as u32).to_be_bytes())?;
            Ok(out.extend_from_slice(bytes_of(value))?)
        }
    }
}

/// How many bytes a value and its tag have.
#[inline]
pub fn value_size(kind: Kind, value: &Text) -> u128
    ensures exact { result ≡ length (tagged kind value.now) }
    ensures bound { result < 2 ^ 65 }
{
    match kind {
        Kind::Deletion => 1,
        Kind::Live => 5 + value.len() as u128,
    }
}
