//! Why a segment is torn.
use clog_base::PayloadFault;

/// Why bytes of a segment are no header, marker or entry at the place where one is read. The places
/// are offsets in the segment's file, in bytes.
#[derive(Clone, Copy, Debug, PartialEq, Eq)]
pub enum Cause {
    /// The file, or the section, ends before the header or the entry does.
    Short,
    /// The size of an entry is below 10, which is Cassandra's own bound. The least payload of this
    /// project has 18 bytes.
    SizeUnder10,
    /// The check of an entry's size is wrong.
    SizeCheck,
    /// The check of an entry's size and payload is wrong.
    BodyCheck,
    /// The entry ends behind its section.
    PastSection,
    /// The version is not 6 but this.
    Version(u32),
    /// The header's parameters are other than `{}`: the segment is compressed or encrypted.
    Parameters,
    /// The header's check is wrong.
    HeaderCheck,
    /// A marker's check is wrong.
    MarkerCheck,
    /// A marker points to this place, within itself or before it, or behind the end of the file.
    MarkerTarget(u32),
    /// The header has this id, which is not that of the file's name.
    HeaderId(u64),
    /// An entry's payload is no mutation. The readers of this crate never give it.
    Payload(PayloadFault),
}
