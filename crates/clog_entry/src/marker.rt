//! What a reader finds in a marker's place.

/// A marker's place holds nothing more, or a section.
#[derive(Clone, Copy, Debug, PartialEq, Eq)]
pub enum Marker {
    /// The segment ends here.
    End,
    /// A section begins behind the marker and ends at this offset in the file, exclusive. The next
    /// marker is read there.
    Section(u32),
}
