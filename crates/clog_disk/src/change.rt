//! What was done to the files of a disk.
use clog_base::{Bytes, Name};

/// A call that answered Ok and may have changed a file.
#[derive(Drop)]
pub enum Change {
    /// These bytes were put at the end of a file, which was made where it was absent.
    Append(Name, Bytes),
    /// A file was put in place with these bytes.
    Publish(Name, Bytes),
    /// What the first name holds was given to the second too.
    Link(Name, Name),
    /// A file was removed.
    Remove(Name),
}
