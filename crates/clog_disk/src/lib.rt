//! The disk as the commit log sees it: files by name, what a crash may leave of them, and faults
//! that are counted. `FolderDisk` is a real folder, `MemDisk` is in memory.
#![tactic(auto)]

mod change;
mod disk;
mod folder;
mod held;
mod hold;
mod listed;
mod memory;
mod moved;
mod real_files;
mod stored;
mod unfinished;

pub use change::Change;
pub use disk::{Disk, DiskFault};
pub use folder::FolderDisk;
pub use memory::MemDisk;
