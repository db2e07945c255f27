//! Tests of what a folder holds, what it restores to, and what a memtable holds of it, through
//! public calls. They stand in a crate of their own, since a crate that has tests is proved a
//! second time with them.
#![tactic(auto)]

#[cfg(test)]
mod folders;
#[cfg(test)]
mod memtables;
#[cfg(test)]
mod replays;
