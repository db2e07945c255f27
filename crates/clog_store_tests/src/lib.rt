//! Tests of the store, and of the log over segments below it, over disks in memory, through their
//! public calls. They stand in a crate of their own, since a crate that has tests is proved a
//! second time with them.
#![tactic(auto)]

#[cfg(test)]
mod tests;
