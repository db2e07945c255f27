//! Tests of lines that writers log over a disk in memory, of the engine, and of a path over a
//! store, through their public calls. They stand in a crate of their own, since a crate that has
//! tests is proved a second time with them.
#![tactic(auto)]

#[cfg(test)]
mod acknowledged;
#[cfg(test)]
mod alone;
#[cfg(test)]
mod engine;
#[cfg(test)]
mod halting;
#[cfg(test)]
mod lines;
#[cfg(test)]
mod logged;
#[cfg(test)]
mod over_a_store;
#[cfg(test)]
mod pair;
#[cfg(test)]
mod payloads;
#[cfg(test)]
mod writers;
