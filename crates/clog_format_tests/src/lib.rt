//! Tests of the formats and what they are made of, from names and checks to table files, through
//! public calls. They stand in a crate of their own, since a crate that has tests is proved a
//! second time with them.
#![tactic(auto)]

#[cfg(test)]
mod cells;
#[cfg(test)]
mod checks;
#[cfg(test)]
mod entries;
#[cfg(test)]
mod intervals;
#[cfg(test)]
mod mutations;
#[cfg(test)]
mod names;
#[cfg(test)]
mod pieces;
#[cfg(test)]
mod same;
#[cfg(test)]
mod segments;
#[cfg(test)]
mod tables;
