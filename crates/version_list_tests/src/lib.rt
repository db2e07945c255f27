//! The list by its calls: seats that publish in threads, a seat that learns from both, a read
//! beside a publication that is held, and an entry that finds no memory.
#![tactic(auto)]

#[cfg(test)]
mod finding;
#[cfg(test)]
mod hold;
#[cfg(test)]
mod holding;
#[cfg(test)]
mod late;
#[cfg(test)]
mod learning;
mod row;
#[cfg(test)]
mod rows;

pub use row::Row;
