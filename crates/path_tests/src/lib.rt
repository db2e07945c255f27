//! Tests of the path, from its groups and its machine to its writers, through their public calls.
//! They stand in a crate of their own, since a crate that has tests is proved a second time with
//! them, and the law of the path is long.
#![tactic(auto)]

#[cfg(test)]
mod above;
#[cfg(test)]
mod applying;
#[cfg(test)]
mod barriers;
#[cfg(test)]
mod commits;
#[cfg(test)]
mod flushes;
#[cfg(test)]
mod going_on;
#[cfg(test)]
mod issuing;
#[cfg(test)]
mod late;
#[cfg(test)]
mod machine;
#[cfg(test)]
mod orders;
#[cfg(test)]
mod refusing;
#[cfg(test)]
mod rolling;
#[cfg(test)]
mod stopping;
#[cfg(test)]
mod switches;
#[cfg(test)]
mod syncs;
#[cfg(test)]
mod turns;
#[cfg(test)]
mod writes;
