//! Mutations and the bytes of their payloads.
#![tactic(auto)]

mod checking;
mod laws;
mod lending;
mod lent;
mod mutation;
mod reading;
mod writing;

pub use checking::check;
pub use laws::payload_laws;
pub use lending::lend;
pub use lent::{LentMutation, LentUpdate};
pub use mutation::{Mutation, Mutations, Update, Updates};
pub use reading::decode;
pub use writing::{encode, payload_size, put_mutation};
