//! What the notes of a log are as its lines: what each says, and where it stands.
#![tactic(auto)]

mod laws;

pub use laws::{notes_tell_their_lines, whole_notes_are_logged_lines};
