//! What tests assert of texts, proved once: each `assert_eq!` in a test costs the proof of all that
//! stands around it.
use std::process::Abort;

pub fn same_bytes(rt: &impl Abort, found: &[u8], wanted: &[u8]) {
    assert_eq!(rt; found, wanted);
}

pub fn same_text(rt: &impl Abort, found: &str, wanted: &str) {
    assert_eq!(rt; found, wanted);
}
