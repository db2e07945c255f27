//! Where a publication is held until a reader has read.
use std::hint::spin_loop;
use std::sync::atomic::{AtomicBool, Ordering};

// How many turns a wait has at most.
const MOST_TURNS: u32 = 100_000_000;

/// Who has come there, and whether a wait was given up.
#[derive(Drop)]
pub struct Hold {
    is_held: AtomicBool,
    has_read: AtomicBool,
    was_given_up: AtomicBool,
}

impl Hold {
    pub fn new() -> Hold {
        Hold {
            is_held: AtomicBool::new(false),
            has_read: AtomicBool::new(false),
            was_given_up: AtomicBool::new(false),
        }
    }

    fn wait(&self, until: &AtomicBool) {
        for _ in 0..MOST_TURNS {
            if until.load(Ordering::SeqCst) {
                return;
            }
            spin_loop();
        }
        self.was_given_up.store(true, Ordering::SeqCst);
    }

    /// The publication comes, and waits for the reader.
    pub fn publication_comes(&self) {
        self.is_held.store(true, Ordering::SeqCst);
        self.wait(&self.has_read);
    }

    /// The reader waits for the publication.
    pub fn reader_comes(&self) {
        self.wait(&self.is_held);
    }

    /// The reader has read.
    pub fn reader_goes(&self) {
        self.has_read.store(true, Ordering::SeqCst);
    }

    /// Whether no wait was given up.
    pub fn ended_well(&self) -> bool {
        !self.was_given_up.load(Ordering::SeqCst)
    }
}
