//! How many threads share a piece of work, and values that are dropped in the background.
ghost use Rattle.std.specs.Prelude.{◌<◌, ◌≤◌};

use std::marker::Send;
use std::thread;
use std::thread::Threads;

// A value that holds fewer pieces of memory is dropped at once.
const LEAST_IN_BACKGROUND: usize = 4096;

/// How many threads share a piece of work: as many as there are processors, at most so many. It is
/// one where the system does not say how many processors there are.
pub fn thread_count<R: Threads>(rt: &R, most: usize) -> usize
    requires { 0 < most }
    ensures some { 0 < result }
    ensures few { result ≤ most }
{
    match thread::available_parallelism(rt) {
        Ok(processors) => processors.get().min(most),
        Err(_) => 1,
    }
}

/// Drops a value that holds so many pieces of memory. Where they are many it is dropped in the
/// background, by a thread for which nobody waits, if one can be started: pieces that lie scattered
/// take as long to give back as they took to write.
pub fn drop_in_background<R: Threads, T: Send + Drop + 'static>(rt: &R, pieces: usize, held: T) {
    if pieces < LEAST_IN_BACKGROUND {
        return;
    }
    drop(thread::spawn(rt, move || drop(held)));
}
