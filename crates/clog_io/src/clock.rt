//! What time it is, in milliseconds since the start of 1970.
ghost use Rattle.std.specs.Prelude.{◌≡◌, ◌<◌, ◌^◌, ℕ, vec_len, Contains, All};

use std::rt;
use std::sync::atomic::{AtomicUsize, Ordering};
use std::time::{SystemTime, UNIX_EPOCH};

/// The first moment that no clock tells: 2^62 ms.
const END: u64 = 1 << 62;

/// Tells the time in ms. It never fails, and may go backward.
pub trait Clock {
    /// What it may answer from now on.
    ghost tells: { Self → ℕ → Type 0 };

    /// The moment, in ms since the start of 1970; below 2^62.
    fn now_ms(&self) -> u64
        ensures told { tells self.now result }
        ensures bound { result < 2 ^ 62 };
}

/// A clock that stands.
#[derive(Clone, Copy, Debug)]
pub struct FixedClock {
    ms: u64,
    ghost bound: { ms < 2 ^ 62 },
}

impl FixedClock {
    /// A clock that always tells this moment.
    pub fn new(ms: u64) -> FixedClock
        requires { ms < 2 ^ 62 }
        ensures { (moment : ℕ) → ⟦<FixedClock as Clock>⟧.tells result moment → moment ≡ ms }
    {
        FixedClock { ms }
    }
}

impl Clock for FixedClock {
    ghost tells = { λ c moment. moment ≡ c.ms };

    fn now_ms(&self) -> u64 {
        self.ms
    }
}

/// A clock that gives one answer of a list at each call, and then repeats the last.
#[derive(Drop)]
pub struct ListClock {
    answers: Vec<u64>,
    // how many answers were given
    given: AtomicUsize,
    ghost some: { 0 < vec_len answers },
    ghost bound: { All (λ ms. ms < 2 ^ 62) answers.items },
}

impl ListClock {
    /// A clock of these answers, in order.
    pub fn new(answers: Vec<u64>) -> ListClock
        requires some { 0 < vec_len answers }
        requires bound { All (λ ms. ms < 2 ^ 62) answers.items }
        ensures { (moment : ℕ) → ⟦<ListClock as Clock>⟧.tells result moment
            → Contains answers.items moment }
    {
        ListClock {
            answers,
            given: AtomicUsize::new(0),
        }
    }
}

impl Clock for ListClock {
    ghost tells = { λ c moment. Contains c.answers.items moment };

    fn now_ms(&self) -> u64 {
        let given = self.given.fetch_add(1, Ordering::SeqCst);
        self.answers[given.min(self.answers.len() - 1)]
    }
}

/// The system's clock. It tells 0 where the system has no time, or one before 1970 or past the end.
#[derive(Drop)]
pub struct SystemClock<R: rt::Clock + Drop> {
    rt: R,
}

impl<R: rt::Clock + Drop> SystemClock<R> {
    /// The clock of this runtime.
    pub fn new(rt: R) -> Self
        ensures { result.rt ≡ rt }
    {
        SystemClock { rt }
    }
}

fn system_ms<R: rt::Clock>(rt: &R) -> Option<u64> {
    let now = SystemTime::now(rt).ok()?;
    let since = now.duration_since(UNIX_EPOCH).ok()?;
    u64::try_from(since.as_millis()).ok()
}

impl<R: rt::Clock + Drop> Clock for SystemClock<R> {
    ghost tells = { λ c moment. Unit {0} };

    fn now_ms(&self) -> u64 {
        match system_ms(&self.rt) {
            Some(ms) if ms < END => ms,
            _ => 0,
        }
    }
}
