//! How large a log is. Each value is within the limits.
ghost use Rattle.std.specs.Prelude.{◌≡◌, ◌↔◌, IsSome, IfSome};
ghost use Rattle.clog_base.specs.Sizes.{IsWithinLimits};

use crate::format::{GREATEST_CAPACITY, LEAST_CAPACITY, MOST_SEGMENTS, MOST_TABLES, MOST_WRITERS};

/// How many tables and writers a path has, how large its segments are, and how many it may use.
#[derive(Clone, Copy, Debug, PartialEq, Eq)]
pub struct Sizes {
    /// How many tables: 1 to 16.
    pub tables: u8,
    /// How many writers: 1 to 64.
    pub writers: u8,
    /// The capacity of a segment in bytes: 4096 to 33554432.
    pub capacity: u32,
    /// How many segments the path may use: 1 to 2147483647.
    pub ordinals: u32,
    ghost within: { IsWithinLimits tables writers capacity ordinals },
}

impl Sizes {
    /// These sizes, where each is within its limits.
    pub fn make(tables: u8, writers: u8, capacity: u32, ordinals: u32) -> Option<Sizes>
        ensures made { IsSome result ↔ IsWithinLimits tables writers capacity ordinals }
        ensures same { IfSome result (λ s. (s.tables ≡ tables) × (s.writers ≡ writers)
            × (s.capacity ≡ capacity) × (s.ordinals ≡ ordinals)) }
    {
        if !(1..=MOST_TABLES).contains(&tables) || !(1..=MOST_WRITERS).contains(&writers) {
            return None;
        }
        if !(LEAST_CAPACITY..=GREATEST_CAPACITY).contains(&capacity) {
            return None;
        }
        if !(1..=MOST_SEGMENTS).contains(&ordinals) {
            return None;
        }
        Some(Sizes {
            tables,
            writers,
            capacity,
            ordinals,
        })
    }
}
