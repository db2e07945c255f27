//! What all writers of a run have in common: the path, when they sync and flush, and the flag by
//! which the first fault stops them all.
ghost use Rattle.std.specs.Prelude.{◌≡◌, ℕ, ◌≤◌, IsSome, Some, true};
ghost use Rattle.clog_spec.specs.Sizes.{most_tables};
ghost use Rattle.clog_shares.specs.Crews.{IsSizedAs};

use crate::stop_flag::StopFlag;
use crate::syncing::Syncing;
use clog_base::Sizes;
use path_core::Keeper;
use std::alloc::Global;
use write_path::WritePath;

/// What all writers of a run have in common. None of them changes it, but for the flag that the
/// first fault sets.
#[derive(Drop)]
pub(crate) struct Run<'a, K: Keeper, G, C> {
    /// The path that they commit on.
    pub(crate) path: &'a WritePath<K, Global>,
    /// Its sizes.
    pub(crate) sizes: Sizes,
    /// When they have the log synced.
    pub(crate) syncing: Syncing,
    /// Of how many updates they flush a table, if they flush.
    pub(crate) flush_at: Option<u32>,
    /// It is told how far each commit is.
    pub(crate) gate: &'a G,
    /// It is asked for the moment behind each commit, in periodic mode.
    pub(crate) clock: &'a C,
    /// Whether one of them has had a fault.
    pub(crate) stop_flag: StopFlag,
    // The path was opened so: of these sizes, in this mode, and for table files where they flush.
    ghost sized: { IsSizedAs path.now.table.size sizes },
    ghost mode: { path.now.mode ≡ syncing.mode },
    ghost tables: { sizes.tables ≡ most_tables },
    ghost files: { IsSome flush_at → path.now.table.size.files ≡ true },
    // They flush at some update at least.
    ghost some: { (most : ℕ) → flush_at ≡ Some most → 1 ≤ most },
}
