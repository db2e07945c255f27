//! When a sync is due, as a decision without threads, clocks or disks: in batch mode as soon as a
//! writer waits for one, in periodic mode once the period has passed since the last one.
#![tactic(auto)]

#[cfg(test)]
mod tests;

ghost use Rattle.std.specs.Prelude.{◌≡◌, ◌↔◌};
ghost use Rattle.sync_core.specs.Due.{IsDue};
ghost use Rattle.sync_core.specs.declared.Decision.TheVariants.{Sync as is_sync};
ghost use Rattle.sync_core.specs.declared.SyncCore.TheVariants.{
  Batch as batch_mode,
  Periodic as periodic_mode,
};

/// How writes are made durable (Cassandra's `commitlog_sync`).
#[derive(Clone, Copy, Debug, PartialEq, Eq)]
pub enum SyncCore {
    /// A write waits for the sync that makes it durable (Cassandra's `BatchCommitLogService`).
    Batch,
    /// A write waits for no sync; one is asked for once the period has passed (Cassandra's
    /// `PeriodicCommitLogService`).
    Periodic {
        /// The time from one sync to the next, in milliseconds.
        period_ms: u64,
    },
}

/// Whether a sync is to be made now.
#[derive(Clone, Copy, Debug, PartialEq, Eq)]
pub enum Decision {
    /// It is due.
    Sync,
    /// It is not due yet.
    Not,
}

impl SyncCore {
    /// Batch mode.
    pub const fn batch() -> SyncCore
        ensures { result ≡ batch_mode }
    {
        SyncCore::Batch
    }

    /// Periodic mode with a period in milliseconds. With the period 0 a sync is due whenever the
    /// clock has not gone back.
    pub const fn periodic(period_ms: u64) -> SyncCore
        ensures { result ≡ periodic_mode period_ms }
    {
        SyncCore::Periodic { period_ms }
    }

    /// Whether a sync is due at the moment `now_ms`, where the last one was at `last_ms`, both in
    /// milliseconds, and `wants` writers wait for one. Where the last moment and the period are
    /// more than any moment that can be told, none is due.
    pub fn decide(&self, now_ms: u64, last_ms: u64, wants: u32) -> Decision
        ensures { (result ≡ is_sync) ↔ IsDue self.now now_ms last_ms wants }
    {
        let is_due = match *self {
            SyncCore::Batch => wants > 0,
            SyncCore::Periodic { period_ms } => last_ms
                .checked_add(period_ms)
                .is_some_and(|due_ms| now_ms >= due_ms),
        };
        if is_due {
            Decision::Sync
        } else {
            Decision::Not
        }
    }
}
