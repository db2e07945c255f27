//! How commits and syncs were answered.
use anyhow::{Result, bail};
use write_path::{Commit, Receipt, SyncAnswer};

/// How a writer's commits and syncs were answered.
#[derive(Clone, Copy, Debug, PartialEq, Eq)]
pub struct Answered {
    /// So many commits are logged.
    pub logged: u32,
    /// So many commits are lasting.
    pub durable: u32,
    /// So many commits found no room in the log.
    pub spent: u32,
    /// So many commits and syncs were not asked for, since the seat had issued too many barriers.
    pub unasked: u32,
    /// So many syncs were refused. A commit may have waited for one.
    pub unsynced: u32,
}

impl Answered {
    /// Nothing is answered yet.
    pub fn new() -> Answered {
        Answered {
            logged: 0,
            durable: 0,
            spent: 0,
            unasked: 0,
            unsynced: 0,
        }
    }

    /// Further answers come to these.
    pub fn add(&mut self, other: &Answered) {
        self.logged = self.logged.saturating_add(other.logged);
        self.durable = self.durable.saturating_add(other.durable);
        self.spent = self.spent.saturating_add(other.spent);
        self.unasked = self.unasked.saturating_add(other.unasked);
        self.unsynced = self.unsynced.saturating_add(other.unsynced);
    }

    /// One commit was answered this.
    pub fn count(&mut self, commit: &Commit) {
        let counter = match commit {
            Commit::Logged(_) => &mut self.logged,
            Commit::Durable(_) => &mut self.durable,
            Commit::Unsynced(_, _) => &mut self.unsynced,
            Commit::Spent(_, _) => &mut self.spent,
        };
        *counter = counter.saturating_add(1);
    }

    /// One sync that no commit waited for was answered this.
    pub fn count_sync(&mut self, answer: &SyncAnswer) {
        let counter = match answer {
            SyncAnswer::Done(_) => return,
            SyncAnswer::Stopped { at_open: _, now: _ } | SyncAnswer::OutOfMemory => {
                &mut self.unsynced
            }
        };
        *counter = counter.saturating_add(1);
    }

    /// One commit or sync was not asked for.
    pub fn count_unasked(&mut self) {
        self.unasked = self.unasked.saturating_add(1);
    }

    /// Each write found room, and no sync was refused.
    pub fn check(&self) -> Result<()> {
        if self.unasked > 0 {
            bail!(
                "{} commits and syncs came behind too many barriers",
                self.unasked
            );
        }
        if self.unsynced > 0 {
            bail!("{} syncs were refused", self.unsynced);
        }
        if self.spent > 0 {
            bail!("{} writes found no room in the log", self.spent);
        }
        Ok(())
    }
}

/// What the write of a commit is known by, where it is logged.
pub fn receipt_of(commit: &Commit) -> Option<Receipt> {
    match commit {
        Commit::Logged(receipt) | Commit::Durable(receipt) | Commit::Unsynced(receipt, _) => {
            Some(*receipt)
        }
        Commit::Spent(_, _) => None,
    }
}
