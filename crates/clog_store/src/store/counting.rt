//! What a store counts at each discard: what is new since the last one. Where memory is refused it
//! has counted nothing, and the next discard begins anew.
ghost use Rattle.std.specs.Prelude.{◌≡◌, IfOk};
ghost use Rattle.clog_due.specs.Counting.{IsAllCounted, IsCounted};
ghost use Rattle.clog_due.specs.StoreDrops.{AreDueIn};

use crate::store::Store;
use clog_base::OutOfMemory;
use clog_disk::Disk;
use clog_due::Counted;

impl<D: Disk> Store<D> {
    // What was counted, or that nothing was. It is no longer kept.
    fn take_counted(&mut self) -> Result<Counted, OutOfMemory>
        ensures counted { IfOk result (IsCounted self.old.notes.logged self.old.files
            self.old.dropped) }
        ensures same { self.new ≡ self.old }
    {
        match self.counted.take() {
            Some(counted) => Ok(counted),
            None => Counted::nothing(self.notes.alloc()),
        }
    }

    // All is counted, and not kept.
    fn count_all(&mut self) -> Result<Counted, OutOfMemory>
        ensures counted { IfOk result (IsAllCounted self.old.notes.logged self.old.files
            self.old.dropped) }
        ensures same { self.new ≡ self.old }
    {
        let counted = self.take_counted()?;
        self.notes.tell();
        counted.count(
            self.notes.alloc(),
            self.notes.logged(),
            &self.files,
            &self.dropped,
        )
    }

    // Keeps what was counted for the next discard.
    fn keep_counted(&mut self, counted: Counted)
        requires { IsAllCounted self.old.notes.logged self.old.files self.old.dropped counted }
        ensures same { self.new ≡ self.old }
    {
        self.counted = Some(counted);
    }

    /// The segments that are due, once all is counted.
    pub(super) fn due_counted(&mut self, closed: u32) -> Result<Vec<u64>, OutOfMemory>
        ensures due { IfOk result (λ due. AreDueIn self.old closed due.items) }
        ensures same { self.new ≡ self.old }
    {
        let counted = self.count_all()?;
        let due = counted.due(self.notes.alloc(), self.notes.kept_ordinals(), closed)?;
        self.keep_counted(counted);
        Ok(due)
    }
}
