//! The calls of readers: an operation starts, looks at the root, reads the value there, and ends.
ghost use Rattle.std.specs.Prelude.{◌≡◌, IsSome};
ghost use Rattle.op_order.specs.Operations.{Starts, Looks, Finds, Ends};

use crate::fact::Fact;
use crate::seats::{Reader, Running, Seen};
use crate::table::OpOrder;
use crate::word::is_open;

impl<F: Fact> OpOrder<F> {
    /// Starts an operation in the current group (`OpOrder.start`), by one try. It is refused where
    /// the word of that group was found expired, with another group's number, or other than it had
    /// looked at; it has made looks alone then.
    pub fn start(&self, reader: Reader) -> Result<Running, (Reader, Seen)>
        requires { reader.seat.table_id ≡ self.now.table.shared.table_id }
        ensures { Starts result self.now.table.shared.table_id self.now.places reader }
    {
        let Reader {
            mut seat,
            mut spots,
        } = reader;
        let group = self.look_current(&mut seat);
        let count = spots.count_of(group);
        let looked = self.look_count(&mut seat, group, count);
        if !is_open(looked, group) {
            let found = looked;
            return Err((Reader { seat, spots }, Seen { looked, found }));
        }
        let found = self.register(&mut seat, group, count, looked);
        if found != looked {
            return Err((Reader { seat, spots }, Seen { looked, found }));
        }
        let sequence = None;
        Ok(Running {
            seat,
            spots,
            sequence,
        })
    }

    /// Looks at the root, and answers its sequence: none below one that this reader found before.
    pub fn look(&self, op: &mut Running) -> u64
        requires { op.old.seat.table_id ≡ self.now.table.shared.table_id }
        ensures { Looks result op.old op.new }
    {
        let sequence = self.look_root(&mut op.seat, op.spots.group);
        op.sequence = Some(sequence);
        sequence
    }

    /// The value in the place at which the operation looked last. It fits the sequence of that
    /// look (`Finds`); with `each_moment_is_lawful` it is the one published under it.
    pub fn value(&self, op: &mut Running) -> u64
        requires op { op.old.seat.table_id ≡ self.now.table.shared.table_id }
        requires looked { IsSome op.old.sequence }
        ensures { Finds F.fits self.now.places result op.old op.new }
    {
        let sequence = op.sequence.unwrap();
        let place = op.spots.value_of(sequence);
        self.look_value(&mut op.seat, sequence, place)
    }

    /// Ends the operation (`Group.close`): it holds no place any more. An operation that is dropped
    /// instead holds its place, and all that are published behind it, for good.
    pub fn end(&self, op: Running) -> Reader
        requires { op.seat.table_id ≡ self.now.table.shared.table_id }
        ensures { Ends self.now.places op result }
    {
        let Running {
            mut seat,
            spots,
            sequence: _,
        } = op;
        self.stop(&mut seat, spots.group, spots.count);
        Reader { seat, spots }
    }
}
