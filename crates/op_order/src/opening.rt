//! An order is opened, with its readers, and closed.
ghost use Rattle.std.specs.Prelude.{◌≡◌, ◌∷◌, ◌+◌, ◌*◌, ◌<◌, ◌≤◌, length};
ghost use Rattle.std.specs.Prelude.{IfOk, []};
ghost use Rattle.op_order.specs.Parts.{part_of, IsOwner, OwnsAs, OwnerSteps, ReadsAs};
ghost use Rattle.op_order.specs.Owners.{IsOwnerOf, values_of};
ghost use Rattle.op_order.specs.Operations.{AreOf};
ghost use Rattle.op_order.specs.Opened.{AreFirst, AreNew, more_seats};
ghost use Rattle.op_order.specs.Rule.{first_part, new_reader};

use crate::fact::Fact;
use crate::plays::Deal;
use crate::rule::OrderKey;
use crate::seats::{Owner, Reader};
use crate::spots::Spots;
use crate::table::OpOrder;
use crate::view::View;
use crate::word::EXPIRED;
use atomic_table::{Seat, Table};
use clog_base::OutOfMemory;
use std::alloc::{AllocError, Global};

// The words of a new table.
fn first_words(alloc: Global, places: u64, first: u64) -> Result<Vec<u64>, AllocError>
    requires { (2 ≤ places) × (places ≤ 1024) }
    ensures { IfOk result (λ v. AreFirst places first v.items) }
{
    let mut words = Vec::from_elem(alloc, EXPIRED, (11 + 2 * places) as usize)?;
    words[0] = 0;
    words[1] = 0;
    words[2] = 0;
    words[3] = first;
    words[10 + places as usize] = 0;
    Ok(words)
}

impl<F: Fact> OpOrder<F> {
    // Hands out a reader.
    fn deal(&self, seat: &mut Seat<u64, View>) -> Reader
        requires seat { IsOwner self.now.table.shared.table_id seat.old }
        requires few { (part_of seat.old).seats < 64 }
        ensures owner { OwnerSteps seat.old seat.new (more_seats (part_of seat.old)) }
        ensures reader { (result.seat.table_id ≡ seat.old.table_id)
            × ReadsAs result.seat new_reader }
    {
        let seat = self.table.shared.split_seat::<Deal>(seat);
        let spots = Spots::new(self.places);
        Reader { seat, spots }
    }

    // Opens the table alone, with the owner's seat.
    fn lay(
        alloc: Global,
        places: u64,
        first: u64,
    ) -> Result<(OpOrder<F>, Seat<u64, View>), AllocError>
        requires places { (2 ≤ places) × (places ≤ 1024) }
        requires fits { F.fits 0 first }
        ensures { IfOk result (λ r. (r.0.places ≡ places)
            × (r.1.table_id ≡ r.0.table.shared.table_id) × OwnsAs r.1 (first_part first)) }
    {
        let words = first_words(alloc, places, first)?;
        let key = OrderKey { places, first };
        let (table, seat) = Table::of_words(alloc, words.as_slice(), &key)?;
        Ok((OpOrder { table, places }, seat))
    }

    /// Opens an order of so many places, whose first value is published under sequence 0, and so
    /// many readers. The one call that takes memory.
    pub fn open(
        alloc: Global,
        readers: u8,
        places: u16,
        first: u64,
    ) -> Result<(OpOrder<F>, Owner, Vec<Reader>), OutOfMemory>
        requires readers { (1 ≤ readers) × (readers ≤ 63) }
        requires places { (2 ≤ places) × (places ≤ 1024) }
        requires fits { F.fits 0 first }
        ensures order { IfOk result (λ r. r.0.places ≡ places) }
        ensures owner { IfOk result (λ r.
            IsOwnerOf r.0.table.shared.table_id r.0.places r.1 × (r.1.sequence ≡ 0)
            × (r.1.oldest ≡ 0) × (values_of r.1 ≡ first ∷ [])) }
        ensures readers { IfOk result (λ r. (length r.2.items ≡ readers)
            × AreOf r.0.table.shared.table_id r.2.items × AreNew r.2.items) }
    {
        let mut all = Vec::with_capacity(alloc, readers as usize)?;
        let (order, mut seat) = OpOrder::<F>::lay(alloc, places as u64, first)?;
        for _ in 0..readers {
            all.push_reserved(order.deal(&mut seat));
        }
        let owner = Owner {
            seat,
            sequence: 0,
            oldest: 0,
            places: places as u64,
        };
        Ok((order, owner, all))
    }

    /// Closes the order, with its owner and all of its readers. Answers how many values were
    /// published after the first.
    pub fn close(self, owner: Owner, readers: Vec<Reader>) -> u64
        requires owner { IsOwnerOf self.table.shared.table_id self.places owner }
        requires readers { AreOf self.table.shared.table_id readers.items }
        ensures { result ≡ owner.sequence }
    {
        owner.sequence
    }
}
