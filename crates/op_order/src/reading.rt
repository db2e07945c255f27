//! Each single step of a reader on the table.
ghost use Rattle.std.specs.Prelude.{◌≡◌, ◌≢◌, ◌+◌, ◌*◌, ◌/◌, ◌%◌, ◌^◌, ◌<◌, ◌≤◌, ℕ, Some, None};
ghost use Rattle.op_core.specs.CountWords.{number_in};
ghost use Rattle.op_order.specs.Parts.{read_of, IsReader, ReaderSteps};
ghost use Rattle.op_order.specs.Rule.{count_at, value_at};
ghost use Rattle.op_order.specs.Told.{with_current, with_step, with_group, with_look};
ghost use Rattle.op_order.specs.Told.{without_group};

use crate::fact::Fact;
use crate::plays::{LookCount, LookCurrent, LookRoot, LookValue, RegisterIn, StopIn};
use crate::table::OpOrder;
use crate::view::View;
use atomic_table::Seat;

impl<F: Fact> OpOrder<F> {
    /// A reader looks at the current group.
    pub(crate) fn look_current(&self, seat: &mut Seat<u64, View>) -> u64
        requires { IsReader self.now.table.shared.table_id seat.old }
        ensures step { ReaderSteps seat.old seat.new (with_current result (read_of seat.old)) }
        ensures found { ((read_of seat.old).current ≤ result) × (result < 2 ^ 47) }
    {
        self.table.shared.load::<LookCurrent>(seat, 1)
    }

    /// A reader looks at the count of a group, which stands at this word.
    pub(crate) fn look_count(&self, seat: &mut Seat<u64, View>, group: u64, count: usize) -> u64
        requires seat { IsReader self.now.table.shared.table_id seat.old }
        requires count { (count ≡ count_at self.now.places group)
            × (count < 11 + 2 * self.now.places) }
        ensures step { ReaderSteps seat.old seat.new
            (with_step (count_at self.now.places group) result (read_of seat.old)) }
        ensures few { result < 2 ^ 63 → result % 65536 ≤ 64 }
    {
        self.table.shared.load::<LookCount>(seat, count)
    }

    /// A reader joins the group that it found as the current one, if its word, at this place, is
    /// still the one that it looked at. Returns the word found.
    pub(crate) fn register(
        &self,
        seat: &mut Seat<u64, View>,
        group: u64,
        count: usize,
        looked: u64,
    ) -> u64
        requires seat { IsReader self.now.table.shared.table_id seat.old }
        requires idle { (read_of seat.old).group ≡ None }
        requires group { ((read_of seat.old).current ≡ group) × (group < 2 ^ 47) }
        requires count { (count ≡ count_at self.now.places group)
            × (count < 11 + 2 * self.now.places) }
        requires looked { (looked < 2 ^ 63) × (number_in looked ≡ group)
            × (looked % 65536 ≤ 64) }
        ensures hit { result ≡ looked → ReaderSteps seat.old seat.new
            (with_group (count_at self.now.places group) result (read_of seat.old)) }
        ensures miss { result ≢ looked → ReaderSteps seat.old seat.new
            (with_step (count_at self.now.places group) result (read_of seat.old)) }
    {
        self.table
            .shared
            .compare_exchange::<RegisterIn>(seat, count, looked, looked + 1)
    }

    /// An operation looks at the root. Returns its sequence.
    pub(crate) fn look_root(&self, seat: &mut Seat<u64, View>, group: u64) -> u64
        requires seat { IsReader self.now.table.shared.table_id seat.old }
        requires group { (read_of seat.old).group ≡ Some group }
        ensures step { (word : ℕ) × (word / 1024 ≡ result)
            × ReaderSteps seat.old seat.new (with_look word result (read_of seat.old)) }
        ensures later { (read_of seat.old).seen ≤ result }
    {
        self.table.shared.load::<LookRoot>(seat, 0) / 1024
    }

    /// An operation that looked reads the value of its place, which stands at this word.
    pub(crate) fn look_value(&self, seat: &mut Seat<u64, View>, sequence: u64, place: usize) -> u64
        requires seat { IsReader self.now.table.shared.table_id seat.old }
        requires looked { (read_of seat.old).looked ≡ Some sequence }
        requires place { (place ≡ value_at self.now.places sequence)
            × (place < 3 + self.now.places) }
        ensures step { ReaderSteps seat.old seat.new
            (with_step (value_at self.now.places sequence) result (read_of seat.old)) }
        ensures fits { F.fits sequence result }
    {
        self.table.shared.load::<LookValue<F>>(seat, place)
    }

    /// An operation ends, in the group whose count stands at this word.
    pub(crate) fn stop(&self, seat: &mut Seat<u64, View>, group: u64, count: usize)
        requires seat { IsReader self.now.table.shared.table_id seat.old }
        requires group { (read_of seat.old).group ≡ Some group }
        requires count { (count ≡ count_at self.now.places group)
            × (count < 11 + 2 * self.now.places) }
        ensures { (word : ℕ) × ReaderSteps seat.old seat.new
            (without_group (count_at self.now.places group) word (read_of seat.old)) }
    {
        self.table.shared.fetch_sub::<StopIn>(seat, count, 1);
    }
}
