//! Which words of the table have the count of a group and the value of a sequence.
//!
//! A reader keeps those that it used last, so that it divides only for another group or sequence.
ghost use Rattle.std.specs.Prelude.{◌≡◌, ◌+◌, ◌*◌, ◌<◌, ◌≤◌};
ghost use Rattle.op_order.specs.Rule.{value_at, count_at};

/// Where the value of a sequence stands.
pub(crate) fn value_at(places: u64, sequence: u64) -> usize
    requires { (2 ≤ places) × (places ≤ 1024) }
    ensures at { result ≡ value_at places sequence }
    ensures inside { result < 3 + places }
{
    3 + (sequence % places) as usize
}

/// Where the count of a group stands.
pub(crate) fn count_at(places: u64, group: u64) -> usize
    requires { (2 ≤ places) × (places ≤ 1024) }
    ensures at { result ≡ count_at places group }
    ensures inside { result < 11 + 2 * places }
{
    (10 + places + group % (places + 1)) as usize
}

/// The words that a reader used last.
#[derive(Clone, Copy, Drop)]
pub struct Spots {
    /// How many places the order has.
    pub(crate) places: u64,
    /// A group.
    pub(crate) group: u64,
    /// Where its count stands.
    pub(crate) count: usize,
    /// A sequence.
    pub(crate) sequence: u64,
    /// Where its value stands.
    pub(crate) value: usize,
    pub ghost sized: { (2 ≤ places) × (places ≤ 1024) },
    pub ghost counts: { (count ≡ count_at places group) × (count < 11 + 2 * places) },
    pub ghost values: { (value ≡ value_at places sequence) × (value < 3 + places) },
}

impl Spots {
    /// Those of the first group and of the first value.
    pub(crate) fn new(places: u64) -> Spots
        requires { (2 ≤ places) × (places ≤ 1024) }
        ensures { result.places ≡ places }
    {
        Spots {
            places,
            group: 0,
            count: count_at(places, 0),
            sequence: 0,
            value: value_at(places, 0),
        }
    }

    /// Where the count of a group stands, which it keeps with the group.
    pub(crate) fn count_of(&mut self, group: u64) -> usize
        ensures places { self.new.places ≡ self.old.places }
        ensures group { self.new.group ≡ group }
        ensures at { result ≡ count_at self.old.places group }
        ensures inside { result < 11 + 2 * self.old.places }
    {
        if group == self.group {
            return self.count;
        }
        let count = count_at(self.places, group);
        self.group = group;
        self.count = count;
        count
    }

    /// Where the value of a sequence stands, which it keeps with the sequence.
    pub(crate) fn value_of(&mut self, sequence: u64) -> usize
        ensures places { self.new.places ≡ self.old.places }
        ensures group { self.new.group ≡ self.old.group }
        ensures at { result ≡ value_at self.old.places sequence }
        ensures inside { result < 3 + self.old.places }
    {
        if sequence == self.sequence {
            return self.value;
        }
        let value = value_at(self.places, sequence);
        self.sequence = sequence;
        self.value = value;
        value
    }
}
