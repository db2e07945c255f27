//! Names of files: 1 to 64 ASCII bytes, none of them `/` or 0, in a row of 64 that is zero behind
//! them, so that a name is copied and takes no memory.
ghost use Rattle.std.specs.Prelude.{◌≡◌, ◌≤◌, ◌↔◌, length, true, IsSome, IfSome, IsTrue};
ghost use Rattle.std.specs.Prelude.{Some, refl};
ghost use Rattle.std.specs.List.{list_all};
ghost use Rattle.std.specs.Ordering.{nat_cmp};
ghost use Rattle.std.specs.Str.{bytes_eq};
ghost use Rattle.std.specs.Cmp.{partial_equiv_from_equiv};
ghost use Rattle.std.specs.Cmp.Lexicographic.{
  slice_cmp,
  nat_list_eq_equiv,
  nat_list_cmp_total,
  texts_ties,
  texts_po,
};
ghost use Rattle.clog_spec.specs.Sizes.{longest_file_name};
ghost use Rattle.clog_spec.specs.Names.{is_name, is_name_byte as is_byte_of_name};

use crate::format::LONGEST_FILE_NAME;
use crate::row::put;
use std::cmp::Ordering;
use std::marker::Model;

/// 1 to 64 ASCII bytes, none of them `/` or 0.
#[derive(Clone, Copy, Debug)]
pub struct Name {
    bytes: [u8; LONGEST_FILE_NAME],
    len: usize,
}

impl Model for Name {
    ghost use Rattle.std.specs.Prelude.{List, ℕ};

    ghost Value = { List ℕ };

    ghost use Rattle.clog_base.specs.Padded.{name_bytes, IsPadded, padded, padded_ok};

    ghost view = { name_bytes };

    ghost invariant = { IsPadded };

    ghost inverse = { padded };

    ghost inverse_ok = { padded_ok };
}

impl PartialEq for Name {
    ghost eq = { bytes_eq };

    ghost laws = { partial_equiv_from_equiv nat_list_eq_equiv };

    fn eq(&self, other: &Name) -> bool {
        self.as_bytes() == other.as_bytes()
    }
}

impl Eq for Name {
    ghost laws = { nat_list_eq_equiv };
}

impl PartialOrd for Name {
    ghost partial_cmp = { λ x y. Some (slice_cmp nat_cmp x y) };

    ghost laws = { texts_po };

    fn partial_cmp(&self, other: &Name) -> Option<Ordering> {
        Some(self.cmp(other))
    }
}

impl Ord for Name {
    ghost cmp = { slice_cmp nat_cmp };

    ghost total = { nat_list_cmp_total };

    ghost matches_partial_cmp = { λ x y. refl };

    ghost matches_eq = { texts_ties };

    fn cmp(&self, other: &Name) -> Ordering {
        self.as_bytes().cmp(other.as_bytes())
    }
}

const fn is_name_byte(byte: u8) -> bool
    ensures { result ≡ is_byte_of_name byte }
{
    byte != 0 && byte < 128 && byte != b'/'
}

fn all_of_name(bytes: &[u8]) -> bool
    ensures { result ≡ list_all is_byte_of_name bytes.now }
{
    bytes.iter().all(|byte| is_name_byte(*byte))
}

fn is_name(bytes: &[u8]) -> bool
    ensures { result ≡ is_name bytes.now }
{
    if bytes.is_empty() || bytes.len() > LONGEST_FILE_NAME {
        return false;
    }
    all_of_name(bytes)
}

/// A name of bytes that are known to be one.
pub(crate) fn padded(bytes: &[u8]) -> Name
    requires { is_name bytes.now ≡ true }
    ensures { result ≡ bytes.now }
{
    let mut row = [0u8; LONGEST_FILE_NAME];
    let len = put(&mut row, 0, bytes);
    Name { bytes: row, len }
}

impl Name {
    /// The name of these bytes, where they are one.
    pub fn make(bytes: &[u8]) -> Option<Name>
        ensures made { IsSome result ↔ IsTrue (is_name bytes.now) }
        ensures same { IfSome result (λ n. n ≡ bytes.now) }
    {
        if is_name(bytes) {
            Some(padded(bytes))
        } else {
            None
        }
    }

    /// Its bytes.
    pub fn as_bytes(&self) -> &[u8]
        ensures same { result.now ≡ self.now }
        ensures name { is_name self.now ≡ true }
        ensures short { length self.now ≤ longest_file_name }
    {
        &self.bytes[..self.len]
    }
}
