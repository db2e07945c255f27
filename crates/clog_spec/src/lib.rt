//! What the bytes of a commit log are: its checks, file names, headers, markers and entries, as
//! definitions on numbers and lists. The crates above cite them; the laws about them stand here.
#![tactic(auto)]

ghost use Rattle.std.specs.Prelude.{◌≡◌, ℕ, ◌+◌, ◌-◌, ◌^◌, List, [], ◌∷◌, ◌++◌, length};
ghost use Rattle.std.specs.Prelude.{codes, replicate};
ghost use Rattle.clog_spec.specs.Crc.{IsBytes, IsRemainder, crc32_after, crc32_of};
ghost use Rattle.clog_spec.specs.Segment.{header_bytes, marker_bytes, entry_bytes};
ghost use Rattle.clog_spec.specs.Sizes.{header_size, marker_size, front_size, frame_size};

/// The check of a string is the complement of a polynomial's remainder, below 2^32, and goes on
/// from the check of a front. The values are those of `java.util.zip.CRC32`.
pub fn crc_laws()
    ensures remainder { (bytes : List ℕ) → IsBytes bytes → IsRemainder bytes (crc32_of bytes) }
    ensures continues { (front bytes : List ℕ) → IsBytes front
        → crc32_after (crc32_of front) bytes ≡ crc32_of (front ++ bytes) }
    ensures of_digits { crc32_of (codes "123456789") ≡ 0xcbf43926 }
    ensures of_four_zeros { crc32_of (replicate 4 0) ≡ 0x2144df1c }
    ensures of_nothing { crc32_of [] ≡ 0 }
{}

/// Headers and first markers of a real id, which counts milliseconds and fills both halves, and of
/// the greatest id. Their checks were worked out elsewhere.
pub fn segment_examples()
    ensures header { header_bytes 1700000000000 ≡ 0x00 ∷ 0x00 ∷ 0x00 ∷ 0x06 ∷ 0x00 ∷ 0x00 ∷ 0x01
        ∷ 0x8b ∷ 0xcf ∷ 0xe5 ∷ 0x68 ∷ 0x00 ∷ 0x00 ∷ 0x02 ∷ 0x7b ∷ 0x7d ∷ 0xeb ∷ 0x17 ∷ 0x26 ∷ 0xb2
        ∷ [] }
    ensures marker { marker_bytes 1700000000000 20 60 ≡ 0x00 ∷ 0x00 ∷ 0x00 ∷ 0x3c ∷ 0xda ∷ 0x07
        ∷ 0x4c ∷ 0x34 ∷ [] }
    ensures greatest_header { header_bytes (2 ^ 63 - 1) ≡ 0x00 ∷ 0x00 ∷ 0x00 ∷ 0x06 ∷ 0x7f ∷ 0xff
        ∷ 0xff ∷ 0xff ∷ 0xff ∷ 0xff ∷ 0xff ∷ 0xff ∷ 0x00 ∷ 0x02 ∷ 0x7b ∷ 0x7d ∷ 0x70 ∷ 0x2e ∷ 0x7a
        ∷ 0xdd ∷ [] }
    ensures greatest_marker { marker_bytes (2 ^ 63 - 1) 20 60 ≡ 0x00 ∷ 0x00 ∷ 0x00 ∷ 0x3c ∷ 0x2c
        ∷ 0xc3 ∷ 0x8e ∷ 0xce ∷ [] }
{}

/// The lengths of headers, markers and entries have the names of `Sizes`.
pub fn segment_sizes()
    ensures header { (id : ℕ) → length (header_bytes id) ≡ header_size }
    ensures marker { (id at end : ℕ) → length (marker_bytes id at end) ≡ marker_size }
    ensures front { front_size ≡ header_size + marker_size }
    ensures entry { (payload : List ℕ)
        → length (entry_bytes payload) ≡ frame_size + length payload }
{}
