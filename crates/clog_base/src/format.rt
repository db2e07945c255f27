//! The numbers of the format and its limits, by name. Lengths are in bytes. Each is the number of
//! the same name in the definitions of the format.
ghost use Rattle.std.specs.Prelude.{◌≡◌};
ghost use Rattle.clog_spec.specs.Sizes.{
  header_size,
  marker_size,
  front_size,
  frame_size,
  least_payload,
  least_capacity,
  greatest_capacity,
  most_segments,
  longest_file_name,
  longest_name,
  most_updates,
  most_tables,
  most_writers,
  file_limit,
  line_limit,
};

/// A segment's header, whose parameters are `{}`.
pub const HEADER_SIZE: usize = 20;
/// A sync marker.
pub const MARKER_SIZE: usize = 8;
/// The header and the first marker: where the first entry of a segment begins.
pub const FRONT_SIZE: usize = 28;
/// What an entry has around its payload: its size and two checks.
pub const FRAME_SIZE: usize = 12;
/// The least payload that a reader takes. It is Cassandra's own bound; the payloads of this project
/// are longer.
pub const LEAST_PAYLOAD: usize = 10;

/// The least capacity of a segment.
pub const LEAST_CAPACITY: u32 = 4096;
/// The greatest capacity of a segment.
pub const GREATEST_CAPACITY: u32 = 33_554_432;
/// How many segments a path may use at most.
pub const MOST_SEGMENTS: u32 = 2_147_483_647;

/// The longest name of a file.
pub const LONGEST_FILE_NAME: usize = 64;
/// The longest key or column.
pub const LONGEST_NAME: usize = 255;
/// How many updates a mutation has at most.
pub const MOST_UPDATES: usize = 65_535;
/// Tables are numbered below it.
pub const MOST_TABLES: u8 = 16;
/// Writers are numbered below it.
pub const MOST_WRITERS: u8 = 64;

/// The longest file that is read: a mutation file, or a segment.
pub const FILE_LIMIT: u64 = 67_108_864;
/// How many lines a mutation file has at most.
pub const LINE_LIMIT: u64 = 1_000_000;

/// The numbers here are those of the definitions.
pub fn format_laws()
    ensures header { HEADER_SIZE ≡ header_size }
    ensures marker { MARKER_SIZE ≡ marker_size }
    ensures front { FRONT_SIZE ≡ front_size }
    ensures frame { FRAME_SIZE ≡ frame_size }
    ensures payload { LEAST_PAYLOAD ≡ least_payload }
    ensures capacities { (LEAST_CAPACITY ≡ least_capacity)
        × (GREATEST_CAPACITY ≡ greatest_capacity) }
    ensures segments { MOST_SEGMENTS ≡ most_segments }
    ensures names { (LONGEST_FILE_NAME ≡ longest_file_name) × (LONGEST_NAME ≡ longest_name) }
    ensures updates { MOST_UPDATES ≡ most_updates }
    ensures numbers { (MOST_TABLES ≡ most_tables) × (MOST_WRITERS ≡ most_writers) }
    ensures limits { (FILE_LIMIT ≡ file_limit) × (LINE_LIMIT ≡ line_limit) }
{}
