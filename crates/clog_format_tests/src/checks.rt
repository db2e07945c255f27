//! Values from outside: the field's, and Python's zlib.
use clog_base::{crc32, crc32_more, crc32_plain};
use std::process::Abort;
use std::test::*;

const PANGRAM: &str = "The quick brown fox jumps over the lazy dog";

const CHECKS: [(&str, u32); 7] = [
    ("", 0),
    ("a", 0xe8b7_be43),
    ("\0\0\0\0", 0x2144_df1c),
    ("1234567", 0x5003_699f),
    ("12345678", 0x9ae0_daaf),
    ("123456789", 0xcbf4_3926),
    (PANGRAM, 0x414f_a339),
];

fn parts_have_the_check_of_the_whole(rt: &impl Abort) {
    for middle in 0..PANGRAM.len() {
        let (front, back) = PANGRAM.as_bytes().split_at(middle);
        let by_blocks = crc32_more(crc32_plain(0, front), back);
        let by_bytes = crc32_plain(crc32(front), back);
        assert_eq!(rt;
            (by_blocks, by_bytes),
            (0x414f_a339, 0x414f_a339),
            "at {middle}"
        );
    }
}

#[test]
fn both_programs_of_the_check_give_the_fields_values(rt: HostRuntime) -> Result<(), Fail> {
    for (text, check) in &CHECKS {
        let both = (crc32(text.as_bytes()), crc32_plain(0, text.as_bytes()));
        assert_eq!(rt; both, (*check, *check), "of {text}");
    }
    parts_have_the_check_of_the_whole(&rt);
    Ok(())
}
