//! Lines that the generator makes, counted elsewhere.
use clog_base::Kind;
use clog_mutation::Mutation;
use clog_text::made;

fn is_deletion(line: &Mutation) -> bool {
    match line.updates.as_slice() {
        [first, ..] => first.cell.kind == Kind::Deletion,
        [] => false,
    }
}

#[test]
fn a_hundred_lines_are_made(rt: HostRuntime) {
    match made(rt.alloc(), 7, 100) {
        Ok(lines) => {
            let lines = lines.as_slice();
            assert!(rt; lines.len() == 100);
            assert!(rt; lines.iter().filter(|line| line.updates.len() == 2).count() == 39);
            assert!(rt; lines.iter().filter(|line| is_deletion(line)).count() == 6);
        }
        Err(_) => assert!(rt; false),
    }
}
