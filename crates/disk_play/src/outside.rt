//! What is done in the folder of a case by no disk.
use crate::tell::put;
use crate::verb::Outside;
use crate::words::Words;
use anyhow::Result;
use std::fs;
use std::os::unix::fs::symlink;

/// Does it, and puts what is told.
pub(crate) fn outside(
    rt: &HostRuntime,
    what: Outside,
    words: &mut Words,
    out: &mut Vec<u8>,
) -> Result<()> {
    let path = words.word();
    let made = match what {
        Outside::File => fs::write(rt, path, words.word()),
        Outside::Folder => fs::create_dir(rt, path),
        Outside::Symlink => symlink(rt, path, words.word()),
        Outside::Stands => return put(out, fs::symlink_metadata(rt, path).is_ok()),
    };
    Ok(made?)
}
