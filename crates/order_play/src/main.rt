//! An example of `op_order`: a place stays while an operation that looked at it runs. With a word
//! on the command line it measures instead (`bench/op_order.sh`).
#![tactic(auto)]

mod example;
mod measure;

use anyhow::Result;
use example::show;
use measure::measure;
use std::env;

fn main(rt: HostRuntime) -> Result<()> {
    if env::args(&rt)?.skip(1).next().is_some() {
        return measure(&rt, rt.alloc());
    }
    show(&rt)
}
