//! Threads that take pages from one pool and give them back, and what they counted.
//!
//! Eight threads share 16 pages. Each makes 62,500 rounds: it takes two pages and gives both back, which makes a
//! million takes and a million gives. No thread has more than two pages at a time, so no take finds the pool empty.
//! Beside the pool stands a mark for each page number. Whoever takes a page sets its mark, and finds it set only where
//! another thread has a page of that number at the same moment; whoever gives a page clears it, and finds it clear
//! only where another thread gave one. Both are counted.
//!
//! After the threads one pass takes all pages that it finds, so each number is seen once. Then two passes take turns at
//! the one page of a pool, and a tape on one page refuses a long event and takes a short one. What is printed is the
//! same however the threads run.
#![tactic(auto)]

mod rounds;
mod tapes;
mod turns;

use std::alloc::{AllocError, Global};
use std::io;
use std::sync::Wait;
use std::thread::Threads;

/// How many threads there are, and how many pages they share.
const THREADS: u32 = 8;

const PAGES: u32 = 16;

/// All lines but the last.
fn report<R: Threads + Wait + Sync>(rt: &R, alloc: Global) -> Result<String, AllocError> {
    let mut lines = rounds::run(rt, alloc, PAGES, THREADS)?;
    lines.push_str(turns::run(rt, alloc)?.as_str())?;
    lines.push_str(tapes::run(rt, alloc)?.as_str())?;
    Ok(lines)
}

fn main(rt: HostRuntime) -> io::Result<()> {
    match report(&rt, rt.alloc()) {
        Ok(lines) => print!(rt; "{lines}")?,
        Err(AllocError) => println!(rt; "out of memory")?,
    }
    println!(rt; "done")
}
