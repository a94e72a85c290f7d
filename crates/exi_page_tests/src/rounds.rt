//! Threads that take and give.
ghost use Rattle.std.specs.Prelude.{◌≡◌, ◌<◌, All, IfSome};
ghost use Rattle.exi_pool.specs.Pages.{IsLone};
ghost use Rattle.exi_pool.specs.Passes.{IsOf};

use exi_pool::{Page, Pool, PoolPass};
use std::alloc::{AllocError, Global};
use std::sync::Wait;
use std::sync::atomic::{AtomicU64, Ordering};
use std::thread::{Threads, for_each_mut};

/// How many rounds each thread makes, with two pages each.
const ROUNDS: u32 = 62_500;

/// What the threads counted.
#[derive(Drop)]
pub struct Counts {
    /// For each page number, 1 while a thread has the page.
    marks: Vec<AtomicU64>,
    taken: AtomicU64,
    given: AtomicU64,
    /// How often a mark was not as it had to be.
    wrong: AtomicU64,
}

/// Changes the mark of a page, and counts where it was not as it had to be.
fn mark(counts: &Counts, page: &Page, from: u64, to: u64) {
    let right = match counts.marks.get(page.number() as usize) {
        Some(mark) => mark.swap(to, Ordering::SeqCst) == from,
        None => false,
    };
    if !right {
        counts.wrong.fetch_add(1, Ordering::SeqCst);
    }
}

/// Takes a page, and sets its mark.
fn take<R: Wait>(rt: &R, pool: &Pool, pass: &mut PoolPass, counts: &Counts) -> Option<Page>
    requires of { IsOf pool.now pass.old }
    ensures of { IsOf pool.now pass.new }
    ensures lone { IfSome result IsLone }
{
    match pool.take(rt, pass) {
        Some(page) => {
            counts.taken.fetch_add(1, Ordering::SeqCst);
            mark(counts, &page, 0, 1);
            Some(page)
        }
        None => None,
    }
}

/// Clears the mark of a page, and gives it back.
fn give<R: Wait>(rt: &R, pool: &Pool, pass: &mut PoolPass, counts: &Counts, page: Option<Page>)
    requires of { IsOf pool.now pass.old }
    requires lone { IfSome page IsLone }
    ensures of { IsOf pool.now pass.new }
{
    if let Some(page) = page {
        mark(counts, &page, 1, 0);
        pool.give(rt, pass, page);
        counts.given.fetch_add(1, Ordering::SeqCst);
    }
}

/// All rounds of one thread.
fn go<R: Wait>(rt: &R, pool: &Pool, pass: &mut PoolPass, counts: &Counts)
    requires of { IsOf pool.now pass.old }
    ensures of { IsOf pool.now pass.new }
{
    for _ in 0..ROUNDS {
        let first = take(rt, pool, pass, counts);
        let second = take(rt, pool, pass, counts);
        give(rt, pool, pass, counts, first);
        give(rt, pool, pass, counts, second);
    }
}

/// A thread for each pass.
fn go_all<R: Threads + Wait + Sync>(rt: &R, pool: &Pool, passes: &mut [PoolPass], counts: &Counts)
    requires passes { All (IsOf pool.now) passes.old }
    ensures passes { All (IsOf pool.now) passes.new }
{
    let threads = passes.len();
    if threads == 0 {
        return;
    }
    for_each_mut(
        rt,
        passes,
        threads,
        &|_: usize, pass: &mut PoolPass|
            requires { IsOf pool.now pass.old }
            ensures { IsOf pool.entry.now pass.new }
        { go(rt, pool, pass, counts) },
    );
}

/// Marks that are all clear, and nothing counted.
fn fresh(alloc: Global, pages: u32) -> Result<Counts, AllocError> {
    let mut marks = Vec::new(alloc);
    for _ in 0..pages {
        marks.push(AtomicU64::new(0))?;
    }
    Ok(Counts {
        marks,
        taken: AtomicU64::new(0),
        given: AtomicU64::new(0),
        wrong: AtomicU64::new(0),
    })
}

/// Takes pages until none is left, at most one more than there are, and gives their number.
fn left<R: Wait>(rt: &R, pool: &Pool, pass: &mut PoolPass, counts: &Counts, pages: u32) -> u32
    requires of { IsOf pool.now pass.old }
    ensures of { IsOf pool.now pass.new }
{
    for found in 0..=pages {
        if take(rt, pool, pass, counts).is_none() {
            return found;
        }
    }
    u32::MAX
}

/// The lines of all rounds.
pub fn run<R: Threads + Wait + Sync>(
    rt: &R,
    alloc: Global,
    pages: u32,
    threads: u32,
) -> Result<String, AllocError>
    requires threads { 0 < threads }
{
    let counts = fresh(alloc, pages)?;
    let (pool, mut passes) = Pool::new(rt, alloc, pages, threads)?;
    go_all(rt, &pool, passes.as_mut_slice(), &counts);
    let given = counts.given.load(Ordering::SeqCst);
    let taken = counts.taken.load(Ordering::SeqCst);
    let mut rest = 0;
    if let Some(pass) = passes.last_mut() {
        rest = left(rt, &pool, pass, &counts, pages);
    }
    let wrong = counts.wrong.load(Ordering::SeqCst);
    format!(in alloc; "takes {taken}\ngives {given}\npages left {rest}\nnumbers twice {wrong}\n")
}
