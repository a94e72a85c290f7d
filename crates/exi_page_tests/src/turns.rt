//! Two passes at the one page of a pool.
ghost use Rattle.std.specs.Prelude.{◌≡◌};

use exi_pool::{Page, Pool};
use std::alloc::{AllocError, Global};
use std::sync::Wait;

/// The number of a page, or that there is none.
fn line(alloc: Global, page: Option<&Page>) -> Result<String, AllocError> {
    match page {
        Some(page) => format!(in alloc; "page {}\n", page.number()),
        None => String::from_str(alloc, "no page\n"),
    }
}

/// One takes, the other finds none; the first gives, the other takes.
pub fn run<R: Wait>(rt: &R, alloc: Global) -> Result<String, AllocError> {
    let (pool, mut passes) = Pool::new(rt, alloc, 1, 2)?;
    let (Some(mut second), Some(mut first)) = (passes.pop(), passes.pop()) else {
        return String::from_str(alloc, "no passes\n");
    };
    let page = pool.take(rt, &mut first);
    let mut lines = line(alloc, page.as_ref())?;
    let none = pool.take(rt, &mut second);
    lines.push_str(line(alloc, none.as_ref())?.as_str())?;
    if let Some(page) = page {
        pool.give(rt, &mut first, page);
    }
    let again = pool.take(rt, &mut second);
    lines.push_str(line(alloc, again.as_ref())?.as_str())?;
    let dry = format!(in alloc; "dry {} {}\n", first.dry(), second.dry())?;
    lines.push_str(dry.as_str())?;
    Ok(lines)
}
