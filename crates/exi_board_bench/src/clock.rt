// Times of which the least counts.
use std::io;
use std::time::{Clock, Instant};

/// Keeps the nanoseconds since a moment where they are fewer.
pub fn keep_least<R: Clock>(rt: &R, start: Instant, least: &mut u64) -> io::Result<()> {
    let nanos = u64::try_from(start.elapsed(rt)?.as_nanos()).unwrap_or(u64::MAX);
    *least = nanos.min(*least);
    Ok(())
}
