// The events, and how they are pushed, played and copied.
ghost use Rattle.std.specs.Prelude.{◌<◌, ◌^◌, length};
ghost use Rattle.exi_names.specs.Shown.{shows};
ghost use Rattle.exi_pool.specs.Passes.{IsOf};
ghost use Rattle.exi_tape.specs.Spelling.{spelled};

use crate::clock::keep_least;
use crate::counter::Counter;
use crate::texts::Texts;
use crate::times::{Table, Times};
use exi_names::{EventRef, NameRef, ValRef};
use exi_pool::{Pool, PoolPass};
use exi_tape::{Tape, laws};
use std::alloc::{AllocError, Global};
use std::io;
use std::sync::Wait;
use std::time::{Clock, Instant};

/// How often each event is pushed in a round.
const EVENTS: u32 = 1000;

/// Pushes an event again and again, and gives how many a tape took.
fn push_all<R: Wait>(
    rt: &R,
    pool: &Pool,
    pass: &mut PoolPass,
    tape: &mut Tape,
    event: &EventRef<'_>,
) -> u64
    requires of { IsOf pool.now pass.old }
    requires few { length (spelled (shows event.now)) < 2 ^ 40 }
    ensures of { IsOf pool.now pass.new }
{
    let mut pushed: u64 = 0;
    for _ in 0..EVENTS {
        if tape.push(rt, pool, pass, event).is_ok() {
            pushed = pushed.wrapping_add(1);
        }
    }
    pushed
}

/// Copies some bytes again and again, each time behind those before.
fn copy_all(from: &[u8], to: &mut Vec<u8>) -> Result<(), AllocError> {
    to.clear();
    for _ in 0..EVENTS {
        to.extend_from_slice(from)?;
    }
    Ok(())
}

/// Pushes, plays and copies one event.
fn measure_event<R: Clock + Wait>(
    rt: &R,
    alloc: Global,
    pool: &Pool,
    pass: &mut PoolPass,
    event: &EventRef<'_>,
    times: &mut Times,
) -> io::Result<()>
    requires of { IsOf pool.now pass.old }
    requires few { length (spelled (shows event.now)) < 2 ^ 40 }
    ensures of { IsOf pool.now pass.new }
{
    let mut tape = Tape::new();
    let start = Instant::now(rt)?;
    let pushed = push_all(rt, pool, pass, &mut tape, event);
    keep_least(rt, start, &mut times.push)?;
    times.pushed = times.pushed.saturating_add(pushed);
    let mut counter = Counter { events: 0 };
    let start = Instant::now(rt)?;
    let _end = tape.play(alloc, &mut counter);
    keep_least(rt, start, &mut times.play)?;
    times.played = times.played.saturating_add(counter.events);
    tape.give_back(rt, pool, pass);
    let bytes = vec![in alloc; 0u8; times.bytes]?;
    let start = Instant::now(rt)?;
    copy_all(bytes.as_slice(), &mut times.copied)?;
    keep_least(rt, start, &mut times.copy)
}

/// One round.
pub fn measure_round<R: Clock + Wait>(
    rt: &R,
    alloc: Global,
    pool: &Pool,
    pass: &mut PoolPass,
    texts: &Texts,
    table: &mut Table,
) -> io::Result<()>
    requires of { IsOf pool.now pass.old }
    ensures of { IsOf pool.now pass.new }
{
    laws::within_weight();
    let name = NameRef {
        uri: &texts.uri,
        local: &texts.local,
        prefix: None,
    };
    let short = ValRef::Text(&texts.short);
    let long = ValRef::Text(&texts.long);
    measure_event(rt, alloc, pool, pass, &EventRef::Ee, &mut table.end)?;
    measure_event(
        rt,
        alloc,
        pool,
        pass,
        &EventRef::Se(name),
        &mut table.element,
    )?;
    measure_event(
        rt,
        alloc,
        pool,
        pass,
        &EventRef::At(name, short),
        &mut table.attribute,
    )?;
    measure_event(
        rt,
        alloc,
        pool,
        pass,
        &EventRef::Ch(short),
        &mut table.short,
    )?;
    measure_event(rt, alloc, pool, pass, &EventRef::Ch(long), &mut table.long)
}
