//! A tape on one page.
ghost use Rattle.std.specs.Prelude.{◌≡◌, ◌<◌, ◌^◌, length, IfOk};
ghost use Rattle.exi_pool.specs.Passes.{IsOf};

use exi_names::{Event, EventList, EventRef, Txt, Val, ValRef};
use exi_pool::{Pool, PoolPass};
use exi_tape::{Full, Tape, laws};
use std::alloc::{AllocError, Global};
use std::sync::Wait;

/// How many characters the long event has: more than a page has bytes.
const LONG: u32 = 5_000;

/// A text of that many characters.
fn text(alloc: Global, count: u32) -> Result<Txt, AllocError>
    ensures { IfOk result (λ t. length t ≡ count) }
{
    let mut text = Txt::new(alloc);
    for _ in 0..count {
        text.push('x')?;
    }
    Ok(text)
}

/// What a push answered.
fn word(pushed: Result<(), Full>) -> &'static str {
    match pushed {
        Ok(()) => "taken",
        Err(Full) => "full",
    }
}

/// The events of a tape: for each its characters, where it has a text.
fn played(alloc: Global, tape: &Tape) -> Result<String, AllocError> {
    let mut list = EventList::new(alloc);
    let mut line = match tape.play(alloc, &mut list) {
        Ok(()) => String::from_str(alloc, "events")?,
        Err(_) => String::from_str(alloc, "stopped")?,
    };
    for event in list.as_slice() {
        if let Event::Ch(Val::Text(text)) = event {
            line.push(' ')?;
            line.push_str(text.as_str())?;
        }
    }
    line.push('\n')?;
    Ok(line)
}

/// Pushes characters, and gives the word for the answer.
fn pushed<R: Wait>(
    rt: &R,
    pool: &Pool,
    pass: &mut PoolPass,
    tape: &mut Tape,
    text: &Txt,
) -> &'static str
    requires of { IsOf pool.now pass.old }
    requires few { length text.now < 2 ^ 32 }
    ensures of { IsOf pool.now pass.new }
{
    laws::within_weight();
    word(tape.push(rt, pool, pass, &EventRef::Ch(ValRef::Text(text))))
}

/// A long event finds no room, and a short one does; its page comes back.
pub fn run<R: Wait>(rt: &R, alloc: Global) -> Result<String, AllocError> {
    let long = text(alloc, LONG)?;
    let short = text(alloc, 1)?;
    let (pool, mut passes) = Pool::new(rt, alloc, 1, 1)?;
    let Some(mut pass) = passes.pop() else {
        return String::from_str(alloc, "no passes\n");
    };
    let mut tape = Tape::new();
    let first = pushed(rt, &pool, &mut pass, &mut tape, &long);
    let before = played(alloc, &tape)?;
    let second = pushed(rt, &pool, &mut pass, &mut tape, &short);
    let after = played(alloc, &tape)?;
    tape.give_back(rt, &pool, &mut pass);
    let back = pool.take(rt, &mut pass).is_some();
    format!(in alloc; "{first}\n{before}{second}\n{after}page back {back}\n")
}
