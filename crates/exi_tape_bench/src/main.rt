//! What a push and a play of an event take, beside a copy of as many bytes.
//!
//! A round takes five events in turn: the end of an element, an element, an attribute with 16 characters, 16 characters,
//! and 1,024 characters. Each is pushed 1,000 times to a new tape, which is played to what counts events, and whose
//! pages then go back; and as many bytes as spell the event are copied as often.
//!
//! Without an argument it makes two rounds, and prints how many events were pushed and played. With an argument it makes
//! that many rounds, and also prints for each event the number of its bytes, and how many nanoseconds 1,000 pushes, plays
//! and copies took, each in the round in which they were least. `bench/workers` calls it so.
#![tactic(auto)]

mod clock;
mod counter;
mod events;
mod texts;
mod times;

use events::measure_round;
use exi_pool::Pool;
use std::alloc::Global;
use std::sync::Wait;
use std::time::Clock;
use std::{env, io};
use texts::Texts;
use times::{Table, Times};

/// How many rounds are made where no argument tells it.
const ROUNDS: u32 = 2;

/// How many pages there are: the longest tape takes 253.
const PAGES: u32 = 260;

/// All rounds.
fn measure<R: Clock + Wait>(rt: &R, alloc: Global, rounds: u32) -> io::Result<Table> {
    let texts = Texts::new(alloc)?;
    let mut table = Table::new(alloc);
    let (pool, mut passes) = Pool::new(rt, alloc, PAGES, 1)?;
    if let Some(mut pass) = passes.pop() {
        for _ in 0..rounds {
            measure_round(rt, alloc, &pool, &mut pass, &texts, &mut table)?;
        }
    }
    Ok(table)
}

/// Prints a line of one event.
fn print_times<R: Print>(rt: &R, name: &str, times: &Times, timed: bool) -> io::Result<()> {
    println!(rt; "{name}: pushed {}, played {}", times.pushed, times.played)?;
    if timed {
        println!(rt; "{name} bytes {}", times.bytes)?;
        println!(rt; "{name} push {}", times.push)?;
        println!(rt; "{name} play {}", times.play)?;
        println!(rt; "{name} copy {}", times.copy)?;
    }
    Ok(())
}

fn main(rt: HostRuntime) -> io::Result<()> {
    let word = env::args(&rt)?.nth(1);
    let rounds = match &word {
        Some(word) => word.parse::<u32>().unwrap_or(0),
        None => ROUNDS,
    };
    let table = measure(&rt, rt.alloc(), rounds)?;
    let timed = word.is_some();
    print_times(&rt, "end", &table.end, timed)?;
    print_times(&rt, "element", &table.element, timed)?;
    print_times(&rt, "attribute", &table.attribute, timed)?;
    print_times(&rt, "short", &table.short, timed)?;
    print_times(&rt, "long", &table.long, timed)
}
