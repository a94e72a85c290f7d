//! What a claim, a post and an arrival take where no other thread steps on the board, beside the bare steps on memory.
//!
//! A round makes three boards of 1,000 hints, and on each its one seat goes through all hints. On the first board it
//! claims them; on the second it also posts each, and on the third it also arrives at each. So a difference of two times
//! is what one call takes. Beside the boards a round goes through as many numbers and places by themselves: by one
//! compare-exchange each, by one swap each, and by one exchange of a place each.
//!
//! Without an argument it makes two rounds, and prints what the board answered. With an argument it makes that many
//! rounds, and also prints how many nanoseconds 1,000 hints took of each kind, in the round in which they were least.
//! `bench/workers` calls it so.
#![tactic(auto)]

mod bare;
mod board;
mod clock;
mod offsets;

use bare::{Bare, measure_bare};
use board::{Calls, measure_calls};
use std::alloc::Global;
use std::time::Clock;
use std::{env, io};

/// How many rounds are made where no argument tells it.
const ROUNDS: u32 = 2;

/// All rounds.
fn measure<R: Clock>(rt: &R, alloc: Global, rounds: u32) -> io::Result<(Calls, Bare)> {
    let mut calls = Calls::none();
    let mut bare = Bare::none();
    for _ in 0..rounds {
        measure_calls(rt, alloc, &mut calls)?;
        measure_bare(rt, alloc, &mut bare)?;
    }
    Ok((calls, bare))
}

/// Prints what the board and the bare steps answered.
fn print_counts<R: Print>(rt: &R, calls: &Calls, bare: &Bare) -> io::Result<()> {
    println!(rt; "claimed {}", calls.claimed)?;
    println!(rt; "posted {}", calls.posted)?;
    println!(rt; "taken {}", calls.taken)?;
    println!(rt; "bare steps that found what they should {}", bare.right)
}

/// Prints the times.
fn print_times<R: Print>(rt: &R, calls: &Calls, bare: &Bare) -> io::Result<()> {
    println!(rt; "claim {}", calls.claim)?;
    println!(rt; "claim-post {}", calls.claim_post)?;
    println!(rt; "claim-post-arrive {}", calls.claim_post_arrive)?;
    println!(rt; "compare-exchange {}", bare.compare_exchange)?;
    println!(rt; "swap {}", bare.swap)?;
    println!(rt; "exchange {}", bare.exchange)
}

fn main(rt: HostRuntime) -> io::Result<()> {
    let word = env::args(&rt)?.nth(1);
    let rounds = match &word {
        Some(word) => word.parse::<u32>().unwrap_or(0),
        None => ROUNDS,
    };
    let (calls, bare) = measure(&rt, rt.alloc(), rounds)?;
    print_counts(&rt, &calls, &bare)?;
    if word.is_some() {
        print_times(&rt, &calls, &bare)?;
    }
    Ok(())
}
