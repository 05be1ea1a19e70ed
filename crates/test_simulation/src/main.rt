//! Simulates `serve` over sockets, a clock, a token file, and a store or the log of a pool in memory,
//! whose behaviour is drawn.
//!
//! The first argument is a seed, and the second one a number of simulations: one for that seed, and
//! one for each of the next. An odd seed simulates a database, and an even one an instance of a pool.
//! With the word `database` or `pool` before the seed, each seed simulates that backend. Prints a line
//! for each simulation that fails, with its seed.
#![tactic(auto)]

mod clock;
mod draws;
mod journal;
mod peer;
mod plan;
mod pool_log;
mod pool_plan;
mod pool_reference;
mod pool_simulation;
mod pool_verdict;
mod pool_writers;
mod record;
mod reference;
mod requests;
mod shared;
mod simulation;
mod sockets;
mod store;
mod tokens;
mod verdict;

use crate::pool_simulation::simulate_pool;
use crate::simulation::{Setting, simulate};
use crate::verdict::Failure;
use std::env;
use std::fmt::Debug;
use std::process::ExitCode;

// The seed and the number of simulations if none are given.
const SEED: u64 = 1;

const COUNT: u64 = 30;

// Which backend the seeds simulate.
#[derive(Clone, Copy, Debug, PartialEq, Eq)]
enum Choice {
    Database,
    Pool,
    BySeed,
}

impl Choice {
    // Returns the choice that a word names.
    fn named(word: &str) -> Option<Choice> {
        match word {
            "database" => Some(Choice::Database),
            "pool" => Some(Choice::Pool),
            _ => None,
        }
    }

    // Returns true if a seed simulates a pool.
    fn has_pool(self, seed: u64) -> bool {
        match self {
            Choice::Database => false,
            Choice::Pool => true,
            Choice::BySeed => seed % 2 == 0,
        }
    }
}

// Returns the number of an argument, or another number without one.
fn number(word: Option<String>, other: u64) -> Option<u64> {
    match word {
        Some(word) => word.as_str().parse::<u64>().ok(),
        None => Some(other),
    }
}

// Prints what happened in a simulation that passed, if `verbose`.
fn print_facts<F: Debug + Drop>(
    rt: &HostRuntime,
    seed: u64,
    facts: F,
    verbose: bool,
) -> Option<bool> {
    if verbose {
        println!(rt; "seed {seed}: {facts:?}").ok()?;
    }
    Some(true)
}

// Prints bytes of responses under a title.
fn print_bytes(rt: &HostRuntime, title: &str, bytes: &[u8]) -> Option<()> {
    let text = str::from_utf8(bytes).unwrap_or("?");
    println!(rt; "{title}:\n{text}").ok()
}

// Prints a failure, with what is known of the client if `verbose`.
fn print_failure(rt: &HostRuntime, seed: u64, failure: Failure, verbose: bool) -> Option<bool> {
    let text = failure.flaw.text();
    println!(rt; "seed {seed}: {text}").ok()?;
    if !verbose {
        return Some(false);
    }
    if let Some(client) = failure.client {
        println!(rt; "{client:?}").ok()?;
    }
    if let Some(texts) = &failure.texts {
        print_bytes(rt, "taken", texts.taken.as_slice())?;
        print_bytes(rt, "expected", texts.expected.as_slice())?;
    }
    Some(false)
}

// Runs the simulation of a seed, and prints what happened if it failed, or if `verbose`. Returns true
// if it passed.
fn run_one(
    rt: &HostRuntime,
    setting: &Setting,
    choice: Choice,
    seed: u64,
    verbose: bool,
) -> Option<bool> {
    if choice.has_pool(seed) {
        return match simulate_pool(setting, seed) {
            Ok(facts) => print_facts(rt, seed, facts, verbose),
            Err(failure) => print_failure(rt, seed, failure, verbose),
        };
    }
    match simulate(setting, seed) {
        Ok(facts) => print_facts(rt, seed, facts, verbose),
        Err(failure) => print_failure(rt, seed, failure, verbose),
    }
}

// Runs the simulations of the command line, and prints how many passed. Returns true if all did.
fn run(rt: &HostRuntime) -> Option<bool> {
    let mut words = env::args(rt).ok()?;
    words.next()?;
    let mut word = words.next();
    let named = match &word {
        Some(word) => Choice::named(word.as_str()),
        None => None,
    };
    if named.is_some() {
        word = words.next();
    }
    let choice = named.unwrap_or(Choice::BySeed);
    let seed = number(word, SEED)?;
    let count = number(words.next(), COUNT)?;
    let verbose = words.next().is_some();
    let setting = Setting::new(rt.alloc())?;
    let mut passed = 0_u64;
    for index in 0..count {
        if run_one(rt, &setting, choice, seed.wrapping_add(index), verbose)? {
            passed = passed.saturating_add(1);
        }
    }
    let failed = count.saturating_sub(passed);
    println!(rt; "{passed} passed, {failed} failed").ok()?;
    Some(failed == 0)
}

fn main(rt: HostRuntime) -> ExitCode {
    match run(&rt) {
        Some(true) => ExitCode::SUCCESS,
        _ => ExitCode::FAILURE,
    }
}
