//! An instance at a log over etcd, for tests: reads commands, and prints what the log gives.
//!
//! Arguments: the addresses of etcd, separated by commas, a name, a number, and optionally a revision,
//! the count of entries up to there, the settings (a salt and the number of the policy), the number
//! of the pool's settings or `-`, the count and the digest of the link at the revision or `- -`, a
//! user and a password. Commands, one a line: `offer TEXT`, `long BYTES` (offers a batch of so many
//! bytes), `admits USS` (prints whether the instance may act for it), `end`, `wait MS` (goes on for
//! that time), `settle MS` (goes on until no batch and no question is open, at most that time),
//! `quit`.
#![tactic(auto)]

mod commands;
mod instance;

use crate::commands::{Command, command_of, settings_of};
use crate::instance::{Instance, Outcome};
use std::process::ExitCode;
use std::{env, io};

// Printed if there are no arguments.
const USAGE: &str = "usage: test_pool_etcd ADDRESSES NAME NUMBER \
    [REVISION COUNT [SALT POLICY [POOL [CHANGES DIGEST [USER PASSWORD]]]]]";

// The exit status once the log is lost, and the one for wrong arguments.
const LOST: u8 = 3;

const WRONG: u8 = 2;

// Runs the commands of the standard input.
fn run_commands(rt: &HostRuntime, instance: &mut Instance<'_>) -> io::Result<Outcome> {
    for line in rt.lines(rt.alloc()) {
        let line = line?;
        let Some(command) = command_of(line.as_str()) else {
            println!(rt; "unknown command")?;
            continue;
        };
        match instance.run(command)? {
            Outcome::GoesOn => {}
            outcome => return Ok(outcome),
        }
    }
    Ok(Outcome::Ends)
}

// Runs the program, and returns its exit status.
fn run(rt: &HostRuntime) -> io::Result<u8> {
    let mut words = Vec::new(rt.alloc());
    for word in env::args(rt)? {
        words.push(word)?;
    }
    if words.len() < 2 {
        println!(rt; "{USAGE}")?;
        return Ok(0);
    }
    let Some(settings) = settings_of(rt.alloc(), words.as_slice())? else {
        println!(rt; "{USAGE}")?;
        return Ok(WRONG);
    };
    let mut instance = Instance::new(rt, settings)?;
    Ok(match run_commands(rt, &mut instance)? {
        Outcome::Lost => LOST,
        _ => 0,
    })
}

fn main(rt: HostRuntime) -> ExitCode {
    match run(&rt) {
        Ok(status) => ExitCode::from(status),
        Err(error) => {
            let _ = println!(rt; "{error}");
            ExitCode::FAILURE
        }
    }
}
