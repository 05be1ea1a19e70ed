//! A service over a database file in memory: it is opened, closed, and opened again, also after a
//! crash. Shows that all premises of the laws about files can be met at once.
//!
//! Prints the responses to the three calls. The file `stdout` has those of the policy.
#![tactic(auto)]

mod files;
mod runs;
mod story;

use crate::story::told;
use service_step::reply::Reply;
use std::process::ExitCode;
use wire_reply::answer::reply_text;

// Prints the body of the response with this reply, on a line of its own.
fn print_reply(rt: &HostRuntime, reply: &Reply) -> Option<()> {
    let text = reply_text(rt.alloc(), reply).ok()?;
    let text = String::from_utf8(text).ok()?;
    println!(rt; "{text}").ok()
}

fn print_all(rt: &HostRuntime) -> Option<()> {
    let told = told(rt.alloc())?;
    print_reply(rt, &told.first)?;
    print_reply(rt, &told.second)?;
    print_reply(rt, &told.third)
}

fn main(rt: HostRuntime) -> ExitCode {
    match print_all(&rt) {
        Some(()) => ExitCode::SUCCESS,
        None => ExitCode::FAILURE,
    }
}
