//! The program `dss`: its commands, and the code that runs them.
#![tactic(auto)]

mod backup;
mod backups;
mod begin;
mod cause;
mod chain_file;
mod change_time;
mod clock;
mod clock_file;
mod connections;
mod copying;
mod descriptors;
mod etcd_io;
mod etcd_user;
mod etcd_waiting;
mod file_digest;
mod follow;
mod live;
mod log_file;
mod loopback;
mod machine;
mod new_database;
mod next_file;
mod patience;
mod pool;
mod pool_file_check;
mod pool_file_maker;
mod pool_files;
mod pool_log;
mod private;
mod program;
mod purge;
mod reading;
mod regular;
mod run;
mod serving;
mod sockets;
mod tokens;
mod tokens_command;

use crate::cause::Cause;
use crate::program::Program;
use dss_command::line::run_line;
use sqlite::Unknown;
use std::process::ExitCode;
use std::{env, io};
use wire_http::Counted;

// Runs the program's command line with the standard streams.
fn run_args(rt: &HostRuntime) -> io::Result<u8> {
    let mut owned = Vec::new(rt.alloc());
    for word in env::args(rt)? {
        owned.push(word)?;
    }
    let mut words = Vec::new(rt.alloc());
    for word in &owned {
        words.push(word.as_str())?;
    }
    let mut cause = Cause::new(rt.alloc());
    let program = Program {
        rt,
        start: Unknown,
        cause: &mut cause,
    };
    let status = run_line(
        rt.alloc(),
        words.as_slice(),
        program,
        &mut Counted::new(rt.reader()),
        &mut Counted::new(io::writer(rt)),
        &mut rt.stderr(),
    );
    cause.print(rt);
    Ok(status)
}

// Prints one line that says why the command line cannot be read, and returns the exit status.
fn report_unread_args(rt: &HostRuntime, error: &io::Error) -> u8 {
    if error.kind() == io::ErrorKind::InvalidData {
        let _ = eprintln!(rt; "error: an argument is not valid UTF-8");
        return 2;
    }
    let _ = eprintln!(rt; "dss: memory");
    1
}

fn main(rt: HostRuntime) -> ExitCode {
    match run_args(&rt) {
        Ok(status) => ExitCode::from(status),
        Err(error) => ExitCode::from(report_unread_args(&rt, &error)),
    }
}
