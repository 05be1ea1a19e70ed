//! The commands on this system.
use crate::cause::Cause;
use crate::loopback::{self, SelfArgs};
use crate::run::{self, RunArgs};
use crate::{backup, begin, connections, follow, live, pool, purge, reading, tokens_command};
use dss_args::begin_args::BeginArgs;
use dss_args::follow_args::FollowArgs;
use dss_args::pool_args::PoolArgs;
use dss_args::serve_args::ServeArgs;
use dss_command::fault::Fault;
use dss_command::line::Commands;
use sqlite::{Start, Wary};
use std::io::{Read, Write};
use wire_http::Counted;

/// The system, the representation of any contents of a database's file and log, and the record of
/// the cause of a fault.
#[derive(Drop)]
pub(crate) struct Program<'a, F: Start> {
    pub(crate) rt: &'a HostRuntime,
    pub(crate) start: F,
    pub(crate) cause: &'a mut Cause,
}

impl<'a, F: Start> Commands for Program<'a, F> {
    // nothing is claimed of what the system holds and does
    ghost does = { λ line remaining before after done. Unit {0} };

    fn run<R: Read, W: Write>(
        self,
        tokens: &str,
        now: u64,
        database: Option<&str>,
        requests: &str,
        input: &mut Counted<R>,
        output: &mut Counted<W>,
    ) -> Result<(), Fault> {
        let Program { rt, start, .. } = self;
        let given = RunArgs {
            tokens,
            now,
            database,
            requests,
        };
        run::run(rt, &given, start, input, output)
    }

    fn serve<E: Write>(self, given: ServeArgs<'_>, error: &mut E) -> Result<(), Fault> {
        let Program { rt, start, cause } = self;
        if given.double_sync {
            return connections::serve(rt, &given, Wary, cause, error);
        }
        connections::serve(rt, &given, start, cause, error)
    }

    fn serve_pool<E: Write>(self, given: PoolArgs<'_>, error: &mut E) -> Result<(), Fault> {
        let Program { rt, start, cause } = self;
        pool::serve(rt, given, start, cause, error)
    }

    fn begin<W: Write, E: Write>(
        self,
        given: BeginArgs<'_>,
        output: &mut W,
        error: &mut E,
    ) -> Result<(), Fault> {
        let Program { rt, start, cause } = self;
        begin::begin(rt, given, start, cause, output, error)
    }

    fn follow<W: Write, E: Write>(
        self,
        given: FollowArgs<'_>,
        output: &mut W,
        error: &mut E,
    ) -> Result<(), Fault> {
        let Program { rt, start, cause } = self;
        follow::follow(rt, given, start, cause, output, error)
    }

    fn loop_back<R: Read, W: Write>(
        self,
        tokens: &str,
        now: u64,
        request: &str,
        input: &mut Counted<R>,
        output: &mut Counted<W>,
    ) -> Result<(), Fault> {
        let given = SelfArgs {
            tokens,
            now,
            request,
        };
        loopback::loop_back(self.rt, &given, input, output)
    }

    fn report<W: Write>(self, database: &str, places: bool, output: &mut W) -> Result<(), Fault> {
        let Program { rt, start, .. } = self;
        reading::report(rt, database, places, start, output)
    }

    fn backup(self, database: &str, to: &str, live: bool) -> Result<(), Fault> {
        let Program { rt, start, .. } = self;
        if live {
            return live::back_up(rt, database, to);
        }
        backup::backup(rt, database, to, start)
    }

    fn verify<W: Write>(self, file: &str, output: &mut W) -> Result<(), Fault> {
        live::verify(self.rt, file, output)
    }

    fn upgrade<W: Write>(self, database: &str, output: &mut W) -> Result<(), Fault> {
        let Program { rt, start, .. } = self;
        reading::upgrade(rt, database, start, output)
    }

    fn purge<W: Write>(
        self,
        database: &str,
        until: u64,
        now: Option<u64>,
        output: &mut W,
    ) -> Result<(), Fault> {
        let Program { rt, start, .. } = self;
        purge::purge(rt, database, until, now, start, output)
    }

    fn check_tokens<W: Write>(self, file: &str, output: &mut W) -> Result<(), Fault> {
        tokens_command::check(self.rt, file, output)
    }

    fn new_token<W: Write, E: Write>(
        self,
        uss: &str,
        scopes: &str,
        output: &mut W,
        error: &mut E,
    ) -> Result<(), Fault> {
        tokens_command::new_token(self.rt, uss, scopes, output, error)
    }

    fn new_salt<W: Write>(self, output: &mut W) -> Result<(), Fault> {
        tokens_command::new_salt(self.rt, output)
    }
}
