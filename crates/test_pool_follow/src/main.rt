//! Follows logs in memory, and prints what was followed and what the space has then.
#![tactic(auto)]

mod list_log;

use crate::list_log::{Arrivals, ListLog, Plan};
use anyhow::{Context, Result};
use entity_core::nature::Kind;
use entity_core::salt::Salt;
use pool_follow::follow::{Waiting, follow};
use pool_follow::follow_fault::FollowFault;
use pool_follow::follower::Follower;
use service_calls::service::Service;
use space_memory::memory::MemorySpace;
use std::io;
use std::io::ErrorKind;
use std::time::Duration;
use wire_route::routes::Routes;

// A log whose entries arrive at once. A follower commits in between.
const AT_ONCE: Plan = Plan {
    entries: 130,
    arriving: 130,
    told_after: 1,
    lost_at: u64::MAX,
    nonsense: u64::MAX,
    purge_at: u64::MAX,
    until: u64::MAX,
    silence: Duration::ZERO,
};

// Counts the waits, up to one that fails.
#[derive(Drop)]
struct Waits {
    count: u64,
    most: u64,
}

impl Waiting for Waits {
    fn now(&mut self) -> Duration {
        Duration::from_secs(self.count)
    }

    fn wait(&mut self, _patience: Duration) -> io::Result<()> {
        if self.count == self.most {
            return Err(io::Error::from(ErrorKind::Other));
        }
        self.count = self.count.saturating_add(1);
        Ok(())
    }
}

fn name_of(followed: Result<(), FollowFault>) -> &'static str {
    match followed {
        Ok(()) => "followed",
        Err(FollowFault::Memory) => "out of memory",
        Err(FollowFault::Lost) => "lost",
        Err(FollowFault::Space) => "space failed",
        Err(FollowFault::Silent) => "silent",
        Err(FollowFault::Wait) => "wait failed",
    }
}

// Follows a log, and prints the result.
fn tell(rt: &HostRuntime, routes: &Routes, what: &str, plan: Plan) -> Result<()> {
    let salt = Salt::read(rt.alloc(), "salt").ok().context("no salt")?;
    let service = Service::new(MemorySpace::new(rt.alloc()), salt);
    let mut follower = Follower::new(ListLog::new(rt.alloc(), plan), service);
    let mut waits = Waits {
        count: 0,
        most: 200,
    };
    let result = follow(rt.alloc(), routes, &mut follower, &mut Arrivals, &mut waits);
    let (log, space) = follower.into_parts();
    let (name, given, waited) = (name_of(result), log.given, waits.count);
    let intents = space.snapshot().counts.of(Kind::Intent);
    rt.println(format_args!("{what}: {name}, {given} entries, {waited} waits, {intents} intents"))?;
    Ok(())
}

// Follows logs with a purge.
fn tell_purges(rt: &HostRuntime, routes: &Routes) -> Result<()> {
    let plan = Plan {
        purge_at: 100,
        until: 10_495,
        ..AT_ONCE
    };
    tell(rt, routes, "a purge of 50 intents", plan)?;
    let plan = Plan {
        purge_at: 20,
        ..plan
    };
    tell(rt, routes, "a purge before later intents", plan)?;
    let plan = Plan {
        until: 10_004,
        ..plan
    };
    tell(rt, routes, "a purge of nothing", plan)?;
    let plan = Plan {
        entries: 700,
        arriving: 700,
        purge_at: 600,
        ..AT_ONCE
    };
    tell(rt, routes, "a purge in chunks", plan)
}

fn main(rt: HostRuntime) -> Result<()> {
    let routes = Routes::new(rt.alloc())
        .ok()
        .context("no memory for the routes")?;
    tell(&rt, &routes, "at once", AT_ONCE)?;
    let plan = Plan {
        entries: 0,
        ..AT_ONCE
    };
    tell(&rt, &routes, "no entries", plan)?;
    let plan = Plan {
        arriving: 1,
        ..AT_ONCE
    };
    tell(&rt, &routes, "one after the other", plan)?;
    let plan = Plan {
        told_after: 9,
        ..AT_ONCE
    };
    tell(&rt, &routes, "end told late", plan)?;
    let plan = Plan {
        nonsense: 3,
        ..AT_ONCE
    };
    tell(&rt, &routes, "an entry without acts", plan)?;
    let plan = Plan {
        lost_at: 70,
        ..AT_ONCE
    };
    tell(&rt, &routes, "lost", plan)?;
    let silence = Duration::from_secs(31);
    let plan = Plan {
        arriving: 50,
        silence,
        ..AT_ONCE
    };
    tell(&rt, &routes, "silent", plan)?;
    let plan = Plan {
        told_after: u64::MAX,
        ..AT_ONCE
    };
    tell(&rt, &routes, "end never told", plan)?;
    tell_purges(&rt, &routes)
}
