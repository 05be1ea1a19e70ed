//! One simulation: the service over a drawn schedule.
ghost use Rattle.std.specs.Prelude.{◌≡◌, false};
ghost use Rattle.entity_core.specs.Airspace.{empty_at};
ghost use Rattle.space_core.specs.Space.{IsContent};

use crate::clock::SimClock;
use crate::draws::Draws;
use crate::journal::Journal;
use crate::plan::{Plan, draw_plan};
use crate::reference::Reference;
use crate::shared::Shared;
use crate::sockets::{Operator, SimSockets};
use crate::store::FailingStore;
use crate::tokens::{FIRST, SimTokens};
use crate::verdict::{Facts, Failure, Flaw, judge};
use admin_http::build::BuildInfo;
use admin_http::web_page::OwnHosts;
use database_backend::database::Database;
use entity_core::salt::Salt;
use server::serve::serve as serve_clients;
use server_backend::backend::Backend;
use server_base::backups::NoBackups;
use server_watch::clock_watch::ClockWatch;
use server_watch::token_watch::TokenWatch;
use service_calls::service::Service;
use space_core::batch::ApplyBatch;
use space_core::purge::Purge;
use space_core::purge_ended::PurgeEnded;
use space_memory::to_memory::ToMemory;
use space_mirror::mirrored::Mirrored;
use space_snapshot::snapshot::SnapshotSource;
use space_sql::space::SqlSpace;
use std::alloc::Global;
use std::io;
use token_conf::token_table::TokenTable;
use wire_route::routes::Routes;

/// A space that counts how often its store failed.
///
/// The functions over a simulated space are generic in it: one that names the type of the tables takes
/// minutes to prove.
pub(crate) trait CountsFailures {
    /// Returns how often the store has failed.
    fn into_failed(self) -> u64;
}

impl<S: ApplyBatch + ToMemory + Drop> CountsFailures for Mirrored<FailingStore<S>> {
    fn into_failed(self) -> u64 {
        self.into_store().failed()
    }
}

/// What all simulations share.
#[derive(Drop)]
pub(crate) struct Setting {
    pub(crate) alloc: Global,
    pub(crate) routes: Routes,
    pub(crate) tokens: TokenTable,
    pub(crate) salt: Salt,
    pub(crate) hosts: OwnHosts,
}

impl Setting {
    /// Creates it.
    pub(crate) fn new(alloc: Global) -> Option<Setting> {
        let tokens = TokenTable::read(alloc, FIRST).ok()?;
        let salt = tokens.salt().clone().ok()?;
        Some(Setting {
            alloc,
            routes: Routes::new(alloc).ok()?,
            tokens,
            salt,
            hosts: OwnHosts::new(alloc, 80).ok()?,
        })
    }
}

// Returns a space over an empty store, with its mirror.
fn with_mirror<S: ApplyBatch + ToMemory + Drop>(alloc: Global, mut store: S) -> Option<Mirrored<S>>
    requires works { S.is_broken store ≡ false }
    requires content { S.is_sound store → IsContent S.holds store (empty_at 0) }
{
    match store.to_memory(alloc) {
        Ok(mirror) => Some(Mirrored::new(alloc, store, mirror)),
        Err(_) => None,
    }
}

// Returns a space over an empty store that fails so often of a hundred changes.
fn failing<S: ApplyBatch + ToMemory + Drop>(
    alloc: Global,
    space: S,
    draws: Draws,
    percent: u64,
) -> Option<Mirrored<FailingStore<S>>>
    requires works { S.is_broken space ≡ false }
    requires content { S.is_sound space → IsContent S.holds space (empty_at 0) }
{
    with_mirror(alloc, FailingStore::new(space, draws, percent))
}

/// Serves the clients of a plan by a backend, which purges what ended `keep` seconds ago.
pub(crate) fn serve<'a, B: Backend>(
    setting: &Setting,
    plan: &Plan,
    keep: Option<u64>,
    backend: &mut B,
    watch: TokenWatch<SimTokens<'a>>,
    clock: &mut SimClock<'a>,
    sockets: &mut SimSockets<'a>,
    journal: &mut Journal<'a>,
) -> io::Result<()> {
    let operated = match plan.course.operator {
        Operator::Absent => None,
        _ => Some(BuildInfo {
            started: 0,
            version: "0",
            kit: "0",
            hosts: &setting.hosts,
        }),
    };
    let backups: Option<NoBackups> = None;
    let is_watched = keep.is_some() || operated.is_some();
    let known = ClockWatch::new(keep, None, is_watched);
    serve_clients(
        setting.alloc,
        &setting.routes,
        &setting.tokens,
        watch,
        known,
        None,
        backend,
        clock,
        sockets,
        backups,
        plan.limits,
        plan.explaining,
        operated,
        journal,
    )
}

/// Takes the clients out of a plan.
pub(crate) fn sockets_of<'a>(
    alloc: Global,
    plan: &mut Plan,
    shared: &'a Shared,
    draws: Draws,
) -> SimSockets<'a> {
    let peers = std::mem::replace(&mut plan.peers, Vec::new(alloc));
    SimSockets {
        alloc,
        shared,
        draws,
        course: plan.course,
        events: Vec::new(alloc),
        peers,
        connected: 0,
        taken: 0,
        accepted: 0,
        ready: Vec::new(alloc),
        next: 0,
        waits: 0,
        stopped_at: 0,
    }
}

// Runs a drawn plan over an empty space, and judges what happened.
fn run_plan<S: PurgeEnded + SnapshotSource + CountsFailures + Drop>(
    setting: &Setting,
    mut plan: Plan,
    draws: &mut Draws,
    space: S,
) -> Option<Result<Facts, Failure>> {
    let alloc = setting.alloc;
    let clients = plan.peers.len();
    let shared = Shared::new(alloc, clients).ok()?;
    let service = Service::new(space, setting.salt.clone().ok()?);
    let mut backend = Database::new(service, None);
    let source = SimTokens {
        alloc,
        shared: &shared,
        draws: draws.split(),
        percent: plan.reloads,
    };
    let watch = TokenWatch::new(source, String::from_str(alloc, FIRST).ok()?);
    let mut clock = SimClock::new(&shared, draws.split(), plan.clock_faults);
    let mut journal = Journal::new(alloc, &shared);
    let mut sockets = sockets_of(alloc, &mut plan, &shared, draws.split());
    let ended = serve(
        setting,
        &plan,
        None,
        &mut backend,
        watch,
        &mut clock,
        &mut sockets,
        &mut journal,
    );
    let reference = Reference::new(
        alloc,
        &setting.routes,
        &setting.salt,
        plan.explaining,
        clients,
    )?;
    Some(judge(
        &plan,
        &shared,
        &sockets,
        &journal,
        backend.into_service(),
        reference,
        ended.is_ok(),
    ))
}

// Runs a drawn plan over an empty store.
fn run_over<S: ApplyBatch + ToMemory + Purge + Drop>(
    setting: &Setting,
    plan: Plan,
    draws: &mut Draws,
    store: S,
) -> Option<Result<Facts, Failure>>
    requires works { S.is_broken store ≡ false }
    requires content { S.is_sound store → IsContent S.holds store (empty_at 0) }
{
    let space = failing(setting.alloc, store, draws.split(), plan.store_faults)?;
    run_plan(setting, plan, draws, space)
}

/// Runs the simulation of that seed.
pub(crate) fn simulate(setting: &Setting, seed: u64) -> Result<Facts, Failure> {
    let mut draws = Draws::new(seed);
    let Ok(plan) = draw_plan(setting.alloc, &setting.salt, &mut draws, 0) else {
        return Err(Failure::of(Flaw::Memory));
    };
    let Ok(store) = SqlSpace::create(setting.alloc) else {
        return Err(Failure::of(Flaw::Memory));
    };
    match run_over(setting, plan, &mut draws, store) {
        Some(judged) => judged,
        None => Err(Failure::of(Flaw::Memory)),
    }
}
