//! Serves streams of requests over tables in memory, and compares searches, for tests. No command
//! of `dss` stores its tables in memory.
//!
//! The first argument is the token file. Each further one is the name of a stream of requests,
//! whose responses are printed, or `cell:` with the token of a cell. For a cell, it prints for each
//! kind how many of the references meet the cell. It also prints whether the search by the index
//! finds the same as one through all references.
#![tactic(auto)]

use entity_core::entity::Entity;
use entity_core::nature::Kind;
use grid_core::token::parse_token;
use grid_core::volume::Area;
use service_calls::service::Service;
use space_core::met::Met;
use space_core::space::Space;
use space_sql::space::SqlSpace;
use std::fs::File;
use std::process::ExitCode;
use std::{env, fs};
use token_conf::token_table::TokenTable;
use wire_http::{Counted, FixedClock, serve_stream};
use wire_route::routes::Routes;

/// The time of each request, in seconds since 1970.
const NOW: u64 = 5_000;

// Serves the requests of a file. This and the functions below are generic in the space: one that
// names the type of the tables takes minutes to prove.
fn serve_file<S: Space + Drop>(
    rt: &HostRuntime,
    routes: &Routes,
    service: &mut Service<S>,
    tokens: &TokenTable,
    name: &str,
) -> Option<()> {
    let mut reader = Counted::new(File::open(rt, name).ok()?);
    let mut writer = Counted::new(rt.stdout());
    let mut clock = FixedClock::new(NOW);
    serve_stream(
        rt.alloc(),
        routes,
        service,
        tokens,
        &mut clock,
        &mut reader,
        &mut writer,
    )
    .ok()?;
    Some(())
}

// Returns true if they are the same references, in the same order.
fn are_same(found: &[Met], sought: &[Entity]) -> bool {
    found.len() == sought.len() && found.iter().zip(sought).all(|(m, e)| m.entity.id == e.id)
}

// Compares the search by the index with one through all references of the kind.
fn compare_searches<S: Space>(
    rt: &HostRuntime,
    space: &mut S,
    kind: Kind,
    token: &str,
) -> Option<()> {
    let mut cells = Vec::new(rt.alloc());
    cells.push(parse_token(token).ok()?).ok()?;
    let area = Area::new(cells, (None, None), (None, None)).ok()?;
    let areas = [area];
    let found = space.meeting(kind, &areas, None).ok()?;
    let mut sought = space.all(kind).ok()?;
    let count = sought.len();
    sought.retain(|e| e.volumes.meets_any(&areas));
    let told = if are_same(found.as_slice(), sought.as_slice()) {
        "both searches find the same"
    } else {
        "the searches differ"
    };
    let met = sought.len();
    println!(rt; "{token}: {met} of {count}, {told}").ok()
}

fn answer<S: Space + Drop>(
    rt: &HostRuntime,
    routes: &Routes,
    service: &mut Service<S>,
    tokens: &TokenTable,
    word: &str,
) -> Option<()> {
    let Some(token) = word.strip_prefix("cell:") else {
        return serve_file(rt, routes, service, tokens, word);
    };
    compare_searches(rt, service.space(), Kind::Intent, token)?;
    compare_searches(rt, service.space(), Kind::Constraint, token)
}

fn answer_all<S: Space + Drop>(rt: &HostRuntime, space: S) -> Option<()> {
    let mut words = env::args(rt).ok()?;
    words.next()?;
    let Some(name) = words.next() else {
        return Some(());
    };
    let text = fs::read_to_string(rt, name.as_str()).ok()?;
    let tokens = TokenTable::read(rt.alloc(), text.as_str()).ok()?;
    let salt = tokens.salt().clone().ok()?;
    let routes = Routes::new(rt.alloc()).ok()?;
    let mut service = Service::new(space, salt);
    for word in words {
        answer(rt, &routes, &mut service, &tokens, word.as_str())?;
    }
    Some(())
}

fn main(rt: HostRuntime) -> ExitCode {
    let Ok(space) = SqlSpace::create(rt.alloc()) else {
        return ExitCode::FAILURE;
    };
    match answer_all(&rt, space) {
        Some(()) => ExitCode::SUCCESS,
        None => ExitCode::FAILURE,
    }
}
