//! Prints entries of a pool's log, the calls or the purge that they represent, and the faults of other
//! bytes.
#![tactic(auto)]

use anyhow::{Context, Result};
use entity_core::text::Text;
use entity_core::uss_id::UssId;
use policy_core::call::{Call, Operation};
use policy_core::scope::{Caller, Scope, ScopeSet};
use pool_entry::batch::Batch;
use pool_entry::batch_fault::ReadError;
use pool_entry::bytes::Bytes;
use pool_entry::entry::{EntryActs, entry_acts};
use pool_entry::pool_call::PoolCall;
use pool_entry::purge::purge_bytes;
use std::alloc::Global;
use wire_route::routes::Routes;

const INTENT: &str = "/dss/v1/operational_intent_references/2f8343be-6482-4d1b-a474-16847e01af1e";

const BODY: &str =
    r#"{"extents":[{"cells":["89c25904"],"altitude_lower":0,"altitude_upper":1200,"time_start":900,"time_end":2000}],"state":"Accepted","uss_base_url":"https://a.example"}"#;

// Bytes that represent neither a batch nor a purge, each with what is wrong with them.
const OTHERS: &[(&str, &str)] = &[
    ("no first line", ""),
    ("another version", "dss-batch 2\n"),
    ("no number", "dss-batch 1\nx 5:uss-a s---- 3:PUT 1:/ 0:\n"),
    (
        "a leading zero",
        "dss-batch 1\n07 5:uss-a s---- 3:PUT 1:/ 0:\n",
    ),
    ("a sign", "dss-batch 1\n+7 5:uss-a s---- 3:PUT 1:/ 0:\n"),
    ("no name", "dss-batch 1\n7 5:uss a s---- 3:PUT 1:/ 0:\n"),
    (
        "scopes in another order",
        "dss-batch 1\n7 5:uss-a ms--- 3:PUT 1:/ 0:\n",
    ),
    (
        "a method that is too short",
        "dss-batch 1\n7 5:uss-a s---- 4:PUT 1:/ 0:\n",
    ),
    (
        "a path that is too long",
        "dss-batch 1\n7 5:uss-a s---- 3:PUT 1:/x 0:\n",
    ),
    (
        "a body without end",
        "dss-batch 1\n7 5:uss-a s---- 3:PUT 1:/ 9:{}\n",
    ),
    (
        "more behind it",
        "dss-batch 1\n7 5:uss-a s---- 3:PUT 1:/ 0:\n\n",
    ),
    ("another version of a purge", "dss-purge 2\n7\n"),
    ("a purge without a time", "dss-purge 1\n"),
    ("a purge without end", "dss-purge 1\n7"),
    ("a purge with a leading zero", "dss-purge 1\n07\n"),
    ("a purge with two times", "dss-purge 1\n7\n8\n"),
    (
        "a purge with a time that is too large",
        "dss-purge 1\n18446744073709551616\n",
    ),
];

// Returns a call of this USS.
fn call_of(
    alloc: Global,
    moment: u64,
    uss: &str,
    method: &str,
    path: &str,
    body: &str,
) -> Option<PoolCall> {
    let uss = UssId::read(alloc, uss).ok()?;
    let scopes = ScopeSet::empty().with(Scope::StrategicCoordination);
    let scopes = scopes.with(Scope::AvailabilityArbitration);
    Some(PoolCall {
        moment,
        caller: Caller { uss, scopes },
        method: Bytes::copy(alloc, method.as_bytes()).ok()?,
        path: Text::from_string(String::from_str(alloc, path).ok()?),
        body: Bytes::copy(alloc, body.as_bytes()).ok()?,
    })
}

// Returns a batch of three calls, of which the second has no body and the third a wrong one.
fn example(alloc: Global) -> Option<Batch> {
    let mut batch = Batch::new(alloc).ok()?;
    let put = call_of(alloc, 1_790_000_000, "uss-a", "PUT", INTENT, BODY)?;
    batch.push(alloc, put).ok()?;
    let ovn = format!(in alloc; "{INTENT}/0123456789abcdef").ok()?;
    let delete = call_of(alloc, 1_790_000_001, "uss.b_2", "DELETE", ovn.as_str(), "")?;
    batch.push(alloc, delete).ok()?;
    let wrong = call_of(alloc, 1_790_000_001, "uss-a", "PUT", INTENT, "{\n}")?;
    batch.push(alloc, wrong).ok()?;
    Some(batch)
}

fn name_of(op: &Operation) -> &'static str {
    match op {
        Operation::Create(_, _) => "creation",
        Operation::Delete(_, _, _) => "deletion",
        Operation::Malformed(_) => "malformed",
        Operation::NoRoute => "no route",
        Operation::NoMethod => "no method",
        _ => "another",
    }
}

fn print_call(rt: &impl Print, moment: u64, call: &Call) -> Result<()> {
    let name = name_of(&call.op);
    match &call.caller {
        Some(caller) => {
            let uss = caller.uss.text();
            rt.println(format_args!("{moment} {uss} {name}"))?;
        }
        None => rt.println(format_args!("{moment} {name}"))?,
    }
    Ok(())
}

fn print_acts(rt: &impl Print, routes: &Routes, alloc: Global, bytes: &[u8]) -> Result<()> {
    let acts = entry_acts(alloc, routes, bytes).ok();
    match acts.context("the entry has no acts")? {
        EntryActs::Calls(calls) => {
            for made in &calls {
                print_call(rt, made.0, &made.1)?;
            }
        }
        EntryActs::Purge(until) => rt.println(format_args!("purge up to {until}"))?,
    }
    Ok(())
}

fn print_fault(
    rt: &impl Print,
    routes: &Routes,
    alloc: Global,
    what: &str,
    bytes: &str,
) -> Result<()> {
    match entry_acts(alloc, routes, bytes.as_bytes()) {
        Ok(EntryActs::Calls(calls)) => {
            let count = calls.len();
            rt.println(format_args!("{what}: {count} calls"))?;
        }
        Ok(EntryActs::Purge(until)) => rt.println(format_args!("{what}: purge up to {until}"))?,
        Err(ReadError::Memory) => rt.println(format_args!("{what}: out of memory"))?,
        Err(ReadError::Fault(fault)) => rt.println(format_args!("{what}: {fault:?}"))?,
    }
    Ok(())
}

fn main(rt: HostRuntime) -> Result<()> {
    let routes = Routes::new(rt.alloc())
        .ok()
        .context("no memory for the routes")?;
    let batch = example(rt.alloc()).context("no example")?;
    let text = str::from_utf8(batch.bytes())
        .ok()
        .context("the entry is no text")?;
    rt.print(text)?;
    print_acts(&rt, &routes, rt.alloc(), batch.bytes())?;
    let purge = purge_bytes(rt.alloc(), 1_790_000_002).ok();
    let purge = purge.context("no memory for a purge")?;
    let text = str::from_utf8(&purge).ok().context("the entry is no text")?;
    rt.print(text)?;
    print_acts(&rt, &routes, rt.alloc(), &purge)?;
    for other in OTHERS {
        print_fault(&rt, &routes, rt.alloc(), other.0, other.1)?;
    }
    Ok(())
}
