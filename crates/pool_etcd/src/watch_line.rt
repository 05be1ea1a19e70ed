//! The lines of a watch, from JSON.
ghost use Rattle.std.specs.Prelude.{◌≡◌, codes};
ghost use Rattle.serde_json.specs.Find.{as_str, get};
ghost use Rattle.serde_json.specs.View.{items_view, view};
ghost use Rattle.pool_etcd.specs.Given.{Gives, GivesBy, Reads};
ghost use Rattle.pool_etcd.specs.Member.{each, read_or};
ghost use Rattle.pool_etcd.specs.WatchLine.{change_by, change_of, changes_of, deletion_of, line_of, put_kind, result_of};

use crate::json_value::json_of;
use crate::member::{bytes_at, flag_at, items_at, number_at, required_number};
use crate::payload::Payload;
use crate::response::{KeyValue, key_value};
use crate::response_fault::ResponseFault;
use serde_json::Value;
use std::alloc::Global;
use std::marker::Model;

/// A deletion of a key, at a revision.
#[derive(Drop)]
pub struct Deletion {
    pub key: Payload,
    pub revision: u64,
}

/// A change of a key.
#[derive(Drop)]
pub enum Change {
    /// The key got a value.
    Put(KeyValue),
    /// The key was deleted, or its lease ended.
    Deleted(Deletion),
}

/// Changes, in order.
///
/// Contracts see their list.
#[derive(Drop)]
pub struct ChangeList {
    items: Vec<Change>,
}

impl Model for ChangeList {
    ghost use Rattle.std.specs.Prelude.{List};
    ghost use Rattle.pool_etcd.specs.declared.watch_line.Change.{Change};

    ghost Value = { List Change };

    ghost view = { λ a. a.items.items };
}

impl ChangeList {
    /// Converts a vector of changes.
    ///
    /// Allocates nothing.
    pub fn from_vec(items: Vec<Change>) -> ChangeList
        ensures { result ≡ items.items }
    {
        ChangeList { items }
    }

    /// Returns the changes.
    pub fn items(&self) -> &[Change]
        ensures { result.now ≡ self.now }
    {
        self.items.as_slice()
    }
}

/// What a line of a watch says.
#[derive(Drop)]
pub enum WatchLine {
    /// The watch failed.
    Failed,
    /// The watch ends. All before this revision was removed, unless it is 0.
    Canceled(u64),
    /// The next changes. There can be none.
    Changes(ChangeList),
}

#[tactic(auto, unfolding(crate::specs::WatchLine::change_of))]
fn change_of(alloc: Global, value: &Value) -> Result<Change, ResponseFault>
    ensures { Gives result (change_of (view value.now)) }
{
    let kind = kind_of(value)?;
    let Some(key) = value.get("kv") else {
        return Err(ResponseFault::Unexpected);
    };
    change_by(alloc, kind, key)
}

// Returns the kind of a change. An absent one is the first kind.
fn kind_of(value: &Value) -> Result<&str, ResponseFault>
    ensures { GivesBy (λ kind. kind.now) result
        (read_or put_kind as_str (get (codes "type") (view value.now))) }
{
    match value.get("type") {
        Some(kind) => match kind.as_str() {
            Some(kind) => Ok(kind),
            None => Err(ResponseFault::Unexpected),
        },
        None => Ok("PUT"),
    }
}

#[tactic(auto, unfolding(crate::specs::WatchLine::deletion_of))]
fn deletion_of(alloc: Global, value: &Value) -> Result<Deletion, ResponseFault>
    ensures { Gives result (deletion_of (view value.now)) }
{
    let key = bytes_at(alloc, value, "key")?;
    let revision = required_number(alloc, value, "mod_revision")?;
    Ok(Deletion { key, revision })
}

fn change_by(alloc: Global, kind: &str, key: &Value) -> Result<Change, ResponseFault>
    ensures { Gives result (change_by kind.now (view key.now)) }
{
    if kind == "PUT" {
        match key_value(alloc, key) {
            Ok(put) => Ok(Change::Put(put)),
            Err(fault) => Err(fault),
        }
    } else if kind == "DELETE" {
        match deletion_of(alloc, key) {
            Ok(deletion) => Ok(Change::Deleted(deletion)),
            Err(fault) => Err(fault),
        }
    } else {
        Err(ResponseFault::Unexpected)
    }
}

fn each_change(alloc: Global, items: &[Value]) -> Result<Vec<Change>, ResponseFault>
    ensures { GivesBy (λ v. v.items) result (each change_of (items_view items.now)) }
{
    let mut changes = Vec::new(alloc);
    for value in items {
        let change = change_of(alloc, value)?;
        if changes.push(change).is_err() {
            return Err(ResponseFault::Memory);
        }
    }
    Ok(changes)
}

#[tactic(auto, unfolding(crate::specs::WatchLine::changes_of))]
fn changes_of(alloc: Global, value: &Value) -> Result<ChangeList, ResponseFault>
    ensures { Gives result (changes_of (view value.now)) }
{
    let items = items_at(value, "events")?;
    let changes = each_change(alloc, items)?;
    Ok(ChangeList::from_vec(changes))
}

#[tactic(auto, unfolding(crate::specs::WatchLine::result_of))]
fn result_of(alloc: Global, value: &Value) -> Result<WatchLine, ResponseFault>
    ensures { Gives result (result_of (view value.now)) }
{
    if flag_at(value, "canceled")? {
        let compacted = number_at(alloc, value, "compact_revision")?;
        return Ok(WatchLine::Canceled(compacted));
    }
    let changes = changes_of(alloc, value)?;
    Ok(WatchLine::Changes(changes))
}

#[tactic(auto, unfolding(crate::specs::WatchLine::line_of))]
fn line_of(alloc: Global, value: &Value) -> Result<WatchLine, ResponseFault>
    ensures { Gives result (line_of (view value.now)) }
{
    if value.get("error").is_some() {
        return Ok(WatchLine::Failed);
    }
    match value.get("result") {
        Some(found) => result_of(alloc, found),
        None => Err(ResponseFault::Unexpected),
    }
}

/// Reads a line of a watch.
pub fn read_line(alloc: Global, line: &[u8]) -> Result<WatchLine, ResponseFault>
    ensures { Reads line_of line.now result }
{
    let value = json_of(alloc, line)?;
    line_of(alloc, &value)
}
