//! A page of the airspace as JSON.
ghost use Rattle.std.specs.Prelude.{◌≡◌, true, IfOk, List, None, map, option_map, string_bytes};
ghost use Rattle.serde_json.specs.Data.{Data, array, object};
ghost use Rattle.serde_json.specs.View.{items_of, view};
ghost use Rattle.serde_json.specs.Written.{IsInOrder};
ghost use Rattle.admin_airspace.specs.Page.{AreShown, IsEntityShown, IsPage, IsSubShown, page_members, suppliers_data, suppliers_of};
ghost use Rattle.admin_airspace.specs.PageQuery.{after_of};

use crate::key::{Cursor, ItemKind};
use crate::page::{First, PageBudget, first_entities, first_subs};
use crate::query::PageQuery;
use crate::reference::entity_json;
use crate::subscription::sub_json;
use entity_core::entity::Entity;
use entity_core::entity_id::EntityId;
use entity_core::nature::Kind;
use entity_core::subscription::Sub;
use entity_maps::availabilities::Availabilities;
use serde_json::{Map, Value, put};
use space_snapshot::snapshot::Snapshot;
use std::alloc::{AllocError, Global};
use wire_body::availability::name_of;
use wire_reply::members::{put_number, put_text};

// Returns entities, in their order.
fn entities_json(
    alloc: Global,
    entities: &[&Entity],
    availabilities: &Availabilities,
) -> Result<Value, AllocError>
    ensures { IfOk result (λ v. (values : List Data) × (view v ≡ array (items_of values))
        × AreShown (IsEntityShown availabilities.now) (map (λ e. e.now) entities.now) values) }
{
    let mut values = Vec::with_capacity(alloc, entities.len())?;
    for entity in entities {
        let availability = availabilities.present(&entity.manager);
        values.push(entity_json(alloc, entity, availability)?)?;
    }
    Ok(Value::from(values))
}

// Returns subscriptions, in their order.
fn subs_json(
    alloc: Global,
    subs: &[&Sub],
    availabilities: &Availabilities,
) -> Result<Value, AllocError>
    ensures { IfOk result (λ v. (values : List Data) × (view v ≡ array (items_of values))
        × AreShown (IsSubShown availabilities.now) (map (λ s. s.now) subs.now) values) }
{
    let mut values = Vec::with_capacity(alloc, subs.len())?;
    for sub in subs {
        let availability = availabilities.present(&sub.manager);
        values.push(sub_json(alloc, sub, availability)?)?;
    }
    Ok(Value::from(values))
}

// Returns the text of the cursor of an id.
fn key_text(alloc: Global, sort: ItemKind, id: &EntityId) -> Result<String, AllocError> {
    let name = sort.name();
    let id = id.text(alloc)?;
    format!(in alloc; "{name}:{id}")
}

// Returns the cursor of the next page, after the last of these items.
fn next_text(
    alloc: Global,
    entities: &[&Entity],
    subs: &[&Sub],
) -> Result<Option<String>, AllocError> {
    if let Some(sub) = subs.last() {
        return Ok(Some(key_text(alloc, ItemKind::Subscription, &sub.id)?));
    }
    let Some(entity) = entities.last() else {
        return Ok(None);
    };
    let sort = match entity.nature.kind() {
        Kind::Intent => ItemKind::Intent,
        Kind::Constraint => ItemKind::Constraint,
    };
    Ok(Some(key_text(alloc, sort, &entity.id)?))
}

// Returns the cursor of the next page, if there is one.
fn next_of(
    alloc: Global,
    entities: &First<'_, Entity>,
    subs: &First<'_, Sub>,
) -> Result<Option<String>, AllocError>
    ensures { entities.now.are_all ≡ true → subs.now.are_all ≡ true
        → IfOk result (λ next. next ≡ None) }
{
    if entities.are_all && subs.are_all {
        return Ok(None);
    }
    next_text(alloc, &entities.found, &subs.found)
}

// Returns the availability of each USS that has set one.
fn suppliers_json(alloc: Global, availabilities: &Availabilities) -> Result<Value, AllocError>
    ensures { IfOk result (λ v. view v ≡ suppliers_data availabilities.now) }
{
    let mut members = Map::new(alloc);
    for setting in availabilities.items() {
        let name = name_of(setting.availability());
        put_text(&mut members, alloc, setting.uss().text(), name)?;
    }
    Ok(Value::from(members))
}

// Returns the availabilities for the first page, and `None` for others.
fn suppliers_of(
    alloc: Global,
    after: Option<Cursor>,
    availabilities: &Availabilities,
) -> Result<Option<Value>, AllocError>
    ensures { IfOk result (λ suppliers.
        option_map view suppliers ≡ suppliers_of after availabilities.now) }
{
    match after {
        Some(_) => Ok(None),
        None => Ok(Some(suppliers_json(alloc, availabilities)?)),
    }
}

// Returns the members of a page.
fn page_members_json(
    alloc: Global,
    next: Option<String>,
    entities: Value,
    serial: u64,
    subs: Value,
    suppliers: Option<Value>,
) -> Result<Value, AllocError>
    ensures { IfOk result (λ v. view v ≡ object (page_members (option_map string_bytes next)
        (view entities) serial (view subs) (option_map view suppliers))) }
{
    let mut members = Map::new(alloc);
    put(&mut members, alloc, "entities", entities)?;
    if let Some(next) = next {
        put_text(&mut members, alloc, "next", next.as_str())?;
    }
    put_number(&mut members, alloc, "serial", serial)?;
    put(&mut members, alloc, "subscriptions", subs)?;
    if let Some(suppliers) = suppliers {
        put(&mut members, alloc, "suppliers", suppliers)?;
    }
    Ok(Value::from(members))
}

// Returns the page of a query.
fn page_json(alloc: Global, shown: Snapshot<'_>, query: PageQuery) -> Result<Value, AllocError>
    ensures { IfOk result (λ v. IsPage shown.entry.entities.now shown.entry.subscriptions.now
        shown.entry.availabilities.now shown.entry.serial (after_of query) (view v)) }
{
    let mut room = PageBudget::of(&query);
    let entities = first_entities(alloc, shown.entities, query.after, &mut room)?;
    let subs = first_subs(alloc, shown.subscriptions, query.after, &mut room)?;
    let next = next_of(alloc, &entities, &subs)?;
    let entity_values = entities_json(alloc, &entities.found, shown.availabilities)?;
    let sub_values = subs_json(alloc, &subs.found, shown.availabilities)?;
    let suppliers = suppliers_of(alloc, query.after, shown.availabilities)?;
    page_members_json(
        alloc,
        next,
        entity_values,
        shown.serial,
        sub_values,
        suppliers,
    )
}

/// Returns the page of a query over a snapshot, as compact JSON with the members of each object in
/// the order of their names. The first page also has the availability of each USS that has set one.
pub fn page_text(alloc: Global, shown: Snapshot<'_>, query: PageQuery) -> Result<String, AllocError>
    ensures { IfOk result (λ text. (d : Data) × IsInOrder (string_bytes text) d
        × IsPage shown.entry.entities.now shown.entry.subscriptions.now
        shown.entry.availabilities.now shown.entry.serial (after_of query) d) }
{
    let page = page_json(alloc, shown, query)?;
    page.to_string(alloc)
}
