//! The operation that path parameters and a body give.
ghost use Rattle.std.specs.Prelude.{◌≡◌, IfOk, IfErr, option_and_then};
ghost use Rattle.serde_json.specs.Data.{Data};
ghost use Rattle.serde_json.specs.View.{view};
ghost use Rattle.wire_body.specs.Body.{IsBody, IsJson, Says, words_of, id_named, query_area, query_of, read_of, create_of, update_of, delete_of, availability_read_of, setting_of, sub_query_of, sub_read_of, sub_create_of, sub_update_of, sub_delete_of};
ghost use Rattle.wire_body.specs.Given.{Gives};
ghost use Rattle.wire_body.specs.Naming as naming;
ghost use Rattle.entity_core.specs.EntityId.{spelled};

use crate::body_fault::BodyFault;
use crate::member::member;
use crate::naming::unless_zero;
use crate::put::put_of;
use crate::setting::{availability_of, old_version_of};
use crate::sub_put::sub_put_of;
use crate::volume::area_in;
use crate::words::{first_id, id_named, is_query, ovn_named, uss_parameter};
use entity_core::entity_id::EntityId;
use entity_core::nature::Kind;
use grid_core::volume::Area;
use policy_core::call::{OpKind, Operation};
use serde_json::Value;
use serde_json::error::Category;
use std::alloc::Global;

/// The parameters of a path.
#[derive(Clone, Copy, Debug)]
pub struct PathWords<'a> {
    pub first: &'a str,
    pub second: Option<&'a str>,
}

/// Parses the bytes as a JSON value.
fn json_of(alloc: Global, body: &[u8]) -> Result<Value, BodyFault>
    ensures ok { IfOk result (λ v. IsJson body.now (view v)) }
    ensures malformed { IfErr result (λ e. e ≡ BodyFault.Malformed
        → (d : Data) → IsJson body.now d → ⊥) }
{
    match Value::from_slice(alloc, body) {
        Ok(value) => Ok(value),
        Err(e) => Err(if e.classify() == Category::Memory {
            BodyFault::Memory
        } else {
            BodyFault::Malformed
        }),
    }
}

#[tactic(auto, unfolding(crate::specs::Body::query_area))]
fn query_area(alloc: Global, words: &PathWords<'_>, value: &Value) -> Result<Area, BodyFault>
    ensures { Gives result (query_area (words_of words.now) (view value.now)) }
{
    if !is_query(words) {
        return Err(BodyFault::Malformed);
    }
    let Some(found) = member(value, "area_of_interest") else {
        return Err(BodyFault::Malformed);
    };
    area_in(alloc, found)
}

#[tactic(auto, unfolding(crate::specs::Body::query_of))]
fn query_of(
    alloc: Global,
    kind: Kind,
    words: &PathWords<'_>,
    value: &Value,
) -> Result<Operation, BodyFault>
    ensures { Gives result (query_of kind (words_of words.now) (view value.now)) }
{
    let area = query_area(alloc, words, value)?;
    Ok(Operation::Query(kind, area))
}

#[tactic(auto, unfolding(crate::specs::Body::read_of))]
fn read_of(kind: Kind, words: &PathWords<'_>) -> Option<Operation>
    ensures { result ≡ read_of kind (words_of words.now) }
{
    let id = id_named(words)?;
    Some(Operation::Read(kind, id))
}

#[tactic(auto, unfolding(crate::specs::Body::create_of))]
fn create_of(
    alloc: Global,
    kind: Kind,
    words: &PathWords<'_>,
    value: &Value,
) -> Result<Operation, BodyFault>
    ensures { Gives result (create_of kind (words_of words.now) (view value.now)) }
{
    let Some(id) = id_named(words) else {
        return Err(BodyFault::Malformed);
    };
    let put = put_of(alloc, kind, value)?;
    Ok(Operation::Create(id, put))
}

#[tactic(auto, unfolding(crate::specs::Body::update_of))]
fn update_of(
    alloc: Global,
    kind: Kind,
    words: &PathWords<'_>,
    value: &Value,
) -> Result<Operation, BodyFault>
    ensures { Gives result (update_of kind (words_of words.now) (view value.now)) }
{
    let Some(id) = first_id(words) else {
        return Err(BodyFault::Malformed);
    };
    let ovn = ovn_named(alloc, words)?;
    let put = put_of(alloc, kind, value)?;
    Ok(Operation::Update(id, ovn, put))
}

#[tactic(auto, unfolding(crate::specs::Body::delete_of))]
fn delete_of(alloc: Global, kind: Kind, words: &PathWords<'_>) -> Result<Operation, BodyFault>
    ensures { Gives result (delete_of kind (words_of words.now)) }
{
    let Some(id) = first_id(words) else {
        return Err(BodyFault::Malformed);
    };
    let ovn = ovn_named(alloc, words)?;
    Ok(Operation::Delete(kind, id, ovn))
}

#[tactic(auto, unfolding(crate::specs::Body::availability_read_of))]
fn availability_read_of(alloc: Global, words: &PathWords<'_>) -> Result<Operation, BodyFault>
    ensures { Gives result (availability_read_of (words_of words.now)) }
{
    let uss = uss_parameter(alloc, words)?;
    Ok(Operation::ReadAvail(uss))
}

#[tactic(auto, unfolding(crate::specs::Body::setting_of))]
fn setting_of(alloc: Global, words: &PathWords<'_>, value: &Value) -> Result<Operation, BodyFault>
    ensures { Gives result (setting_of (words_of words.now) (view value.now)) }
{
    let uss = uss_parameter(alloc, words)?;
    let Some(availability) = availability_of(value) else {
        return Err(BodyFault::Malformed);
    };
    let version = old_version_of(alloc, value)?;
    Ok(Operation::SetAvail(uss, version, availability))
}

#[tactic(auto, unfolding(crate::specs::Body::sub_query_of))]
fn sub_query_of(alloc: Global, words: &PathWords<'_>, value: &Value) -> Result<Operation, BodyFault>
    ensures { Gives result (sub_query_of (words_of words.now) (view value.now)) }
{
    let area = query_area(alloc, words, value)?;
    Ok(Operation::QuerySub(area))
}

#[tactic(auto, unfolding(crate::specs::Body::sub_read_of))]
fn sub_read_of(words: &PathWords<'_>) -> Option<Operation>
    ensures { result ≡ sub_read_of (words_of words.now) }
{
    let id = id_named(words)?;
    Some(Operation::ReadSub(id))
}

fn new_id_named(words: &PathWords<'_>) -> Option<EntityId>
    ensures { result ≡ option_and_then naming.unless_zero (id_named (words_of words.now)) }
{
    match id_named(words) {
        Some(id) => unless_zero(id),
        None => None,
    }
}

#[tactic(auto, unfolding(crate::specs::Body::sub_create_of))]
fn sub_create_of(
    alloc: Global,
    words: &PathWords<'_>,
    value: &Value,
) -> Result<Operation, BodyFault>
    ensures { Gives result (sub_create_of (words_of words.now) (view value.now)) }
{
    let Some(id) = new_id_named(words) else {
        return Err(BodyFault::Malformed);
    };
    let put = sub_put_of(alloc, value)?;
    Ok(Operation::CreateSub(id, put))
}

fn first_sub_id(words: &PathWords<'_>) -> Option<EntityId>
    ensures { result ≡ option_and_then naming.unless_zero (spelled (words_of words.now).first) }
{
    match first_id(words) {
        Some(id) => unless_zero(id),
        None => None,
    }
}

#[tactic(auto, unfolding(crate::specs::Body::sub_update_of))]
fn sub_update_of(
    alloc: Global,
    words: &PathWords<'_>,
    value: &Value,
) -> Result<Operation, BodyFault>
    ensures { Gives result (sub_update_of (words_of words.now) (view value.now)) }
{
    let Some(id) = first_sub_id(words) else {
        return Err(BodyFault::Malformed);
    };
    let ovn = ovn_named(alloc, words)?;
    let put = sub_put_of(alloc, value)?;
    Ok(Operation::UpdateSub(id, ovn, put))
}

#[tactic(auto, unfolding(crate::specs::Body::sub_delete_of))]
fn sub_delete_of(alloc: Global, words: &PathWords<'_>) -> Result<Operation, BodyFault>
    ensures { Gives result (sub_delete_of (words_of words.now)) }
{
    let Some(id) = first_id(words) else {
        return Err(BodyFault::Malformed);
    };
    let ovn = ovn_named(alloc, words)?;
    Ok(Operation::DeleteSub(id, ovn))
}

/// Reads the operation of a kind from path parameters and a body (this project's profile).
///
/// Returns `Malformed` only if they give none. Ignores the body of a read or a deletion.
pub fn read_body(
    alloc: Global,
    kind: OpKind,
    words: &PathWords<'_>,
    body: &[u8],
) -> Result<Operation, BodyFault>
    ensures ok { IfOk result (λ op. IsBody kind (words_of words.now) body.now op) }
    ensures malformed { IfErr result (λ e. e ≡ BodyFault.Malformed
        → (op : Operation) → IsBody kind (words_of words.now) body.now op → ⊥) }
{
    match kind {
        OpKind::Query(kind) => query_of(alloc, kind, words, &json_of(alloc, body)?),
        OpKind::Read(kind) => read_of(kind, words).ok_or(BodyFault::Malformed),
        OpKind::Create(kind) => create_of(alloc, kind, words, &json_of(alloc, body)?),
        OpKind::Update(kind) => update_of(alloc, kind, words, &json_of(alloc, body)?),
        OpKind::Delete(kind) => delete_of(alloc, kind, words),
        OpKind::ReadAvail => availability_read_of(alloc, words),
        OpKind::SetAvail => setting_of(alloc, words, &json_of(alloc, body)?),
        OpKind::QuerySub => sub_query_of(alloc, words, &json_of(alloc, body)?),
        OpKind::ReadSub => sub_read_of(words).ok_or(BodyFault::Malformed),
        OpKind::CreateSub => sub_create_of(alloc, words, &json_of(alloc, body)?),
        OpKind::UpdateSub => sub_update_of(alloc, words, &json_of(alloc, body)?),
        OpKind::DeleteSub => sub_delete_of(alloc, words),
    }
}
