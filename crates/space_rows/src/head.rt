//! Conversion between an entity without volumes and a row of the table `entity`.
ghost use Rattle.std.specs.Prelude.{◌≡◌, ◌↔◌, ◌≤◌, ◌^◌, ◌≤ℤ◌, ℕ, pos, IsTrue, IfOk, Some, None};
ghost use Rattle.entity_core.specs.EntityId.{spelled};
ghost use Rattle.entity_core.specs.Entity.{max_version, subscription_of};
ghost use Rattle.entity_core.specs.Serial.{max_serial};
ghost use Rattle.entity_core.specs.declared.nature.Nature.TheVariants.{Intent};
ghost use Rattle.space_rows.specs.Rows.{kind_number, state_number};
ghost use Rattle.space_rows.specs.Finds.{Finds};
ghost use Rattle.space_rows.specs.Head.{SpellsNature, SpellsId, SpellsCount, SpellsHead, head_part};

use crate::cells::is_same;
use crate::numbers::{kind_number, state_number};
use crate::rows::EntityRow;
use crate::texts::{ovn_in, text_of, url_in, uss_in};
use entity_core::base_url::BaseUrl;
use entity_core::entity::Entity;
use entity_core::entity_id::EntityId;
use entity_core::nature::{Kind, Nature, State};
use entity_core::ovn::Ovn;
use entity_core::serial::Serial;
use entity_core::text::Text;
use entity_core::uss_id::UssId;
use entity_core::version::Version;
use std::alloc::{AllocError, Global};

/// An entity without its volumes.
#[derive(Drop)]
pub(crate) struct Head {
    pub nature: Nature,
    pub id: EntityId,
    pub manager: UssId,
    pub version: Version,
    pub serial: Serial,
    pub ovn: Ovn,
    pub url: BaseUrl,
}

fn state_of(number: i64) -> Option<State>
    ensures { Finds (λ s. number ≡ state_number (Intent s None)) result }
{
    match number {
        0 => Some(State::Accepted),
        1 => Some(State::Activated),
        2 => Some(State::Nonconforming),
        3 => Some(State::Contingent),
        _ => None,
    }
}

fn intent_of(state: i64, named: Option<EntityId>) -> Option<Nature>
    ensures { Finds (SpellsNature (pos 0) state named) result }
{
    match state_of(state) {
        Some(state) => Some(Nature::Intent(state, named)),
        None => None,
    }
}

fn constraint_of(state: i64, named: Option<EntityId>) -> Option<Nature>
    ensures { Finds (SpellsNature (pos 1) state named) result }
{
    match (state, named) {
        (4, None) => Some(Nature::Constraint),
        _ => None,
    }
}

// Returns the nature that the numbers of a row and the referenced subscription represent, if any.
fn nature_of(kind: i64, state: i64, named: Option<EntityId>) -> Option<Nature>
    ensures { Finds (SpellsNature kind state named) result }
{
    if kind == 0 {
        return intent_of(state, named);
    }
    if kind == 1 {
        return constraint_of(state, named);
    }
    None
}

fn id_as_printed(alloc: Global, id: EntityId, text: &str) -> Result<Option<EntityId>, AllocError>
    requires { spelled text.now ≡ Some id }
    ensures { IfOk result (λ o. Finds (SpellsId text.now) o) }
{
    let printed = id.text(alloc)?;
    let _number = id.number();
    if is_same(printed.as_str(), text) {
        Ok(Some(id))
    } else {
        Ok(None)
    }
}

/// Returns the id whose printed form is the text, if there is one.
pub(crate) fn id_of(alloc: Global, text: &str) -> Result<Option<EntityId>, AllocError>
    ensures { IfOk result (λ o. Finds (SpellsId text.now) o) }
{
    match EntityId::read(text) {
        Ok(id) => id_as_printed(alloc, id, text),
        Err(_) => Ok(None),
    }
}

fn version_of(number: i64) -> Option<Version>
    ensures { Finds (SpellsCount max_version number) result }
{
    if number < 1 || number > 2147483647 {
        return None;
    }
    Version::from_number(number as u32)
}

/// Returns the serial with this number, if there is one.
pub(crate) fn serial_of(number: i64) -> Option<Serial>
    ensures { Finds (SpellsCount max_serial number) result }
{
    if number < 1 {
        return None;
    }
    Serial::next_after(number as u64 - 1)
}

/// Returns true if the number of an entity or a subscription is from 1 to its serial.
pub(crate) fn is_numbered(num: i64, serial: Serial) -> bool
    ensures { IsTrue result ↔ ((pos 1 ≤ℤ num) × (num ≤ℤ pos serial)) }
{
    num >= 1 && num as u64 <= serial.number()
}

/// Returns what a row of the table `entity` represents, if it represents anything.
pub(crate) fn head_of(
    alloc: Global,
    row: &EntityRow,
    named: Option<EntityId>,
) -> Result<Option<Head>, AllocError>
    ensures { IfOk result (λ o. Finds (SpellsHead row.now named) o) }
{
    let Some(nature) = nature_of(row.kind, row.state, named) else {
        return Ok(None);
    };
    let Some(version) = version_of(row.version) else {
        return Ok(None);
    };
    let Some(serial) = serial_of(row.serial) else {
        return Ok(None);
    };
    if !is_numbered(row.num, serial) {
        return Ok(None);
    }
    let Some(id) = id_of(alloc, row.id.text())? else {
        return Ok(None);
    };
    let Some(manager) = uss_in(alloc, row.manager.text())? else {
        return Ok(None);
    };
    let Some(ovn) = ovn_in(alloc, row.ovn.text())? else {
        return Ok(None);
    };
    let Some(url) = url_in(alloc, row.url.text())? else {
        return Ok(None);
    };
    Ok(Some(Head {
        nature,
        id,
        manager,
        version,
        serial,
        ovn,
        url,
    }))
}

/// Returns the row of an entity under a number. The row does not say which subscription the entity
/// references.
pub(crate) fn entity_row(alloc: Global, entity: &Entity, num: i64) -> Result<EntityRow, AllocError>
    requires least { pos 1 ≤ℤ num }
    requires most { num ≤ℤ pos entity.now.serial }
    ensures num { IfOk result (λ row. row.num ≡ num) }
    ensures row { IfOk result (λ row.
        SpellsHead row (subscription_of entity.now.nature) (head_part entity.now)) }
{
    let _number = entity.id.number();
    Ok(EntityRow {
        num,
        kind: kind_number(entity.nature.kind()),
        id: Text::from_string(entity.id.text(alloc)?),
        manager: text_of(alloc, entity.manager.text())?,
        state: state_number(entity.nature),
        version: i64::from(entity.version.number()),
        serial: entity.serial.number() as i64,
        ovn: text_of(alloc, entity.ovn.text())?,
        url: text_of(alloc, entity.url.text())?,
    })
}
