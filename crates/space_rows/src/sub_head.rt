//! Conversion between a subscription without its volume and a row of the table `subscription`.
ghost use Rattle.std.specs.Prelude.{◌≡◌, ◌≤ℤ◌, pos, IfOk};
ghost use Rattle.space_rows.specs.Finds.{Finds};
ghost use Rattle.space_rows.specs.Volumes.{HasBounds};
ghost use Rattle.space_rows.specs.Subs.{SpellsInterest, flag_number};
ghost use Rattle.space_rows.specs.SubHead.{SpellsIndex, SpellsSubHead, bounds_of, sub_head_part};

use crate::head::{id_of, is_numbered, serial_of};
use crate::rows::{SubRow, VolumeRow};
use crate::texts::{ovn_in, text_of, url_in, uss_in};
use crate::volumes::volume_row;
use entity_core::base_url::BaseUrl;
use entity_core::entity_id::EntityId;
use entity_core::interest::Interest;
use entity_core::nature::Kind;
use entity_core::notification_index::NotificationIndex;
use entity_core::ovn::Ovn;
use entity_core::serial::Serial;
use entity_core::subscription::Sub;
use entity_core::text::Text;
use entity_core::uss_id::UssId;
use std::alloc::{AllocError, Global};

/// A subscription without its volume.
#[derive(Drop)]
pub(crate) struct SubHead {
    pub id: EntityId,
    pub manager: UssId,
    pub version: Ovn,
    pub serial: Serial,
    pub index: NotificationIndex,
    pub url: BaseUrl,
    pub interest: Interest,
}

// Returns the interest that the two numbers of a row represent, if any.
fn interest_of(for_intents: i64, for_constraints: i64) -> Option<Interest>
    ensures { Finds (SpellsInterest for_intents for_constraints) result }
{
    match (for_intents, for_constraints) {
        (1, 1) => Some(Interest::Both),
        (1, 0) => Some(Interest::Intents),
        (0, 1) => Some(Interest::Constraints),
        _ => None,
    }
}

fn index_of(number: i64) -> Option<NotificationIndex>
    ensures { Finds (SpellsIndex number) result }
{
    if number < 0 {
        return None;
    }
    NotificationIndex::from_number(number as u64)
}

fn flag_number(flag: bool) -> i64
    ensures { result ≡ flag_number flag }
{
    if flag { 1 } else { 0 }
}

/// Returns what a row of the table `subscription` represents, except for the volume, if it
/// represents anything.
pub(crate) fn sub_head_of(alloc: Global, row: &SubRow) -> Result<Option<SubHead>, AllocError>
    ensures { IfOk result (λ o. Finds (SpellsSubHead row.now) o) }
{
    let Some(serial) = serial_of(row.serial) else {
        return Ok(None);
    };
    if !is_numbered(row.num, serial) {
        return Ok(None);
    }
    let Some(index) = index_of(row.notes) else {
        return Ok(None);
    };
    let Some(interest) = interest_of(row.for_intents, row.for_constraints) else {
        return Ok(None);
    };
    let Some(id) = id_of(alloc, row.id.text())? else {
        return Ok(None);
    };
    let Some(manager) = uss_in(alloc, row.manager.text())? else {
        return Ok(None);
    };
    let Some(version) = ovn_in(alloc, row.version.text())? else {
        return Ok(None);
    };
    let Some(url) = url_in(alloc, row.url.text())? else {
        return Ok(None);
    };
    Ok(Some(SubHead {
        id,
        manager,
        version,
        serial,
        index,
        url,
        interest,
    }))
}

/// Returns the bounds of a subscription in the form of a volume row.
pub(crate) fn bounds_of(row: &SubRow) -> VolumeRow
    ensures { result ≡ bounds_of row.now }
{
    VolumeRow {
        entity: row.num,
        place: 0,
        alt_lower: row.alt_lower,
        alt_upper: row.alt_upper,
        time_start: row.time_start,
        time_end: row.time_end,
    }
}

/// Returns the row of a subscription under a number.
pub(crate) fn sub_row(alloc: Global, sub: &Sub, num: i64) -> Result<SubRow, AllocError>
    requires least { pos 1 ≤ℤ num }
    requires most { num ≤ℤ pos sub.now.serial }
    ensures num { IfOk result (λ row. row.num ≡ num) }
    ensures head { IfOk result (λ row. SpellsSubHead row (sub_head_part sub.now)) }
    ensures bounds { IfOk result (λ row.
        HasBounds (bounds_of row) sub.now.volume.cells sub.now.volume) }
{
    let _number = sub.id.number();
    let bounds = volume_row(num, 0, &sub.volume);
    Ok(SubRow {
        num,
        id: Text::from_string(sub.id.text(alloc)?),
        manager: text_of(alloc, sub.manager.text())?,
        serial: sub.serial.number() as i64,
        version: text_of(alloc, sub.version.text())?,
        notes: sub.index.number() as i64,
        url: text_of(alloc, sub.url.text())?,
        for_intents: flag_number(sub.interest.wants(Kind::Intent)),
        for_constraints: flag_number(sub.interest.wants(Kind::Constraint)),
        alt_lower: bounds.alt_lower,
        alt_upper: bounds.alt_upper,
        time_start: bounds.time_start,
        time_end: bounds.time_end,
    })
}
