//! The lines of a report.
ghost use Rattle.std.specs.Prelude.{◌≡◌, ◌-◌, ◌++◌, IfOk, OnOk, decimal, string_bytes};
ghost use Rattle.dss_report.specs.Report.{
  front_of,
  kind_text,
  left_in,
  line_of,
  lines_of,
  right_in,
  serial_line,
  spaces,
  state_text,
};

use entity_core::entity::Entity;
use entity_core::nature::{Kind, Nature};
use std::alloc::{AllocError, Global};

/// Returns the word of a kind.
pub(crate) fn kind_text(kind: Kind) -> &'static str
    ensures { result.now ≡ kind_text kind }
{
    match kind {
        Kind::Intent => "intent",
        Kind::Constraint => "constraint",
    }
}

/// Returns the word of a state: its name, or `-` for a constraint.
pub(crate) fn state_text(nature: Nature) -> &'static str
    ensures { result.now ≡ state_text nature }
{
    match nature {
        Nature::Intent(state, _) => state.name(),
        Nature::Constraint => "-",
    }
}

// Returns the spaces that fill a column after a text of that length.
fn gap(alloc: Global, width: usize, length: usize) -> Result<String, AllocError>
    ensures { IfOk result (λ gap. string_bytes gap ≡ spaces (width - length)) }
{
    " ".repeat(alloc, width.saturating_sub(length))
}

// Returns a text at the left of a column.
fn left_in(alloc: Global, width: usize, text: &str) -> Result<String, AllocError>
    ensures { IfOk result (λ column. string_bytes column ≡ left_in width text.now) }
{
    let gap = gap(alloc, width, text.len())?;
    format!(in alloc; "{text}{gap}")
}

// Returns a number at the right of a column.
fn right_in(alloc: Global, width: usize, number: u64) -> Result<String, AllocError>
    ensures { IfOk result (λ column. string_bytes column ≡ right_in width (decimal number)) }
{
    let text = format!(in alloc; "{number}")?;
    let gap = gap(alloc, width, text.len())?;
    format!(in alloc; "{gap}{text}")
}

// Returns the columns of an entity's line before its times.
fn front(alloc: Global, entity: &Entity) -> Result<String, AllocError>
    ensures { IfOk result (λ front. string_bytes front ≡ front_of entity.now) }
{
    let kind = left_in(alloc, 10, kind_text(entity.nature.kind()))?;
    let id = entity.id.text(alloc)?;
    let version = right_in(alloc, 10, u64::from(entity.version.number()))?;
    let state = left_in(alloc, 13, state_text(entity.nature))?;
    format!(in alloc; "{kind} {id} {version} {state}")
}

// Returns the line of an entity.
fn line(alloc: Global, entity: &Entity) -> Result<String, AllocError>
    ensures { IfOk result (λ line. string_bytes line ≡ line_of entity.now) }
{
    let front = front(alloc, entity)?;
    let times = entity.times();
    let start = right_in(alloc, 12, times.0)?;
    let end = right_in(alloc, 12, times.1)?;
    let manager = entity.manager.text();
    format!(in alloc; "{front} {start} {end} {manager}\n")
}

/// Appends the lines of entities to a text.
pub(crate) fn put_lines(
    alloc: Global,
    text: &mut Vec<u8>,
    entities: &[Entity],
) -> Result<(), AllocError>
    ensures { OnOk result (text.new.items ≡ text.old.items ++ lines_of entities.now) }
{
    for entity in entities {
        let line = line(alloc, entity)?;
        text.extend_from_slice(line.as_bytes())?;
    }
    Ok(())
}

/// Appends the line of a serial to a text.
pub(crate) fn put_serial(alloc: Global, text: &mut Vec<u8>, serial: u64) -> Result<(), AllocError>
    ensures { OnOk result (text.new.items ≡ text.old.items ++ serial_line serial) }
{
    let line = format!(in alloc; "serial {serial}\n")?;
    text.extend_from_slice(line.as_bytes())
}
