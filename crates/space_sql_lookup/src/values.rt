//! Single values of the rows of a result.
ghost use Rattle.std.specs.Prelude.{◌≡◌, ◌<◌, ◌^◌, ℕ, ℤ, [], ◌∷◌, map, Some, None, IfOk};
ghost use Rattle.sqlite_value.specs.declared.value.Value.TheVariants.{Text};
ghost use Rattle.entity_core.specs.EntityId.{printed};
ghost use Rattle.space_sql_select.specs.Rows.{number_values};

use entity_core::entity_id::EntityId;
use space_sql_select::rows::number_rows;
use sqlite::{Error, Row};
use std::alloc::Global;

/// Returns the number in the only row, if there is one.
pub(crate) fn number_among(rows: &[Row]) -> Result<Option<i64>, Error>
    ensures none { IfOk result (λ o. rows.now ≡ [] → o ≡ None) }
    ensures one { IfOk result (λ o. (n : ℤ) → rows.now ≡ number_values n ∷ [] → o ≡ Some n) }
{
    let Some(row) = rows.first() else {
        return Ok(None);
    };
    let number: i64 = row.get(0)?;
    Ok(Some(number))
}

/// Returns the id in the only row.
pub(crate) fn id_among(rows: &[Row]) -> Result<EntityId, Error>
    ensures { IfOk result (λ id. (n : ℕ) → n < 2 ^ 128
        → rows.now ≡ (Text (printed n) ∷ []) ∷ [] → id ≡ n) }
{
    let Some(row) = rows.first() else {
        return Err(Error::QueryReturnedNoRows);
    };
    let letters: String = row.get(0)?;
    match EntityId::read(letters.as_str()) {
        Ok(id) => Ok(id),
        Err(_) => Err(Error::QueryReturnedNoRows),
    }
}

/// Returns the numbers in the rows.
pub(crate) fn numbers_of(alloc: Global, rows: &[Row]) -> Result<Vec<i64>, Error>
    ensures { IfOk result (λ found. rows.now ≡ map number_values found.items) }
{
    match number_rows(alloc, rows)? {
        Some(numbers) => Ok(numbers),
        None => Err(Error::QueryReturnedNoRows),
    }
}
