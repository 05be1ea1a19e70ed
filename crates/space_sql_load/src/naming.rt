//! The subscription to which the rows of `naming` of an entity refer.
ghost use Rattle.std.specs.Prelude.{◌≡◌, ◌≤◌, length, take, drop, IfOk, IfErr};
ghost use Rattle.std.specs.List.{AllByRecursion};
ghost use Rattle.std.specs.List.Sorted.{IsBinarySearchResult, IsSearchInRange};
ghost use Rattle.std.specs.Ordering.{int_cmp};
ghost use Rattle.entity_maps.specs.Sorted.{Gap, Hit, Rise};
ghost use Rattle.space_rows.specs.Finds.{Finds};
ghost use Rattle.space_sql_select.specs.declared.sub_rows.NamingRow.{NamingRow};
ghost use Rattle.space_sql_load.specs.Gathering.{NamesBy, StartsElse, id_in, number_pair};

use entity_core::entity_id::EntityId;
use space_sql_select::sub_rows::NamingRow;

/// The number and the id of a subscription.
#[derive(Clone, Copy, Debug)]
pub struct Numbered {
    pub num: i64,
    pub id: EntityId,
}

fn search_numbers(numbers: &[Numbered], num: i64) -> Result<usize, usize>
    ensures bound { IsSearchInRange result (length numbers.now) }
    ensures position { IsBinarySearchResult (λ n. int_cmp n.num num) numbers.now result }
{
    numbers.binary_search_by(|numbered| numbered.num.cmp(&num))
}

fn id_of(numbers: &[Numbered], num: i64) -> Option<EntityId>
    requires { Rise int_cmp number_pair numbers.now }
    ensures { result ≡ id_in numbers.now num }
{
    match search_numbers(numbers, num) {
        Ok(i) => Some(numbers[i].id),
        Err(_) => None,
    }
}

/// Returns the number of rows at the front that belong to an entity.
pub(crate) fn naming_count(rows: &[NamingRow], num: i64) -> usize
    ensures most { result ≤ length rows.now }
    ensures these { AllByRecursion (λ (r : NamingRow). r.entity ≡ num) (take result rows.now) }
    ensures others { StartsElse (λ (r : NamingRow). r.entity ≡ num) (drop result rows.now) }
{
    for (i, row) in rows.iter().enumerate() {
        if row.entity != num {
            return i;
        }
    }
    rows.len()
}

/// Returns what an entity references by its rows: the id of a subscription, or none.
///
/// Returns `None` if the rows are not those of an entity.
pub(crate) fn named_by(
    numbers: &[Numbered],
    num: i64,
    own: &[NamingRow],
) -> Option<Option<EntityId>>
    requires rise { Rise int_cmp number_pair numbers.now }
    requires these { AllByRecursion (λ (r : NamingRow). r.entity ≡ num) own.now }
    ensures { Finds (NamesBy numbers.now num own.now) result }
{
    let Some((first, rest)) = own.split_first() else {
        return Some(None);
    };
    if !rest.is_empty() {
        return None;
    }
    match id_of(numbers, first.subscription) {
        Some(id) => Some(Some(id)),
        None => None,
    }
}
