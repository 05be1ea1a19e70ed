//! Setting the availability of a USS.
ghost use Rattle.std.specs.Prelude.{◌≡◌, []};
ghost use Rattle.space_core.specs.declared.space.Change.TheVariants.{Avail};
ghost use Rattle.space_sql_schema.specs.Spelling.{IsStated, availability_number};
ghost use Rattle.space_sql_schema.specs.Within.{SameConnection, Within};
ghost use Rattle.space_sql_write.specs.Layout.{Always, Relays, ReplacesAvailability, with_availability_row, without_availability_row};
ghost use Rattle.space_sql_write.specs.Statements.{Runs, MakesChange};

use crate::serial::raise_serial;
use entity_core::availability::Availability;
use entity_core::ovn::Ovn;
use entity_core::uss_id::UssId;
use sqlite::{Alter, Error, Transaction, params};

/// Returns the number of an availability in the table `availability`.
pub fn availability_number(availability: Availability) -> i64
    ensures { result ≡ availability_number availability }
{
    match availability {
        Availability::Unknown => 0,
        Availability::Normal => 1,
        Availability::Down => 2,
    }
}

fn clear_availability<S: Alter>(tx: &mut Transaction<'_, S>, uss: &UssId) -> Result<usize, Error>
    ensures same_reference { SameConnection tx.old tx.new }
    ensures clears { Within S.Store tx.old tx.new
        (Runs (λ _. Relays Always (without_availability_row uss.now))) result }
{
    tx.execute(
        "DELETE FROM availability WHERE uss = ?1",
        params![uss.text()],
    )
}

fn insert_availability<S: Alter>(
    tx: &mut Transaction<'_, S>,
    uss: &UssId,
    availability: Availability,
    version: &Ovn,
) -> Result<usize, Error>
    ensures same_reference { SameConnection tx.old tx.new }
    ensures stated { IsStated (uss.now, (availability, version.now)) }
    ensures inserts { Within S.Store tx.old tx.new
        (Runs (λ _. Relays Always (with_availability_row uss.now (availability, version.now))))
        result }
{
    tx.execute(
        "INSERT INTO availability (uss, state, version) VALUES (?1, ?2, ?3)",
        params![
            uss.text(),
            availability_number(availability),
            version.text()
        ],
    )
}

fn replace_availability<S: Alter>(
    tx: &mut Transaction<'_, S>,
    uss: &UssId,
    availability: Availability,
    version: &Ovn,
) -> Result<(), Error>
    ensures same_reference { SameConnection tx.old tx.new }
    ensures replaces { Within S.Store tx.old tx.new
        (Runs (λ _. ReplacesAvailability uss.now (availability, version.now))) result }
{
    clear_availability(tx, uss)?;
    insert_availability(tx, uss, availability, version)?;
    Ok(())
}

/// Sets the availability of a USS under a version.
pub fn set_availability<S: Alter>(
    tx: &mut Transaction<'_, S>,
    uss: &UssId,
    availability: Availability,
    version: &Ovn,
) -> Result<(), Error>
    ensures same_reference { SameConnection tx.old tx.new }
    ensures changes { Within S.Store tx.old tx.new
        (Runs (λ _. MakesChange (Avail uss.now availability version.now) [])) result }
{
    replace_availability(tx, uss, availability, version)?;
    raise_serial(tx)?;
    Ok(())
}
