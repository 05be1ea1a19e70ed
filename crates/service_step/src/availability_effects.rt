//! Effects of the operations on availabilities.
ghost use Rattle.std.specs.Prelude.{IfOk, unwrap_or, []};
ghost use Rattle.entity_core.specs.Ovn.{ovn_text};
ghost use Rattle.service_step.specs.Looks.{IsReading, NotifiesNobody};

use crate::prepared::Prepared;
use crate::reply::Answer;
use entity_core::availability::Availability;
use entity_core::ovn::{Ovn, ovn_of};
use entity_core::salt::Salt;
use entity_core::serial::Serial;
use entity_core::text::Text;
use entity_core::uss_id::UssId;
use space_core::space::Change;
use std::alloc::{AllocError, Global};

/// Prepares the change of an availability, and its answer.
pub fn prepare_set_availability(
    alloc: Global,
    salt: &Salt,
    serial: Serial,
    uss: &UssId,
    availability: Availability,
) -> Result<Prepared, AllocError>
    ensures { IfOk result (NotifiesNobody
        (Change.Avail uss.now availability (ovn_text salt.now serial))
        (Answer.Avail uss.now availability (ovn_text salt.now serial))) }
{
    let version = ovn_of(alloc, salt, serial.number())?;
    let shown = version.clone()?.into_text();
    let change = Change::Avail(uss.clone()?, availability, version);
    Ok(Prepared::without_notices(
        alloc,
        change,
        Answer::Avail(uss.clone()?, availability, shown),
    ))
}

/// Prepares the answer with the availability of a USS.
pub fn prepare_read_availability(
    alloc: Global,
    uss: &UssId,
    stated: &Option<(Availability, Ovn)>,
) -> Result<Prepared, AllocError>
    ensures { IfOk result (IsReading (Answer.Avail uss.now
        (unwrap_or stated.now (Availability.Unknown, [])).0
        (unwrap_or stated.now (Availability.Unknown, [])).1)) }
{
    let uss = uss.clone()?;
    match stated {
        Some((availability, version)) => {
            let shown = version.clone()?.into_text();
            Ok(Prepared::read_only(alloc, Answer::Avail(uss, *availability, shown)))
        }
        None => Ok(Prepared::read_only(
            alloc,
            Answer::Avail(uss, Availability::Unknown, Text::empty(alloc)),
        )),
    }
}
