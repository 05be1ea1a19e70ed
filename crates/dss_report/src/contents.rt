//! The contents of a space that a report needs.
ghost use Rattle.space_core.specs.Calls.{CallReads, CallReportsFault};
ghost use Rattle.dss_report.specs.Reading.{AreContentsOf};

use entity_core::entity::Entity;
use entity_core::nature::Kind;
use space_core::space::{Space, SpaceFault};

/// All entities of a space, and its serial.
#[derive(Drop)]
pub(crate) struct Contents {
    pub(crate) intents: Vec<Entity>,
    pub(crate) constraints: Vec<Entity>,
    pub(crate) serial: u64,
}

/// Reads the contents: each kind by ascending id.
pub(crate) fn read_contents<S: Space>(space: &mut S) -> Result<Contents, SpaceFault>
    ensures tells { CallReportsFault S.Space space.old space.new result }
    ensures reads { CallReads S.Space space.old space.new result AreContentsOf }
{
    let intents = space.all(Kind::Intent)?;
    let constraints = space.all(Kind::Constraint)?;
    let serial = space.serial()?;
    Ok(Contents {
        intents,
        constraints,
        serial,
    })
}
