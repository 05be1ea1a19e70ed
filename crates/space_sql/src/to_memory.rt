//! Loading of a space over tables into one in memory.
ghost use Rattle.std.specs.Prelude.{◌≡◌, IfErr, IfOk};
ghost use Rattle.space_core.specs.declared.space.SpaceFault.TheVariants.{Unchanged};
ghost use Rattle.space_memory.specs.Memory.{content_of};
ghost use Rattle.space_sql_load.specs.Checking.{loaded_airspace};

use crate::answers::note;
use crate::space::SqlSpace;
use space_core::space::SpaceFault;
use space_memory::memory::MemorySpace;
use space_memory::to_memory::ToMemory;
use space_sql_load::table_check::LoadedAirspace;
use sqlite::Alter;
use std::alloc::Global;

// Returns the loaded airspace as a space in memory, unless memory runs out.
fn indexed(alloc: Global, listed: LoadedAirspace) -> Result<MemorySpace, SpaceFault>
    ensures content { IfOk result (λ list. content_of list ≡ loaded_airspace listed) }
    ensures fault { IfErr result (λ fault. fault ≡ Unchanged) }
{
    let LoadedAirspace {
        entities,
        subscriptions,
        availabilities,
        serial,
    } = listed;
    match MemorySpace::from_parts(alloc, entities, subscriptions, availabilities, serial) {
        Ok(list) => Ok(list),
        Err(_) => Err(SpaceFault::Unchanged),
    }
}

impl<S: Alter> ToMemory for SqlSpace<S> {
    fn to_memory(&mut self, alloc: Global) -> Result<MemorySpace, SpaceFault> {
        match self.load_airspace() {
            Ok(listed) => {
                let answer = indexed(alloc, listed);
                note(&mut self.refusals, &mut self.broken, &answer);
                answer
            }
            Err(fault) => Err(fault),
        }
    }
}
