//! Laws of entries. Each is the contract of a function that does nothing.
ghost use Rattle.pool_entry.specs.Laws.{GivesItsOperation, MakesWritersCall, NoEntryIsNoActs, OneBatch, OneCallFits, OnePurge, PurgeFits, WrittenIsRead};
ghost use Rattle.pool_entry.specs.Suppliers.{CallersAreSuppliers};

/// States that no bytes represent two batches.
pub fn one_batch()
    ensures { OneBatch }
{}

/// States that no bytes represent two purges, or a purge and a batch.
pub fn one_purge()
    ensures { OnePurge }
{}

/// States that the bytes of a batch represent its calls, and those of a purge represent it.
pub fn written_is_read()
    ensures { WrittenIsRead }
{}

/// States that bytes that represent neither a batch nor a purge represent no acts.
pub fn no_entry_is_no_acts()
    ensures { NoEntryIsNoActs }
{}

/// States that path, method and body of a request give the operation of its call.
pub fn gives_its_operation()
    ensures { GivesItsOperation }
{}

/// States that every instance makes the call that the writer's request makes.
pub fn makes_writers_call()
    ensures { MakesWritersCall }
{}

/// States that the caller of each call of an entry is one of the USSs of the entry.
pub fn callers_are_suppliers()
    ensures { CallersAreSuppliers }
{}

/// States that the call of each request fits in an entry, and so does each purge.
pub fn one_call_fits()
    ensures call { OneCallFits }
    ensures purge { PurgeFits }
{}
