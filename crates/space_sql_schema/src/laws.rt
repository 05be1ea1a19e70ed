//! Laws of tables, each stated by a function that does nothing.
ghost use Rattle.space_sql_schema.specs.Laws.{OneAirspace};

/// States that the tables represent at most one airspace.
pub fn one_airspace()
    ensures { OneAirspace }
{}
