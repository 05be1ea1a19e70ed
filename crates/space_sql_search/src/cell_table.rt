//! The tables of cells, each with an index on `lo` and `hi`.
ghost use Rattle.std.specs.Prelude.{◌≡◌};
ghost use Rattle.space_sql_search.specs.CellTable.{text_of};

/// The table of cells of entities, or that of subscriptions.
#[derive(Clone, Copy, Debug)]
pub(crate) enum CellTable {
    OfEntities,
    OfSubscriptions,
}

/// The match of a cell with an interval: the cell's interval starts in it, or equals it.
#[derive(Clone, Copy, Debug)]
pub(crate) enum RangeMatch {
    Within,
    Exactly,
}

impl CellTable {
    /// Returns the text of the query for the numbers of items with a matching cell.
    pub fn text(self, range: RangeMatch) -> &'static str
        ensures { result.now ≡ text_of self range }
    {
        match (self, range) {
            (CellTable::OfEntities, RangeMatch::Within) => {
                "SELECT entity FROM cell WHERE lo BETWEEN ?1 AND ?2"
            }
            (CellTable::OfEntities, RangeMatch::Exactly) => {
                "SELECT entity FROM cell WHERE lo = ?1 AND hi = ?2"
            }
            (CellTable::OfSubscriptions, RangeMatch::Within) => {
                "SELECT subscription FROM subscription_cell WHERE lo BETWEEN ?1 AND ?2"
            }
            (CellTable::OfSubscriptions, RangeMatch::Exactly) => {
                "SELECT subscription FROM subscription_cell WHERE lo = ?1 AND hi = ?2"
            }
        }
    }
}
