//! How much a step of a copy may do.

// The maximum number of items that a step compares, and of rows that it writes.
const LOOKS: usize = 2_048;

const ROWS: usize = 32;

// The number of rounds with a change of the airspace after which a step also writes all that
// differs. Each such round doubles the items that a step compares. So the copy ends, however fast
// the airspace changes.
const ROUNDS_OF_ROWS: u32 = 8;

/// What a step may still do.
#[derive(Clone, Copy, Debug)]
pub(crate) struct Budget {
    looks: usize,
    rows: usize,
    // The number of items that were compared.
    looked: usize,
}

// Returns the number of items that a step compares after `rounds` rounds.
fn looks_after(rounds: u32) -> usize {
    let mut looks = LOOKS;
    for _ in 0..rounds.min(usize::BITS) {
        looks = looks.saturating_mul(2);
    }
    looks
}

impl Budget {
    /// Returns the budget of a step after `rounds` rounds with a change of the airspace.
    pub(crate) fn after(rounds: u32) -> Budget {
        Budget {
            looks: looks_after(rounds),
            rows: if rounds < ROUNDS_OF_ROWS {
                ROWS
            } else {
                usize::MAX
            },
            looked: 0,
        }
    }

    /// Returns the number of items that were compared.
    pub(crate) fn looked(&self) -> usize {
        self.looked
    }

    /// Returns true if the step has to end.
    pub(crate) fn is_spent(&self) -> bool {
        self.looks == 0 || self.rows == 0
    }

    /// Charges the comparison of an item.
    pub(crate) fn look(&mut self) {
        self.looks = self.looks.saturating_sub(1);
        self.looked = self.looked.saturating_add(1);
    }

    /// Charges rows that are written.
    pub(crate) fn write(&mut self, rows: usize) {
        self.rows = self.rows.saturating_sub(rows);
    }
}
