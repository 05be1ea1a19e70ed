//! Drawn numbers.

/// A source of drawn numbers. The same seed gives the same numbers.
#[derive(Clone, Copy, Debug)]
pub(crate) struct Draws {
    state: u64,
}

impl Draws {
    /// Creates a source with this seed.
    pub(crate) fn new(seed: u64) -> Draws {
        Draws { state: seed }
    }

    /// Returns the next number, by SplitMix64.
    pub(crate) fn number(&mut self) -> u64 {
        self.state = self.state.wrapping_add(0x9e37_79b9_7f4a_7c15);
        let first = self.state;
        let second = (first ^ (first >> 30)).wrapping_mul(0xbf58_476d_1ce4_e5b9);
        let third = (second ^ (second >> 27)).wrapping_mul(0x94d0_49bb_1331_11eb);
        third ^ (third >> 31)
    }

    /// Returns a number below `most`, or 0 if that is 0.
    pub(crate) fn below(&mut self, most: u64) -> u64 {
        if most == 0 {
            return 0;
        }
        self.number() % most
    }

    /// Returns a number from 1 to `most`, or 1 if that is 0.
    pub(crate) fn up_to(&mut self, most: usize) -> usize {
        let drawn = self.below(most as u64) as usize;
        drawn.saturating_add(1)
    }

    /// Returns true in so many of a hundred cases.
    pub(crate) fn chance(&mut self, percent: u64) -> bool {
        self.below(100) < percent
    }

    /// Returns another source, whose numbers do not depend on how many are taken from this one.
    pub(crate) fn split(&mut self) -> Draws {
        Draws::new(self.number())
    }
}
