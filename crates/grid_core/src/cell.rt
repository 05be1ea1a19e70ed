//! Cells of the grid: the cell ids of S2 Geometry.

ghost use Rattle.std.specs.Prelude.{◌≡◌, ◌≢◌, ◌↔◌, ℕ, ◌+◌, ◌-◌, ◌^◌, ◌≤◌, ◌<◌, length, slice_index, IsTrue, IfSome, IfNone};
ghost use Rattle.grid_core.specs.Cell.{Cell, IsCell, number_of, range_min, range_max, lo_of, hi_of, parent_of, child_of, Contains, Touch};

use std::marker::Model;

/// A cell of the grid: a face from 0 to 5 and at most 30 digits from 0 to 3, one for each level
/// below the face.
///
/// It is stored as its number, a cell id of S2 Geometry. Contracts see the face and the digits.
#[derive(Clone, Copy, Debug)]
pub struct CellId {
    raw: u64,
}

impl Model for CellId {
    ghost use Rattle.grid_core.specs.Cell.{Cell, number_of};
    ghost use Rattle.grid_core.specs.CellNumber.{cell_of, IsNumber};
    ghost use Rattle.grid_core.specs.CellNumberLaw.{number-cell_of};
    ghost use Rattle.std.proofs.Common.{ap};

    ghost Value = { Cell };

    ghost view = { λ a. cell_of a.raw };

    ghost invariant = { λ a. IsNumber a.raw };

    ghost inverse = { λ c. record { raw = number_of c } };

    ghost inverse_ok = { λ a h. ap (λ (n : _). record { raw = n }) (number-cell_of a.raw h) };
}

impl CellId {
    /// Returns the cell with this number.
    ///
    /// The number has the face in its top three bits, two bits for each digit, a single 1 bit, and
    /// zeros (S2 Geometry). Returns `None` if it is the number of no cell.
    pub fn from_raw(raw: u64) -> Option<CellId>
        ensures number { IfSome result (λ c. number_of c ≡ raw) }
        ensures valid { IfSome result IsCell }
        ensures none { IfNone result ((c : Cell) → IsCell c → number_of c ≢ raw) }
    {
        let place = raw.trailing_zeros();
        if place <= 60 && place % 2 == 0 && raw >> 61 <= 5 {
            Some(CellId { raw })
        } else {
            None
        }
    }

    /// Returns the number of the cell (its S2 cell id).
    pub fn raw(self) -> u64
        ensures number { result ≡ number_of self }
        ensures valid { IsCell self }
    {
        self.raw
    }

    /// Returns the face, from 0 to 5.
    pub fn face(self) -> u8
        ensures face { result ≡ self.face }
        ensures range { result ≤ 5 }
    {
        (self.raw >> 61) as u8
    }

    /// Returns the level: the number of digits, from 0 to 30.
    pub fn level(self) -> u8
        ensures level { result ≡ length self.digits }
        ensures range { result ≤ 30 }
    {
        30 - (self.raw.trailing_zeros() / 2) as u8
    }

    /// Returns the digit of a level, from 0 to 3.
    pub fn digit(self, level: u8) -> u8
        requires first { 1 ≤ level }
        requires last { level ≤ length self.digits }
        ensures digit { result ≡ slice_index self.digits (level - 1) }
        ensures range { result ≤ 3 }
    {
        let _level = self.level();
        ((self.raw >> (61 - 2 * level)) % 4) as u8
    }

    /// Returns the cell at a coarser level that contains this cell, or the cell itself at its own
    /// level.
    pub fn parent(self, level: u8) -> CellId
        requires { level ≤ length self.digits }
        ensures { result ≡ parent_of self level }
    {
        let _level = self.level();
        let place = 60 - 2 * level;
        CellId {
            raw: ((self.raw >> (place + 1)) << (place + 1)) + (1 << place),
        }
    }

    /// Returns the child with this digit, one level below.
    pub fn child(self, digit: u8) -> CellId
        requires level { length self.digits < 30 }
        requires digit { digit ≤ 3 }
        ensures { result ≡ child_of self digit }
    {
        let lowest = self.lowest_one();
        let quarter = lowest / 4;
        CellId {
            raw: (self.raw - lowest) + (2 * u64::from(digit) + 1) * quarter,
        }
    }

    /// Returns true if this cell contains the other: the faces are equal, and its digits are the
    /// first digits of the other.
    pub fn contains(self, other: CellId) -> bool
        ensures { IsTrue result ↔ Contains self other }
    {
        self.level() <= other.level() && other.parent(self.level()).raw() == self.raw()
    }

    /// Returns the lowest 1 bit of the number.
    fn lowest_one(self) -> u64
        ensures size { result ≡ 4 ^ (30 - length self.digits) }
        ensures low { result ≤ number_of self }
        ensures high { number_of self + result ≤ 2 ^ 64 }
        ensures some { 0 < result }
    {
        1 << self.raw.trailing_zeros()
    }

    /// Returns the lowest number of a cell of the finest level inside this cell.
    pub fn range_min(self) -> u64
        ensures { result ≡ range_min self }
    {
        self.raw() - (self.lowest_one() - 1)
    }

    /// Returns the highest number of a cell of the finest level inside this cell.
    pub fn range_max(self) -> u64
        ensures { result ≡ range_max self }
    {
        self.raw() + (self.lowest_one() - 1)
    }

    /// Returns the index of the first level-13 cell inside this cell, among all cells of that level
    /// (this project's profile).
    ///
    /// A finer cell counts as the level-13 cell that contains it.
    pub fn lo(self) -> u32
        ensures { result ≡ lo_of self }
    {
        (self.range_min() >> 35) as u32
    }

    /// Returns the index of the last level-13 cell inside this cell.
    pub fn hi(self) -> u32
        ensures { result ≡ hi_of self }
    {
        (self.range_max() >> 35) as u32
    }

    /// Returns true if the two cells, cut to level 13, are equal or one contains the other.
    ///
    /// This is so exactly if their ranges `lo..=hi` share a number.
    pub fn touches(self, other: CellId) -> bool
        ensures { IsTrue result ↔ Touch self other }
    {
        let _own = self.raw();
        let _others = other.raw();
        self.lo() <= other.hi() && other.lo() <= self.hi()
    }
}
