//! Equality of two lists, element by element.
ghost use Rattle.std.specs.Prelude.{◌≡◌, IsTrue};

use sqlite_items::Items;
use sqlite_value::value::Bytes;

/// A value that can be tested for equality.
pub(crate) trait Same {
    /// Returns true only if the two are equal. It can return false for equal values.
    fn same(&self, other: &Self) -> bool
        ensures { IsTrue result → self.now ≡ other.now };
}

fn all_same<T: Same>(a: &[T], b: &[T]) -> bool
    ensures { IsTrue result → a.now ≡ b.now }
{
    if a.len() != b.len() {
        return false;
    }
    for i in 0..a.len() {
        if !a[i].same(&b[i]) {
            return false;
        }
    }
    true
}

impl<T: Same> Same for Items<T> {
    fn same(&self, other: &Self) -> bool {
        all_same(self.as_slice(), other.as_slice())
    }
}

impl Same for u8 {
    fn same(&self, other: &Self) -> bool {
        *self == *other
    }
}

impl Same for usize {
    fn same(&self, other: &Self) -> bool {
        *self == *other
    }
}

impl Same for Bytes {
    fn same(&self, other: &Self) -> bool {
        all_same(self.as_slice(), other.as_slice())
    }
}
