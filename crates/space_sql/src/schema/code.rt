//! Equality of expressions. It knows the operators that the constraints of a table use:
//! comparisons, AND and OR.
ghost use Rattle.std.specs.Prelude.{◌≡◌, IsTrue};

use crate::schema::lists::Same;
use sqlite_schema::code::{Op, Terms, lend_value};
use sqlite_sql::ops::{BinaryOp, CompareOp};
use sqlite_value::keys::Collation;
use sqlite_value::order::is_same;
use sqlite_value::value::Value;

pub(crate) fn same_value(a: &Value, b: &Value) -> bool
    ensures { IsTrue result → a.now ≡ b.now }
{
    is_same(lend_value(a), lend_value(b))
}

pub(crate) fn same_collation(a: Collation, b: Collation) -> bool
    ensures { IsTrue result → a ≡ b }
{
    match (a, b) {
        (Collation::Binary, Collation::Binary) => true,
        (Collation::NoCase, Collation::NoCase) => true,
        (Collation::RTrim, Collation::RTrim) => true,
        _ => false,
    }
}

fn same_comparison(a: CompareOp, b: CompareOp) -> bool
    ensures { IsTrue result → a ≡ b }
{
    match (a, b) {
        (CompareOp::Eq, CompareOp::Eq) => true,
        (CompareOp::Le, CompareOp::Le) => true,
        (CompareOp::Ge, CompareOp::Ge) => true,
        _ => false,
    }
}

fn same_operator(a: BinaryOp, b: BinaryOp) -> bool
    ensures { IsTrue result → a ≡ b }
{
    match (a, b) {
        (BinaryOp::And, BinaryOp::And) => true,
        (BinaryOp::Or, BinaryOp::Or) => true,
        (BinaryOp::Compare(x, how), BinaryOp::Compare(y, other)) => {
            same_comparison(x, y) && same_collation(how, other)
        }
        _ => false,
    }
}

impl Same for Op {
    fn same(&self, other: &Self) -> bool {
        match (self, other) {
            (Op::Literal(a), Op::Literal(b)) => same_value(a, b),
            (Op::Column(slot, at), Op::Column(other, place)) => *slot == *other && *at == *place,
            (Op::Binary(op, a, b), Op::Binary(by, c, d)) => {
                same_operator(*op, *by) && (*a == *c && *b == *d)
            }
            _ => false,
        }
    }
}

impl Same for Terms {
    fn same(&self, other: &Self) -> bool {
        self.nodes.same(&other.nodes) && self.roots.same(&other.roots)
    }
}
