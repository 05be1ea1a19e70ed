//! Equality of schemas.
ghost use Rattle.std.specs.Prelude.{◌≡◌, IsTrue};

mod code;
mod lists;

use crate::schema::code::{same_collation, same_value};
use crate::schema::lists::Same;
use sqlite_schema::schema::{Action, Column, Index, Kind, Reference, Schema, Stamps, Table};

fn same_kind(a: Kind, b: Kind) -> bool
    ensures { IsTrue result → a ≡ b }
{
    match (a, b) {
        (Kind::Integer, Kind::Integer) => true,
        (Kind::Text, Kind::Text) => true,
        _ => false,
    }
}

fn same_action(a: Action, b: Action) -> bool
    ensures { IsTrue result → a ≡ b }
{
    match (a, b) {
        (Action::NoAction, Action::NoAction) => true,
        (Action::Restrict, Action::Restrict) => true,
        (Action::Cascade, Action::Cascade) => true,
        _ => false,
    }
}

fn same_key(a: Option<usize>, b: Option<usize>) -> bool
    ensures { IsTrue result → a ≡ b }
{
    match (a, b) {
        (None, None) => true,
        (Some(x), Some(y)) => x == y,
        _ => false,
    }
}

impl Same for Column {
    fn same(&self, other: &Self) -> bool {
        self.name.same(&other.name)
            && same_kind(self.kind, other.kind)
            && self.is_strict == other.is_strict
            && self.not_null == other.not_null
            && same_value(&self.default, &other.default)
            && same_collation(self.collation, other.collation)
    }
}

impl Same for Reference {
    fn same(&self, other: &Self) -> bool {
        self.columns.same(&other.columns)
            && self.parent.same(&other.parent)
            && self.parent_columns.same(&other.parent_columns)
            && same_action(self.on_delete, other.on_delete)
            && same_action(self.on_update, other.on_update)
            && self.is_deferred == other.is_deferred
    }
}

impl Same for Stamps {
    fn same(&self, other: &Self) -> bool {
        self.places.same(&other.places)
            && self.terms.same(&other.terms)
            && self.formats.same(&other.formats)
    }
}

impl Same for sqlite_value::keys::Order {
    fn same(&self, other: &Self) -> bool {
        self.digits == other.digits
    }
}

impl Same for Table {
    fn same(&self, other: &Self) -> bool {
        self.name.same(&other.name)
            && self.tree == other.tree
            && self.columns.same(&other.columns)
            && same_key(self.key, other.key)
            && self.primary.same(&other.primary)
            && self.uniques.same(&other.uniques)
            && self.orders.same(&other.orders)
            && self.checks.same(&other.checks)
            && self.references.same(&other.references)
            && self.computed.same(&other.computed)
            && self.stamps.same(&other.stamps)
            && self.is_counted == other.is_counted
    }
}

impl Same for Index {
    fn same(&self, other: &Self) -> bool {
        self.name.same(&other.name)
            && self.tree == other.tree
            && self.table == other.table
            && self.columns.same(&other.columns)
            && self.order.same(&other.order)
            && self.is_unique == other.is_unique
    }
}

/// Returns true only if the two schemas are equal and have no view. It can return false for equal
/// schemas.
pub(crate) fn same_schema(a: &Schema, b: &Schema) -> bool
    ensures { IsTrue result → a.now ≡ b.now }
{
    a.tables.same(&b.tables)
        && a.indexes.same(&b.indexes)
        && a.views.is_empty()
        && b.views.is_empty()
}
