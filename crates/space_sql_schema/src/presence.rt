//! The presence of the tables of the formats in a database.
ghost use Rattle.std.specs.Prelude.{◌≡◌, ◌&&◌, ◌==◌, codes, length};
ghost use Rattle.std.specs.List.{list_any};
ghost use Rattle.sqlite_schema.specs.Names.{same_name};
ghost use Rattle.space_sql_schema.specs.Tables.{no_schema, first_schema, unindexed_schema, second_schema, old_first_schema, old_unindexed_schema, old_second_schema, schema_of, later_tables, meta, entity, volume, cell, availability, subscription, subscription_cell, naming};
ghost use Rattle.space_sql_schema.specs.Trees.{meta_tree, entity_tree, volume_tree, cell_tree, availability_tree, subscription_tree, subscription_cell_tree, naming_tree};
ghost use Rattle.space_sql_schema.specs.declared.format.Format.TheVariants.{One, TwoUnindexed, Two, OldOne, OldTwoUnindexed, OldTwo};
ghost use Rattle.space_sql_schema.specs.Presence.{is_named, has_column, stands_for, has_all, has_some, has_naming_index, presence_among, is_in_place, are_in_place, is_like, are_ours, is_alone, is_front_in_place, is_out_of_place, in_old_order, in_order, presence_in};

use crate::format::Format;
use sqlite_schema::names::same_name;
use sqlite_schema::schema::{Column, Index, Schema, Table};

/// The presence of the tables of the formats in a database.
#[derive(Clone, Copy, Debug, PartialEq, Eq)]
pub enum Presence {
    /// No table of the formats exists.
    Missing,
    /// Some tables exist, but others or some of their columns do not.
    Partial,
    /// All tables of a format exist, with their columns. For format 1, none of the later tables
    /// exists. For format 2, the index on `naming` is looked for by its name. The old order is
    /// found only if nothing else exists.
    Whole(Format),
}

fn is_named(table: &Table, name: &[u8]) -> bool
    ensures { result ≡ is_named name.now table.now }
{
    same_name(table.name.as_slice(), name)
}

fn is_column(column: &Column, name: &[u8]) -> bool
    ensures { result ≡ same_name column.now.name name.now }
{
    same_name(column.name.as_slice(), name)
}

fn has_column(table: &Table, name: &[u8]) -> bool
    ensures { result ≡ has_column name.now table.now }
{
    table.columns.as_slice().iter().any(|c| is_column(c, name))
}

// Returns true if the table has this name and this tree.
fn is_at(table: &Table, name: &[u8], tree: u32) -> bool
    ensures { result ≡ (is_named name.now table.now && (table.now.tree == tree)) }
{
    is_named(table, name) && table.tree == tree
}

// Returns true if the table has this name and this number of columns.
fn is_wide(table: &Table, name: &[u8], columns: usize) -> bool
    ensures { result ≡ (is_named name.now table.now && (length table.now.columns == columns)) }
{
    is_named(table, name) && table.columns.len() == columns
}

fn is_meta(table: &Table) -> bool
    ensures { result ≡ stands_for (meta meta_tree) table.now }
{
    is_named(table, b"meta")
        && (has_column(table, b"one")
            && (has_column(table, b"format") && has_column(table, b"serial")))
}

fn is_entity(table: &Table) -> bool
    ensures { result ≡ stands_for (entity entity_tree) table.now }
{
    is_named(table, b"entity")
        && (has_column(table, b"num")
            && (has_column(table, b"kind")
                && (has_column(table, b"id")
                    && (has_column(table, b"manager")
                        && (has_column(table, b"state")
                            && (has_column(table, b"version")
                                && (has_column(table, b"serial")
                                    && (has_column(table, b"ovn")
                                        && has_column(table, b"url")))))))))
}

fn is_volume(table: &Table) -> bool
    ensures { result ≡ stands_for (volume volume_tree) table.now }
{
    is_named(table, b"volume")
        && (has_column(table, b"entity")
            && (has_column(table, b"place")
                && (has_column(table, b"alt_lower")
                    && (has_column(table, b"alt_upper")
                        && (has_column(table, b"time_start") && has_column(table, b"time_end"))))))
}

fn is_cell(table: &Table) -> bool
    ensures { result ≡ stands_for (cell cell_tree) table.now }
{
    is_named(table, b"cell")
        && (has_column(table, b"entity")
            && (has_column(table, b"volume")
                && (has_column(table, b"place")
                    && (has_column(table, b"token")
                        && (has_column(table, b"lo") && has_column(table, b"hi"))))))
}

fn is_availability(table: &Table) -> bool
    ensures { result ≡ stands_for (availability availability_tree) table.now }
{
    is_named(table, b"availability")
        && (has_column(table, b"uss")
            && (has_column(table, b"state") && has_column(table, b"version")))
}

fn is_subscription(table: &Table) -> bool
    ensures { result ≡ stands_for (subscription subscription_tree) table.now }
{
    is_named(table, b"subscription")
        && (has_column(table, b"num")
            && (has_column(table, b"id")
                && (has_column(table, b"manager")
                    && (has_column(table, b"serial")
                        && (has_column(table, b"version")
                            && (has_column(table, b"notes")
                                && (has_column(table, b"url")
                                    && (has_column(table, b"for_intents")
                                        && (has_column(table, b"for_constraints")
                                            && (has_column(table, b"alt_lower")
                                                && (has_column(table, b"alt_upper")
                                                    && (has_column(table, b"time_start")
                                                        && has_column(
                                                            table,
                                                            b"time_end",
                                                        )))))))))))))
}

fn is_subscription_cell(table: &Table) -> bool
    ensures { result ≡ stands_for (subscription_cell subscription_cell_tree) table.now }
{
    is_named(table, b"subscription_cell")
        && (has_column(table, b"subscription")
            && (has_column(table, b"place")
                && (has_column(table, b"token")
                    && (has_column(table, b"lo") && has_column(table, b"hi")))))
}

fn is_naming(table: &Table) -> bool
    ensures { result ≡ stands_for (naming naming_tree) table.now }
{
    is_named(table, b"naming")
        && (has_column(table, b"entity") && has_column(table, b"subscription"))
}

fn is_later(table: &Table) -> bool
    ensures { result ≡ list_any (λ own. is_named own.name table.now) later_tables }
{
    is_named(table, b"subscription")
        || (is_named(table, b"subscription_cell") || is_named(table, b"naming"))
}

fn is_ours(table: &Table) -> bool
    ensures { result ≡ list_any (λ own. is_named own.name table.now) second_schema.tables }
{
    is_named(table, b"meta")
        || (is_named(table, b"entity")
            || (is_named(table, b"volume")
                || (is_named(table, b"cell")
                    || (is_named(table, b"availability") || is_later(table)))))
}

fn any_meta(tables: &[Table]) -> bool
    ensures { result ≡ list_any (stands_for (meta meta_tree)) tables.now }
{
    tables.iter().any(|t| is_meta(t))
}

fn any_entity(tables: &[Table]) -> bool
    ensures { result ≡ list_any (stands_for (entity entity_tree)) tables.now }
{
    tables.iter().any(|t| is_entity(t))
}

fn any_volume(tables: &[Table]) -> bool
    ensures { result ≡ list_any (stands_for (volume volume_tree)) tables.now }
{
    tables.iter().any(|t| is_volume(t))
}

fn any_cell(tables: &[Table]) -> bool
    ensures { result ≡ list_any (stands_for (cell cell_tree)) tables.now }
{
    tables.iter().any(|t| is_cell(t))
}

fn any_availability(tables: &[Table]) -> bool
    ensures { result ≡ list_any (stands_for (availability availability_tree)) tables.now }
{
    tables.iter().any(|t| is_availability(t))
}

fn any_subscription(tables: &[Table]) -> bool
    ensures { result ≡ list_any (stands_for (subscription subscription_tree)) tables.now }
{
    tables.iter().any(|t| is_subscription(t))
}

fn any_subscription_cell(tables: &[Table]) -> bool
    ensures { result ≡ list_any (stands_for (subscription_cell subscription_cell_tree)) tables.now }
{
    tables.iter().any(|t| is_subscription_cell(t))
}

fn any_naming(tables: &[Table]) -> bool
    ensures { result ≡ list_any (stands_for (naming naming_tree)) tables.now }
{
    tables.iter().any(|t| is_naming(t))
}

fn has_all(tables: &[Table]) -> bool
    ensures { result ≡ has_all first_schema.tables tables.now }
{
    any_meta(tables)
        && (any_entity(tables)
            && (any_volume(tables) && (any_cell(tables) && any_availability(tables))))
}

fn has_all_later(tables: &[Table]) -> bool
    ensures { result ≡ has_all later_tables tables.now }
{
    any_subscription(tables) && (any_subscription_cell(tables) && any_naming(tables))
}

fn has_some(tables: &[Table]) -> bool
    ensures { result ≡ has_some second_schema.tables tables.now }
{
    tables.iter().any(|t| is_ours(t))
}

fn has_some_later(tables: &[Table]) -> bool
    ensures { result ≡ has_some later_tables tables.now }
{
    tables.iter().any(|t| is_later(t))
}

fn is_naming_index(index: &Index) -> bool
    ensures { result ≡ same_name index.now.name (codes "naming_subscription") }
{
    same_name(index.name.as_slice(), b"naming_subscription")
}

fn has_naming_index(indexes: &[Index]) -> bool
    ensures { result ≡ has_naming_index indexes.now }
{
    indexes.iter().any(|i| is_naming_index(i))
}

fn presence_among(tables: &[Table], indexes: &[Index]) -> Presence
    ensures { result ≡ presence_among tables.now indexes.now }
{
    if has_all(tables) {
        if has_all_later(tables) {
            if has_naming_index(indexes) {
                Presence::Whole(Format::Two)
            } else {
                Presence::Whole(Format::TwoUnindexed)
            }
        } else if has_some_later(tables) {
            Presence::Partial
        } else {
            Presence::Whole(Format::One)
        }
    } else if has_some(tables) {
        Presence::Partial
    } else {
        Presence::Missing
    }
}

fn is_in_place(table: &Table) -> bool
    ensures { result ≡ list_any (λ own. is_in_place own table.now) second_schema.tables }
{
    is_at(table, b"meta", 0)
        || (is_at(table, b"entity", 1)
            || (is_at(table, b"volume", 3)
                || (is_at(table, b"cell", 5)
                    || (is_at(table, b"availability", 7)
                        || (is_at(table, b"subscription", 9)
                            || (is_at(table, b"subscription_cell", 11)
                                || is_at(table, b"naming", 13)))))))
}

fn are_in_place(tables: &[Table]) -> bool
    ensures { result ≡ are_in_place tables.now }
{
    tables.iter().all(|t| is_in_place(t))
}

fn is_like(table: &Table) -> bool
    ensures { result ≡ list_any (λ own. is_like own table.now) second_schema.tables }
{
    is_wide(table, b"meta", 3)
        || (is_wide(table, b"entity", 9)
            || (is_wide(table, b"volume", 6)
                || (is_wide(table, b"cell", 6)
                    || (is_wide(table, b"availability", 3)
                        || (is_wide(table, b"subscription", 13)
                            || (is_wide(table, b"subscription_cell", 5)
                                || is_wide(table, b"naming", 2)))))))
}

fn are_ours(tables: &[Table]) -> bool
    ensures { result ≡ are_ours tables.now }
{
    tables.iter().all(|t| is_like(t))
}

fn index_count(format: Format) -> usize
    ensures { result ≡ length (schema_of format).indexes }
{
    match format {
        Format::One | Format::OldOne => 5,
        Format::TwoUnindexed | Format::OldTwoUnindexed => 8,
        Format::Two | Format::OldTwo => 9,
    }
}

// Returns true if there is nothing beside the tables and indexes of the format, by their number.
fn is_alone(format: Format, schema: &Schema) -> bool
    ensures { result ≡ is_alone format schema.now }
{
    are_ours(schema.tables.as_slice())
        && (schema.indexes.len() == index_count(format) && schema.views.len() == 0)
}

fn any_at(tables: &[Table], name: &[u8], tree: u32) -> bool
    ensures { let named = name.now in
        result ≡ list_any (λ table. is_named named table && (table.tree == tree)) tables.now }
{
    tables.iter().any(|t| is_at(t, name, tree))
}

fn is_front_in_place(tables: &[Table]) -> bool
    ensures { result ≡ is_front_in_place tables.now }
{
    any_at(tables, b"meta", 0)
        && (any_at(tables, b"entity", 1)
            && (any_at(tables, b"volume", 3) && any_at(tables, b"cell", 5)))
}

// Returns true if tables after `cell` are out of their place, and get it if they are created anew.
// Beside other tables or after others, they would not.
fn is_out_of_place(format: Format, schema: &Schema) -> bool
    ensures { result ≡ is_out_of_place format schema.now }
{
    let tables = schema.tables.as_slice();
    is_alone(format, schema) && (is_front_in_place(tables) && !are_in_place(tables))
}

fn in_old_order(format: Format) -> Format
    ensures { result ≡ in_old_order format }
{
    match format {
        Format::One | Format::OldOne => Format::OldOne,
        Format::TwoUnindexed | Format::OldTwoUnindexed => Format::OldTwoUnindexed,
        Format::Two | Format::OldTwo => Format::OldTwo,
    }
}

fn in_order(schema: &Schema, presence: Presence) -> Presence
    ensures { result ≡ in_order schema.now presence }
{
    match presence {
        Presence::Missing => Presence::Missing,
        Presence::Partial => Presence::Partial,
        Presence::Whole(format) => {
            if is_out_of_place(format, schema) {
                Presence::Whole(in_old_order(format))
            } else {
                Presence::Whole(format)
            }
        }
    }
}

/// Returns the presence of the tables of the formats in a schema.
///
/// It ignores further tables, columns, constraints and indexes. Only without them, it tells whether
/// the tables are in the old order. It allocates nothing.
pub fn presence_of(schema: &Schema) -> Presence
    ensures exact { result ≡ presence_in schema.now }
    ensures missing { schema.now ≡ no_schema → result ≡ Presence.Missing }
    ensures first { schema.now ≡ first_schema → result ≡ Presence.Whole One }
    ensures unindexed { schema.now ≡ unindexed_schema → result ≡ Presence.Whole TwoUnindexed }
    ensures second { schema.now ≡ second_schema → result ≡ Presence.Whole Two }
    ensures old_first { schema.now ≡ old_first_schema → result ≡ Presence.Whole OldOne }
    ensures old_unindexed { schema.now ≡ old_unindexed_schema
        → result ≡ Presence.Whole OldTwoUnindexed }
    ensures old_second { schema.now ≡ old_second_schema → result ≡ Presence.Whole OldTwo }
{
    let tables = schema.tables.as_slice();
    let indexes = schema.indexes.as_slice();
    in_order(schema, presence_among(tables, indexes))
}

/// Returns true if a schema has the table `meta` with its columns. It allocates nothing.
pub fn has_meta(schema: &Schema) -> bool
    ensures { result ≡ list_any (stands_for (meta meta_tree)) schema.now.tables }
{
    any_meta(schema.tables.as_slice())
}
