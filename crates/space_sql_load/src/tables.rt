//! All rows of all tables, read in one transaction that changes nothing.
ghost use Rattle.std.specs.Prelude.{◌≡◌, false};
ghost use Rattle.sqlite.specs.Held.{state};
ghost use Rattle.space_sql_schema.specs.Within.{SameConnection, Within};
ghost use Rattle.space_sql_select.specs.Reading.{Reads, ReadsAlone};
ghost use Rattle.space_sql_select.specs.Meta.{ShowsMeta};
ghost use Rattle.space_sql_load.specs.Showing.{ShowsSubs, ShowsSubCells, ShowsEntities, ShowsVolumes, ShowsCells, ShowsNamings, ShowsSettings, ShowsVolumeIds, ShowsCellIds, ShowsSettingIds, ShowsSubCellIds, ShowsSubTables, ShowsEntityTables, ShowsRowids, ShowsTables};

use sqlite::{Alter, Connection, Error, Row, Transaction};

/// The rows of the tables that store subscriptions, in ascending order of keys.
#[derive(Drop)]
pub struct SubTables {
    pub subscriptions: Vec<Row>,
    /// The rows of `subscription_cell`.
    pub cells: Vec<Row>,
}

/// The rows of the tables that store entities, in ascending order of keys.
#[derive(Drop)]
pub struct EntityTables {
    pub entities: Vec<Row>,
    pub volumes: Vec<Row>,
    pub cells: Vec<Row>,
    pub namings: Vec<Row>,
}

/// The rowids of the tables whose key is not a number, in ascending order.
#[derive(Drop)]
pub struct Rowids {
    pub volumes: Vec<Row>,
    pub cells: Vec<Row>,
    pub settings: Vec<Row>,
    pub sub_cells: Vec<Row>,
}

/// The rows of all tables.
#[derive(Drop)]
pub struct Tables {
    pub metas: Vec<Row>,
    pub subscriptions: SubTables,
    pub entities: EntityTables,
    /// The rows of `availability`.
    pub settings: Vec<Row>,
    pub rowids: Rowids,
}

fn read_metas<S: Alter>(tx: &mut Transaction<'_, S>) -> Result<Vec<Row>, Error>
    ensures same_reference { SameConnection tx.old tx.new }
    ensures reads { Within S.Store tx.old tx.new
        (Reads (λ db rows. ShowsMeta db rows.items)) result }
{
    tx.query_all("SELECT one, format, serial FROM meta", &[])
}

fn read_entities<S: Alter>(tx: &mut Transaction<'_, S>) -> Result<Vec<Row>, Error>
    ensures same_reference { SameConnection tx.old tx.new }
    ensures reads { Within S.Store tx.old tx.new
        (Reads (λ db rows. ShowsEntities db rows.items)) result }
{
    tx.query_all(
        "SELECT num, kind, id, manager, state, version, serial, ovn, url \
         FROM entity ORDER BY num",
        &[],
    )
}

fn read_volumes<S: Alter>(tx: &mut Transaction<'_, S>) -> Result<Vec<Row>, Error>
    ensures same_reference { SameConnection tx.old tx.new }
    ensures reads { Within S.Store tx.old tx.new
        (Reads (λ db rows. ShowsVolumes db rows.items)) result }
{
    tx.query_all(
        "SELECT entity, place, alt_lower, alt_upper, time_start, time_end \
         FROM volume ORDER BY entity, place",
        &[],
    )
}

fn read_cells<S: Alter>(tx: &mut Transaction<'_, S>) -> Result<Vec<Row>, Error>
    ensures same_reference { SameConnection tx.old tx.new }
    ensures reads { Within S.Store tx.old tx.new
        (Reads (λ db rows. ShowsCells db rows.items)) result }
{
    tx.query_all(
        "SELECT entity, volume, place, token, lo, hi \
         FROM cell ORDER BY entity, volume, place",
        &[],
    )
}

fn read_settings<S: Alter>(tx: &mut Transaction<'_, S>) -> Result<Vec<Row>, Error>
    ensures same_reference { SameConnection tx.old tx.new }
    ensures reads { Within S.Store tx.old tx.new
        (Reads (λ db rows. ShowsSettings db rows.items)) result }
{
    tx.query_all("SELECT uss, state, version FROM availability", &[])
}

fn read_subscriptions<S: Alter>(tx: &mut Transaction<'_, S>) -> Result<Vec<Row>, Error>
    ensures same_reference { SameConnection tx.old tx.new }
    ensures reads { Within S.Store tx.old tx.new
        (Reads (λ db rows. ShowsSubs db rows.items)) result }
{
    tx.query_all(
        "SELECT num, id, manager, serial, version, notes, url, \
         for_intents, for_constraints, alt_lower, alt_upper, time_start, time_end \
         FROM subscription ORDER BY num",
        &[],
    )
}

fn read_sub_cells<S: Alter>(tx: &mut Transaction<'_, S>) -> Result<Vec<Row>, Error>
    ensures same_reference { SameConnection tx.old tx.new }
    ensures reads { Within S.Store tx.old tx.new
        (Reads (λ db rows. ShowsSubCells db rows.items)) result }
{
    tx.query_all(
        "SELECT subscription, place, token, lo, hi \
         FROM subscription_cell ORDER BY subscription, place",
        &[],
    )
}

fn read_namings<S: Alter>(tx: &mut Transaction<'_, S>) -> Result<Vec<Row>, Error>
    ensures same_reference { SameConnection tx.old tx.new }
    ensures reads { Within S.Store tx.old tx.new
        (Reads (λ db rows. ShowsNamings db rows.items)) result }
{
    tx.query_all(
        "SELECT entity, subscription FROM naming ORDER BY entity",
        &[],
    )
}

fn read_volume_ids<S: Alter>(tx: &mut Transaction<'_, S>) -> Result<Vec<Row>, Error>
    ensures same_reference { SameConnection tx.old tx.new }
    ensures reads { Within S.Store tx.old tx.new
        (Reads (λ db rows. ShowsVolumeIds db rows.items)) result }
{
    tx.query_all("SELECT rowid FROM volume ORDER BY rowid", &[])
}

fn read_cell_ids<S: Alter>(tx: &mut Transaction<'_, S>) -> Result<Vec<Row>, Error>
    ensures same_reference { SameConnection tx.old tx.new }
    ensures reads { Within S.Store tx.old tx.new
        (Reads (λ db rows. ShowsCellIds db rows.items)) result }
{
    tx.query_all("SELECT rowid FROM cell ORDER BY rowid", &[])
}

fn read_setting_ids<S: Alter>(tx: &mut Transaction<'_, S>) -> Result<Vec<Row>, Error>
    ensures same_reference { SameConnection tx.old tx.new }
    ensures reads { Within S.Store tx.old tx.new
        (Reads (λ db rows. ShowsSettingIds db rows.items)) result }
{
    tx.query_all("SELECT rowid FROM availability ORDER BY rowid", &[])
}

fn read_sub_cell_ids<S: Alter>(tx: &mut Transaction<'_, S>) -> Result<Vec<Row>, Error>
    ensures same_reference { SameConnection tx.old tx.new }
    ensures reads { Within S.Store tx.old tx.new
        (Reads (λ db rows. ShowsSubCellIds db rows.items)) result }
{
    tx.query_all("SELECT rowid FROM subscription_cell ORDER BY rowid", &[])
}

fn read_sub_tables<S: Alter>(tx: &mut Transaction<'_, S>) -> Result<SubTables, Error>
    ensures same_reference { SameConnection tx.old tx.new }
    ensures reads { Within S.Store tx.old tx.new (Reads ShowsSubTables) result }
{
    Ok(SubTables {
        subscriptions: read_subscriptions(tx)?,
        cells: read_sub_cells(tx)?,
    })
}

fn read_entity_tables<S: Alter>(tx: &mut Transaction<'_, S>) -> Result<EntityTables, Error>
    ensures same_reference { SameConnection tx.old tx.new }
    ensures reads { Within S.Store tx.old tx.new (Reads ShowsEntityTables) result }
{
    Ok(EntityTables {
        entities: read_entities(tx)?,
        volumes: read_volumes(tx)?,
        cells: read_cells(tx)?,
        namings: read_namings(tx)?,
    })
}

fn read_rowids<S: Alter>(tx: &mut Transaction<'_, S>) -> Result<Rowids, Error>
    ensures same_reference { SameConnection tx.old tx.new }
    ensures reads { Within S.Store tx.old tx.new (Reads ShowsRowids) result }
{
    Ok(Rowids {
        volumes: read_volume_ids(tx)?,
        cells: read_cell_ids(tx)?,
        settings: read_setting_ids(tx)?,
        sub_cells: read_sub_cell_ids(tx)?,
    })
}

/// Reads all tables within an open transaction.
pub(crate) fn read_all<S: Alter>(tx: &mut Transaction<'_, S>) -> Result<Tables, Error>
    ensures same_reference { SameConnection tx.old tx.new }
    ensures reads { Within S.Store tx.old tx.new (Reads ShowsTables) result }
{
    Ok(Tables {
        metas: read_metas(tx)?,
        subscriptions: read_sub_tables(tx)?,
        entities: read_entity_tables(tx)?,
        settings: read_settings(tx)?,
        rowids: read_rowids(tx)?,
    })
}

/// Reads all tables, and leaves them unchanged.
pub fn read_tables<S: Alter>(conn: &mut Connection<S>) -> Result<Tables, Error>
    requires { conn.old.in_transaction ≡ false }
    ensures ended { conn.new.in_transaction ≡ false }
    ensures reads { ReadsAlone ShowsTables
        (state S.Store conn.old) (state S.Store conn.new) result }
{
    let mut tx = conn.transaction();
    let tables = read_all(&mut tx)?;
    tx.rollback();
    Ok(tables)
}
