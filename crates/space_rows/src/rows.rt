//! Rows of the tables that store entities and subscriptions, with one field for each column.

use entity_core::text::Text;

/// A row of the table `entity`.
#[derive(Debug, Drop)]
pub struct EntityRow {
    /// The serial of the entity's creation, by which the other tables refer to the entity.
    pub num: i64,
    /// The kind: 0 for an operational intent, 1 for a constraint.
    pub kind: i64,
    /// The id in lower case.
    pub id: Text,
    pub manager: Text,
    /// The state: 0 Accepted, 1 Activated, 2 Nonconforming, 3 Contingent; 4 for a constraint.
    pub state: i64,
    pub version: i64,
    /// The serial of the entity's last put.
    pub serial: i64,
    pub ovn: Text,
    pub url: Text,
}

/// A row of the table `volume`.
#[derive(Debug, Drop)]
pub struct VolumeRow {
    /// The `num` of its entity.
    pub entity: i64,
    /// The position among the volumes of the entity, from 0.
    pub place: i64,
    pub alt_lower: i64,
    pub alt_upper: i64,
    pub time_start: i64,
    pub time_end: i64,
}

/// A row of the table `cell`.
#[derive(Debug, Drop)]
pub struct CellRow {
    /// The `num` of its entity.
    pub entity: i64,
    /// The position of its volume.
    pub volume: i64,
    /// The position among the cells of the volume, from 0.
    pub place: i64,
    /// The printed token of the cell.
    pub token: Text,
    /// The cell's first and last positions among the cells of level 13.
    pub lo: i64,
    pub hi: i64,
}

/// A row of the table `subscription`.
#[derive(Debug, Drop)]
pub struct SubRow {
    /// The serial of the subscription's creation, by which the other tables refer to it.
    pub num: i64,
    /// The id in lower case.
    pub id: Text,
    pub manager: Text,
    /// The serial of the subscription's last put.
    pub serial: i64,
    pub version: Text,
    /// The notification index.
    pub notes: i64,
    pub url: Text,
    /// 1 if it is notified of intents, otherwise 0.
    pub for_intents: i64,
    /// 1 if it is notified of constraints, otherwise 0.
    pub for_constraints: i64,
    pub alt_lower: i64,
    pub alt_upper: i64,
    pub time_start: i64,
    pub time_end: i64,
}

/// A row of the table `subscription_cell`.
#[derive(Debug, Drop)]
pub struct SubCellRow {
    /// The `num` of its subscription.
    pub subscription: i64,
    /// The position among the cells of the subscription, from 0.
    pub place: i64,
    /// The printed token of the cell.
    pub token: Text,
    /// The cell's first and last positions among the cells of level 13.
    pub lo: i64,
    pub hi: i64,
}
