//! Single SELECTs of a connection, and conversion of their rows to rows of the tables.
#![tactic(auto)]

pub mod availability_record;
pub mod meta;
pub mod reading;
pub mod rows;
pub mod select;
pub mod sub_rows;
