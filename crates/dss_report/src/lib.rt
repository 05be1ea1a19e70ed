//! What the program prints of an airspace and of the grid: a report with a line for each stored
//! reference and the serial, the cells of references, and the line of a cell.
#![tactic(auto)]

pub mod cell;
pub mod cell_lines;
mod contents;
pub mod fault;
mod line;
pub mod report;
