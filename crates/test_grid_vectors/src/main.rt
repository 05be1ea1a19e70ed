//! Prints what `grid_core` computes for cells, one line for each line of input.
//!
//! A test compares the output with that of Google's S2 Geometry library.
#![tactic(auto)]

use anyhow::{Context, Result};
use grid_core::cell::CellId;
use grid_core::token::token;

// The question of an input line: a cell, the level of a parent, the digit of a child, the level of
// a digit, and another cell.
#[derive(Drop)]
struct Questions {
    cell: CellId,
    above: u8,
    child: u8,
    place: u8,
    other: CellId,
}

fn cell_of(word: Option<&str>) -> Option<CellId> {
    CellId::from_raw(u64::from_str_radix(word?, 16).ok()?)
}

fn number_of(word: Option<&str>) -> Option<u8> {
    word?.parse::<u8>().ok()
}

fn read(line: &str) -> Option<Questions> {
    let mut words = line.split_whitespace();
    Some(Questions {
        cell: cell_of(words.next())?,
        above: number_of(words.next())?,
        child: number_of(words.next())?,
        place: number_of(words.next())?,
        other: cell_of(words.next())?,
    })
}

// Prints a cell's token, face and level, and its parent.
fn report_cell(rt: &(impl Print + AllocGlobal), asked: &Questions) -> Result<()> {
    let cell = asked.cell;
    let name = token(rt.alloc(), cell)?;
    let face = cell.face();
    let level = cell.level();
    let parent = cell.parent(asked.above.min(level)).raw();
    print!(rt; "{name} face={face} level={level} parent={parent:016x}")?;
    Ok(())
}

// Prints its child, if any, and its first and last leaf.
fn report_below(rt: &impl Print, asked: &Questions) -> Result<()> {
    let cell = asked.cell;
    if cell.level() < 30 && asked.child <= 3 {
        let child = cell.child(asked.child).raw();
        print!(rt; " child={child:016x}")?;
    } else {
        print!(rt; " child=-")?;
    }
    let least = cell.range_min();
    let greatest = cell.range_max();
    print!(rt; " min={least:016x} max={greatest:016x}")?;
    Ok(())
}

// Prints its digit, if any, and whether it contains the other cell.
fn report_above(rt: &impl Print, asked: &Questions) -> Result<()> {
    let cell = asked.cell;
    if 1 <= asked.place && asked.place <= cell.level() {
        let digit = cell.digit(asked.place);
        print!(rt; " digit={digit}")?;
    } else {
        print!(rt; " digit=-")?;
    }
    let contains = if cell.contains(asked.other) {
        "yes"
    } else {
        "no"
    };
    println!(rt; " contains={contains}")?;
    Ok(())
}

fn main(rt: HostRuntime) -> Result<()> {
    for line in rt.lines(rt.alloc()) {
        let asked = read(line?.as_str()).context("a cell, three numbers and another cell")?;
        report_cell(&rt, &asked)?;
        report_below(&rt, &asked)?;
        report_above(&rt, &asked)?;
    }
    Ok(())
}
