//! Candidates of a search: volumes that have a cell near an area.
//!
//! Each candidate has bits for the areas of which some cell touches one of its own. It is compared
//! only with the areas that have these bits.
ghost use Rattle.std.specs.Prelude.{◌≡◌, ℕ, ◌⊎◌, ◌%◌, ◌^◌, nat_eq, IfOk, IsTrue, OnOk, unwrap_or};
ghost use Rattle.std.specs.Int.{bit_at};
ghost use Rattle.std.specs.List.{All};
ghost use Rattle.std.specs.BTreeMap.{get};
ghost use Rattle.grid_core.specs.Cell.{IsCell};
ghost use Rattle.grid_core.specs.Extent.{Region, meets, region_of};
ghost use Rattle.grid_core.specs.Volumes.{meets_some};
ghost use Rattle.space_memory.specs.Near.{exact_of, pair_cmp, part_of, range_of, Gathers, GathersAll, HasAllSpans, HasAncestors, HasBits, HasMeeting, HasSpansOf, IsAt, IsStart, Widens};

use crate::cell_index::{Mark, STEP, WIDTH, interval_of, position_of};
use grid_core::cell::CellId;
use grid_core::sorted_area::SortedArea;
use grid_core::volume::Volume;
use std::alloc::{AllocError, Global};
use std::collections::{BTreeMap, BTreeSet};

/// The id of a holder and the number of one of its volumes.
pub(crate) type Part = (u128, u8);

/// Candidate volumes, with bits for areas.
pub(crate) type Near = BTreeMap<Part, u64>;

// A range of positions. The end is not included.
type Span = (u64, u64);

// Spans, with bits for areas.
type Spans = BTreeMap<Span, u64>;

// ---- bits for areas

// Returns the bit of an area. Areas whose indexes are 64 apart share a bit, so a volume can be
// compared with more areas than necessary.
fn bit_of(place: usize) -> u64
    ensures { result ≡ 2 ^ (place % 64) }
{
    1 << (place % 64)
}

fn has_bit(bits: u64, place: usize) -> bool
    ensures { result ≡ nat_eq (bit_at bits (place % 64)) 1 }
{
    (bits >> (place % 64)) & 1 == 1
}

/// Returns true if a volume meets an area whose bit is set.
pub(crate) fn meets_one_of(volume: &Volume, bits: u64, areas: &[SortedArea]) -> bool
    ensures sound { IsTrue result → IsTrue (meets_some volume.now areas.now) }
    ensures whole { (j : ℕ) (a : Region) → IsAt areas.now j a → bit_at bits (j % 64) ≡ 1
        → IsTrue (meets (region_of volume.now) a) → IsTrue result }
{
    for (place, area) in areas.iter().enumerate() {
        if has_bit(bits, place) && volume.meets_sorted(area) {
            return true;
        }
    }
    false
}

// ---- the spans of the cells of areas and of their ancestors

fn add_span(spans: &mut Spans, span: Span, bits: u64) -> Result<(), AllocError>
    ensures kept { Widens spans.old spans.new }
    ensures there { OnOk result (HasBits spans.new span bits) }
{
    let own = spans.get(&span).copied().unwrap_or(0);
    if own | bits != own {
        spans.insert(span, own | bits)?;
    }
    Ok(())
}

fn add_exact(spans: &mut Spans, bits: u64, cell: CellId) -> Result<(), AllocError>
    ensures kept { Widens spans.old spans.new }
    ensures there { OnOk result (HasBits spans.new (exact_of cell) bits) }
{
    let place = position_of(cell);
    add_span(spans, (place, place + WIDTH), bits)
}

fn add_ancestors(spans: &mut Spans, bits: u64, cell: CellId) -> Result<(), AllocError>
    ensures kept { Widens spans.old spans.new }
    ensures there { OnOk result (HasAncestors spans.new bits cell) }
{
    let own = cell.level();
    let levels = if own < 13 { own } else { 13 };
    for level in 0..levels {
        add_exact(spans, bits, cell.parent(level))?;
    }
    Ok(())
}

fn add_range(spans: &mut Spans, bits: u64, cell: CellId) -> Result<(), AllocError>
    ensures valid { IsCell cell }
    ensures kept { Widens spans.old spans.new }
    ensures there { OnOk result (HasBits spans.new (range_of cell) bits) }
{
    let (lo, hi) = interval_of(cell);
    add_span(spans, (lo * STEP, (hi + 1) * STEP), bits)
}

fn add_cell(spans: &mut Spans, bits: u64, cell: CellId) -> Result<(), AllocError>
    ensures kept { Widens spans.old spans.new }
    ensures there { OnOk result (HasSpansOf spans.new bits cell) }
{
    add_range(spans, bits, cell)?;
    add_ancestors(spans, bits, cell)
}

fn add_all(spans: &mut Spans, bits: u64, cells: &[CellId]) -> Result<(), AllocError>
    ensures kept { Widens spans.old spans.new }
    ensures there { OnOk result (All (HasSpansOf spans.new bits) cells.now) }
{
    for cell in cells {
        add_cell(spans, bits, *cell)?;
    }
    Ok(())
}

// Returns the spans of all cells that can touch a cell of some area, each span once.
fn spans_of(alloc: Global, areas: &[SortedArea]) -> Result<Spans, AllocError>
    ensures { IfOk result (λ spans. HasAllSpans spans areas.now) }
{
    let mut spans = BTreeMap::new(alloc);
    for (place, area) in areas.iter().enumerate() {
        add_all(&mut spans, bit_of(place), area.cells())?;
    }
    Ok(spans)
}

// ---- searches

// Adds the bits to a candidate. Most candidates have them already from another cell, and then
// nothing changes.
fn add_part(near: &mut Near, part: Part, bits: u64) -> Result<(), AllocError>
    ensures kept { Widens near.old near.new }
    ensures there { OnOk result (HasBits near.new part bits) }
{
    let own = near.get(&part).copied().unwrap_or(0);
    if own | bits != own {
        near.insert(part, own | bits)?;
    }
    Ok(())
}

fn part_of(mark: &Mark) -> Part
    ensures { result ≡ part_of mark.now }
{
    (mark.2, (mark.0 % WIDTH) as u8)
}

fn gather(near: &mut Near, marks: &BTreeSet<Mark>, span: Span, bits: u64) -> Result<(), AllocError>
    ensures kept { Widens near.old near.new }
    ensures gathered { OnOk result (Gathers marks.now span bits near.new) }
{
    let (from, to) = span;
    if from < to {
        for found in marks.range((from, 0, 0)..(to, 0, 0)) {
            add_part(near, part_of(found), bits)?;
        }
    }
    Ok(())
}

// Returns the first position of a span that is not covered yet. The covered span counts only if it
// has at least the same bits.
fn start_of(span: Span, bits: u64, done: Span, done_bits: u64) -> u64
    ensures { IsStart span bits done done_bits result }
{
    if done.0 <= span.0 && done_bits | bits == done_bits {
        span.0.max(done.1)
    } else {
        span.0
    }
}

// Returns the span that reaches further, with its bits.
fn further(span: Span, bits: u64, done: Span, done_bits: u64) -> (Span, u64)
    ensures { (result ≡ (span, bits)) ⊎ (result ≡ (done, done_bits)) }
{
    if done.1 < span.1 {
        (span, bits)
    } else {
        (done, done_bits)
    }
}

// Gathers the candidates of all spans. Spans are ordered by their start, so a part that is covered
// with the same bits is not searched again.
fn gather_all(alloc: Global, marks: &BTreeSet<Mark>, spans: &Spans) -> Result<Near, AllocError>
    ensures { IfOk result (λ near. GathersAll marks.now spans.now near) }
{
    let mut near = BTreeMap::new(alloc);
    let mut done = ((0, 0), 0);
    for (span, bits) in spans {
        let start = start_of(*span, *bits, done.0, done.1);
        gather(&mut near, marks, (start, span.1), *bits)?;
        done = further(*span, *bits, done.0, done.1);
    }
    Ok(near)
}

/// Returns the volumes in an index that can meet some area.
///
/// Each volume has the bits of the areas of which a cell touches one of its own. Altitudes and
/// times are not considered. Returns `AllocError` if memory runs out.
pub(crate) fn near(
    alloc: Global,
    marks: &BTreeSet<Mark>,
    areas: &[SortedArea],
) -> Result<Near, AllocError>
    ensures { IfOk result (λ near. HasMeeting marks.now areas.now near) }
{
    let spans = spans_of(alloc, areas)?;
    gather_all(alloc, marks, &spans)
}
