//! The volumes of an entity.
ghost use Rattle.std.specs.Prelude.{◌≡◌, ◌≤◌, ◌↔◌, length, map, IsTrue, IfOk, IfSome, IfNone};
ghost use Rattle.std.specs.List.{fold};
ghost use Rattle.grid_core.specs.Extent.{AnyMeet, any_meet, region_of};
ghost use Rattle.grid_core.specs.Volumes.{IsSpan, covered_sum, meets_some, span_of, wider};

use crate::volume::{Area, Volume};
use std::alloc::{AllocError, Global};
use std::marker::Model;
use std::rc::Rc;

/// The volumes of an entity, 1 to 32 of them (this project's profile). Clones share them.
///
/// Contracts see their list.
#[derive(Debug, Drop)]
pub struct Volumes {
    items: Rc<Vec<Volume>>,
}

impl Model for Volumes {
    ghost use Rattle.std.specs.Prelude.{List, ◌≤◌, length};
    ghost use Rattle.grid_core.specs.Extent.{Extent};

    ghost Value = { List Extent };

    ghost view = { λ a. a.items.value.items };

    ghost invariant = { λ a. (1 ≤ length a.items.value.items)
        × (length a.items.value.items ≤ 32) };
}

/// Returns true if a volume meets some area.
pub fn meets_some(volume: &Volume, areas: &[Area]) -> bool
    ensures { result ≡ meets_some volume.now areas.now }
{
    areas.iter().any(|area| volume.meets(area))
}

fn any_meet(volumes: &[Volume], areas: &[Area]) -> bool
    ensures { result ≡ any_meet volumes.now areas.now }
{
    volumes.iter().any(|volume| meets_some(volume, areas))
}

// Returns the earlier start and the later end.
fn wider(span: (u64, u64), time: (u64, u64)) -> (u64, u64)
    ensures { result ≡ wider span time }
{
    let first = if span.0 <= time.0 { span.0 } else { time.0 };
    let last = if span.1 <= time.1 { time.1 } else { span.1 };
    (first, last)
}

fn widened(span: (u64, u64), volume: &Volume) -> (u64, u64)
    ensures { result ≡ wider span volume.now.time }
{
    wider(span, volume.time())
}

fn span_from(first: (u64, u64), rest: &[Volume]) -> (u64, u64)
    ensures { result ≡ fold (λ span v. wider span v.time) first rest.now }
{
    rest.iter()
        .fold(first, |span, volume| widened(span, volume))
}

fn span_of(volumes: &[Volume]) -> (u64, u64)
    ensures { result ≡ span_of volumes.now }
{
    match volumes.split_first() {
        Some((first, rest)) => span_from(first.time(), rest),
        None => (0, 0),
    }
}

fn areas_of(alloc: Global, volumes: &[Volume]) -> Result<Vec<Area>, AllocError>
    ensures { IfOk result (λ areas. areas.items ≡ map region_of volumes.now) }
{
    let mut areas = Vec::new(alloc);
    for shown in volumes {
        areas.push(shown.as_area()?)?;
    }
    Ok(areas)
}

fn covered_sum(volumes: &[Volume]) -> u64
    requires { length volumes.now ≤ 32 }
    ensures { result ≡ covered_sum volumes.now }
{
    let mut total = 0u64;
    for counted in volumes {
        total += counted.covered();
    }
    total
}

impl Volumes {
    /// Creates the volumes of an entity.
    ///
    /// Returns `None` if there are no volumes or more than 32. Drops them then, and if memory runs
    /// out.
    pub fn from_vec(alloc: Global, items: Vec<Volume>) -> Result<Option<Volumes>, AllocError>
        ensures some { IfOk result (λ made. IfSome made (λ v. v ≡ items.items)) }
        ensures none { IfOk result (λ made. IfNone made
            ((1 ≤ length items.items) → (length items.items ≤ 32) → ⊥)) }
    {
        if items.is_empty() || items.len() > 32 {
            Ok(None)
        } else {
            let items = Rc::new(alloc, items)?;
            Ok(Some(Volumes { items }))
        }
    }

    /// Returns the volumes, in the order in which they were given.
    pub fn items(&self) -> &[Volume]
        ensures same { result.now ≡ self.now }
        ensures least { 1 ≤ length self.now }
        ensures most { length self.now ≤ 32 }
    {
        self.items.as_ref().as_slice()
    }

    /// Returns true if some volume meets some area.
    ///
    /// Each volume is tested separately; volumes are not merged.
    pub fn meets_any(&self, areas: &[Area]) -> bool
        ensures test { result ≡ any_meet self.now areas.now }
        ensures relation { IsTrue result ↔ AnyMeet self.now areas.now }
    {
        any_meet(self.items(), areas)
    }

    /// Returns the earliest start and the latest end, in Unix seconds.
    pub fn times(&self) -> (u64, u64)
        ensures value { result ≡ span_of self.now }
        ensures relation { IsSpan self.now result }
    {
        self.span()
    }

    fn span(&self) -> (u64, u64)
        ensures value { result ≡ span_of self.now }
        ensures some { 1 ≤ length self.now }
    {
        span_of(self.items())
    }

    /// Returns the number of level-13 cells that the volumes count for, summed over volumes and
    /// cells (this project's profile).
    pub fn covered(&self) -> u64
        ensures { result ≡ covered_sum self.now }
    {
        covered_sum(self.items())
    }

    /// Returns the volumes as areas whose bounds are all present.
    ///
    /// Returns `AllocError` if memory runs out.
    pub fn areas(&self, alloc: Global) -> Result<Vec<Area>, AllocError>
        ensures { IfOk result (λ areas. areas.items ≡ map region_of self.now) }
    {
        areas_of(alloc, self.items())
    }

    /// Returns a clone that shares the same volumes.
    ///
    /// Allocates nothing.
    pub fn clone(&self) -> Result<Volumes, AllocError>
        ensures { IfOk result (λ v. v ≡ self.now) }
    {
        let items = self.items.clone()?;
        Ok(Volumes { items })
    }
}
