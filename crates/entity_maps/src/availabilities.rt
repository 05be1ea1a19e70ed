//! Availabilities ordered by USS id.
ghost use Rattle.std.specs.Prelude.{◌≡◌, [], OnOk, OnErr, IfOk, IfErr, IsOk, IsSome, IsNone, length, unwrap_or};
ghost use Rattle.std.specs.List.Sorted.{IsBinarySearchResult, IsSearchInRange};
ghost use Rattle.std.specs.FinMap.{find, get, insert};
ghost use Rattle.std.specs.FinMap.Entries.{put};
ghost use Rattle.entity_core.specs.Airspace.{text_cmp};
ghost use Rattle.entity_maps.specs.Sorted.{keyed, Hit, Gap};
ghost use Rattle.entity_maps.specs.Availabilities.{pair_of, availability_map, InOrder};

use entity_core::availability::Availability;
use entity_core::ovn::Ovn;
use entity_core::uss_id::UssId;
use std::alloc::{AllocError, Global};
use std::cmp::Ordering;
use std::marker::Model;

/// The availability of one USS.
#[derive(Debug, Drop)]
pub struct AvailabilityEntry {
    uss: UssId,
    availability: Availability,
    version: Ovn,
}

/// The availabilities of USSs, ordered by USS id, one for each USS.
///
/// Contracts see the list.
#[derive(Debug, Drop)]
pub struct Availabilities {
    items: Vec<AvailabilityEntry>,
}

impl Model for Availabilities {
    ghost use Rattle.std.specs.Prelude.{List};
    ghost use Rattle.entity_maps.specs.declared.availabilities.AvailabilityEntry.{AvailabilityEntry};
    ghost use Rattle.entity_maps.specs.Availabilities.{InOrder};

    ghost Value = { List AvailabilityEntry };

    ghost view = { λ a. a.items.items };

    ghost invariant = { λ a. InOrder a.items.items };
}

fn uss_order(uss: &UssId, other: &UssId) -> Ordering
    ensures { result ≡ text_cmp uss.now other.now }
{
    uss.text().cmp(other.text())
}

fn search_settings(items: &[AvailabilityEntry], uss: &UssId) -> Result<usize, usize>
    ensures bound { IsSearchInRange result (length items.now) }
    ensures position { IsBinarySearchResult (λ e. text_cmp e.uss uss.now) items.now result }
{
    items.binary_search_by(|setting| uss_order(&setting.uss, uss))
}

// Returns the index of a USS's entry, or as an error the index at which to insert it.
fn availability_position(items: &[AvailabilityEntry], uss: &UssId) -> Result<usize, usize>
    ensures hit { InOrder items.now → IfOk result (Hit text_cmp pair_of items.now uss.now) }
    ensures gap { InOrder items.now → IfErr result (Gap text_cmp pair_of items.now uss.now) }
{
    search_settings(items, uss)
}

fn find_setting(
    items: &[AvailabilityEntry],
    uss: &UssId,
) -> Result<Option<(Availability, Ovn)>, AllocError>
    requires { InOrder items.now }
    ensures found { IfOk result (λ found.
        found ≡ find text_cmp uss.now (keyed pair_of items.now)) }
    ensures none { IsNone (find text_cmp uss.now (keyed pair_of items.now)) → IsOk result }
{
    match availability_position(items, uss) {
        Ok(i) => Ok(Some(items[i].stated()?)),
        Err(_) => Ok(None),
    }
}

// Returns the availability without its version. Allocates nothing. Returns `Unknown` if the USS has
// set none.
fn present(items: &[AvailabilityEntry], uss: &UssId) -> Availability
    requires { InOrder items.now }
    ensures { result ≡ (unwrap_or (find text_cmp uss.now (keyed pair_of items.now))
        (Availability.Unknown, [])).0 }
{
    match availability_position(items, uss) {
        Ok(i) => items[i].availability,
        Err(_) => Availability::Unknown,
    }
}

fn put_setting(
    items: &mut Vec<AvailabilityEntry>,
    setting: AvailabilityEntry,
) -> Result<(), AllocError>
    requires { InOrder items.old.items }
    ensures ok { OnOk result (keyed pair_of items.new.items
        ≡ put text_cmp setting.uss (setting.availability, setting.version)
        (keyed pair_of items.old.items)) }
    ensures err { OnErr result (items.new.items ≡ items.old.items) }
    ensures over { IsSome (find text_cmp setting.uss (keyed pair_of items.old.items))
        → IsOk result }
{
    match availability_position(items, &setting.uss) {
        Ok(i) => {
            items[i] = setting;
            Ok(())
        }
        Err(i) => Ok(items.insert(i, setting)?),
    }
}

impl AvailabilityEntry {
    /// Returns the id of the USS.
    pub fn uss(&self) -> &UssId
        ensures { result.now ≡ self.now.uss }
    {
        &self.uss
    }

    /// Returns the availability.
    pub fn availability(&self) -> Availability
        ensures { result ≡ self.now.availability }
    {
        self.availability
    }

    fn stated(&self) -> Result<(Availability, Ovn), AllocError>
        ensures { IfOk result (λ stated. stated ≡ (self.now.availability, self.now.version)) }
    {
        Ok((self.availability, self.version.clone()?))
    }
}

impl Availabilities {
    /// Returns an empty map.
    ///
    /// Allocates nothing.
    pub fn new(alloc: Global) -> Availabilities
        ensures { result ≡ [] }
    {
        Availabilities {
            items: Vec::new(alloc),
        }
    }

    /// Returns all entries, ordered by USS id.
    pub fn items(&self) -> &[AvailabilityEntry]
        ensures { result.now ≡ self.now }
    {
        &self.items
    }

    /// Returns a copy of the availability and version that a USS has set, if any.
    ///
    /// Returns `AllocError` if memory runs out. Allocates nothing if the USS has set none.
    pub fn availability(&self, uss: &UssId) -> Result<Option<(Availability, Ovn)>, AllocError>
        ensures found { IfOk result (λ found. found ≡ get (availability_map self.now) uss.now) }
        ensures none { IsNone (get (availability_map self.now) uss.now) → IsOk result }
    {
        find_setting(&self.items, uss)
    }

    /// Returns the availability of a USS, or `Unknown` if it has set none.
    ///
    /// Allocates nothing.
    pub fn present(&self, uss: &UssId) -> Availability
        ensures { result ≡ (unwrap_or (get (availability_map self.now) uss.now)
            (Availability.Unknown, [])).0 }
    {
        present(&self.items, uss)
    }

    /// Sets the availability of a USS, replacing an earlier one.
    ///
    /// Returns `AllocError` and changes nothing if memory runs out. Replacing an earlier one does
    /// not fail.
    pub fn put(
        &mut self,
        uss: UssId,
        availability: Availability,
        version: Ovn,
    ) -> Result<(), AllocError>
        ensures ok { OnOk result (availability_map self.new
            ≡ insert (availability_map self.old) uss (availability, version)) }
        ensures err { OnErr result (self.new ≡ self.old) }
        ensures over { IsSome (get (availability_map self.old) uss) → IsOk result }
    {
        let setting = AvailabilityEntry {
            uss,
            availability,
            version,
        };
        put_setting(&mut self.items, setting)
    }
}
