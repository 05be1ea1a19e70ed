//! Names of availabilities.
ghost use Rattle.std.specs.Prelude.{◌≡◌, MatchOption};
ghost use Rattle.wire_body.specs.Availability.{name_of, availability_named};

use entity_core::availability::Availability;

/// Returns the name of an availability.
pub fn name_of(availability: Availability) -> &'static str
    ensures { result.now ≡ name_of availability }
{
    match availability {
        Availability::Unknown => "Unknown",
        Availability::Normal => "Normal",
        Availability::Down => "Down",
    }
}

/// Returns the availability with this name. Case matters.
#[tactic(auto, unfolding(crate::specs::Availability::availability_named))]
pub fn availability_named(name: &str) -> Option<Availability>
    ensures value { result ≡ availability_named name.now }
    ensures relation { MatchOption result ((a : Availability) → name_of a ≡ name.now → ⊥)
        (λ a. name_of a ≡ name.now) }
{
    match name {
        "Unknown" => Some(Availability::Unknown),
        "Normal" => Some(Availability::Normal),
        "Down" => Some(Availability::Down),
        _ => None,
    }
}
