//! The fields of a call, read from the front of bytes.
ghost use Rattle.std.specs.Prelude.{◌≡◌, ◌==◌, option_map, position, if◌then◌else◌};
ghost use Rattle.policy_core.specs.Scope.{with_scope};
ghost use Rattle.pool_entry.specs.Reading.{Gives, cut_at, number_in, number_at, counted_at, flag_in, scopes_at, uss_in, path_in};

use crate::batch_fault::{BatchFault, ReadError};
use entity_core::id_fault::IdFault;
use entity_core::text::Text;
use entity_core::uss_id::UssId;
use itoa::Buffer;
use policy_core::scope::{Scope, ScopeSet};
use std::alloc::Global;

// Returns the number whose decimal digits a text is.
fn number_in(fault: BatchFault, text: &[u8]) -> Result<u64, ReadError>
    ensures { Gives (λ n. n) result (number_in fault text.now) }
{
    let Ok(digits) = str::from_utf8(text) else {
        return Err(ReadError::Fault(fault));
    };
    let Ok(n) = digits.parse::<u64>() else {
        return Err(ReadError::Fault(fault));
    };
    let mut buffer = Buffer::new();
    if buffer.format(n) == digits {
        Ok(n)
    } else {
        Err(ReadError::Fault(fault))
    }
}

// Returns the index of the first byte that is `stop`.
fn first_at(stop: u8, bytes: &[u8]) -> Option<usize>
    ensures { result ≡ position (λ b. b == stop) bytes.now }
{
    bytes.iter().position(|b| *b == stop)
}

// Cuts bytes at the first byte that is `stop`.
fn cut(stop: u8, bytes: &[u8]) -> Option<(&[u8], &[u8])>
    ensures { option_map (λ parts. (parts.0.now, parts.1.now)) result ≡ cut_at stop bytes.now }
{
    let Some(at) = first_at(stop, bytes) else {
        return None;
    };
    Some((&bytes[..at], &bytes[at + 1..]))
}

/// Reads a number and the byte that ends it.
#[tactic(auto, unfolding(crate::specs::Reading::number_at))]
pub(crate) fn number_at(
    fault: BatchFault,
    stop: u8,
    bytes: &[u8],
) -> Result<(u64, &[u8]), ReadError>
    ensures { Gives (λ x. (x.0, x.1.now)) result (number_at fault stop bytes.now) }
{
    let Some((text, rest)) = cut(stop, bytes) else {
        return Err(ReadError::Fault(fault));
    };
    let n = number_in(fault, text)?;
    Ok((n, rest))
}

/// Reads a text with its length, and the byte that ends it.
#[tactic(auto, unfolding(crate::specs::Reading::counted_at))]
pub(crate) fn counted_at(
    fault: BatchFault,
    last: u8,
    bytes: &[u8],
) -> Result<(&[u8], &[u8]), ReadError>
    ensures { Gives (λ x. (x.0.now, x.1.now)) result (counted_at fault last bytes.now) }
{
    let (n, rest) = number_at(fault, b':', bytes)?;
    let len = n as usize;
    if len < rest.len() && rest[len] == last {
        Ok((&rest[..len], &rest[len + 1..]))
    } else {
        Err(ReadError::Fault(fault))
    }
}

#[tactic(auto, unfolding(crate::specs::Reading::flag_in))]
fn flag_in(fault: BatchFault, letter: u8, b: u8) -> Result<bool, ReadError>
    ensures { Gives (λ x. x) result (flag_in fault letter b) }
{
    if b == letter {
        Ok(true)
    } else if b == b'-' {
        Ok(false)
    } else {
        Err(ReadError::Fault(fault))
    }
}

// Returns the set, with one more scope if `on` is true.
fn with_flag(scopes: ScopeSet, scope: Scope, on: bool) -> ScopeSet
    ensures { result ≡ (if on then with_scope scopes scope else scopes) }
{
    if on { scopes.with(scope) } else { scopes }
}

/// Reads a set of scopes, and the space that ends it.
#[tactic(auto, unfolding(crate::specs::Reading::scopes_at))]
pub(crate) fn scopes_at(fault: BatchFault, bytes: &[u8]) -> Result<(ScopeSet, &[u8]), ReadError>
    ensures { Gives (λ x. (x.0, x.1.now)) result (scopes_at fault bytes.now) }
{
    let [s, m, p, c, a, last, rest @ ..] = bytes else {
        return Err(ReadError::Fault(fault));
    };
    let strategic = flag_in(fault, b's', *s)?;
    let conformance = flag_in(fault, b'm', *m)?;
    let processing = flag_in(fault, b'p', *p)?;
    let management = flag_in(fault, b'c', *c)?;
    let arbitration = flag_in(fault, b'a', *a)?;
    if *last != b' ' {
        return Err(ReadError::Fault(fault));
    }
    let scopes = with_flag(ScopeSet::empty(), Scope::StrategicCoordination, strategic);
    let scopes = with_flag(scopes, Scope::ConformanceMonitoring, conformance);
    let scopes = with_flag(scopes, Scope::ConstraintProcessing, processing);
    let scopes = with_flag(scopes, Scope::ConstraintManagement, management);
    let scopes = with_flag(scopes, Scope::AvailabilityArbitration, arbitration);
    Ok((scopes, rest))
}

/// Returns the USS id that a text is.
#[tactic(auto, unfolding(crate::specs::Reading::uss_in))]
pub(crate) fn uss_in(alloc: Global, fault: BatchFault, text: &[u8]) -> Result<UssId, ReadError>
    ensures { Gives (λ uss. uss) result (uss_in fault text.now) }
{
    let Ok(name) = str::from_utf8(text) else {
        return Err(ReadError::Fault(fault));
    };
    match UssId::read(alloc, name) {
        Ok(uss) => Ok(uss),
        Err(IdFault::Memory) => Err(ReadError::Memory),
        Err(_) => Err(ReadError::Fault(fault)),
    }
}

/// Returns the path that a text is.
#[tactic(auto, unfolding(crate::specs::Reading::path_in))]
pub(crate) fn path_in(alloc: Global, fault: BatchFault, text: &[u8]) -> Result<Text, ReadError>
    ensures { Gives (λ path. path) result (path_in fault text.now) }
{
    let Ok(path) = str::from_utf8(text) else {
        return Err(ReadError::Fault(fault));
    };
    Ok(Text::from_string(String::from_str(alloc, path)?))
}
