//! Ranges of altitudes and times. Both ends are included; an absent bound does not restrict.
ghost use Rattle.std.specs.Prelude.{◌≡◌, int_le, nat_le, pos, negsuc};
ghost use Rattle.grid_core.specs.Extent.{reaches, shares, is_within, are_altitudes, are_times};

/// The minimum altitude of a volume, in decimetres (this project's profile).
pub const MIN_ALTITUDE: i64 = -100_000;

/// The maximum altitude of a volume, in decimetres (this project's profile).
pub const MAX_ALTITUDE: i64 = 1_000_000;

/// The maximum time of a volume, in Unix seconds: the end of the year 9999 (this project's
/// profile).
pub const MAX_TIME: u64 = 253_402_300_799;

fn is_below(low: i64, high: i64) -> bool
    ensures { result ≡ int_le low high }
{
    low <= high
}

fn reaches_altitude(low: Option<i64>, high: Option<i64>) -> bool
    ensures { result ≡ reaches int_le low high }
{
    match low {
        None => true,
        Some(l) => match high {
            None => true,
            Some(h) => is_below(l, h),
        },
    }
}

fn reaches_time(low: Option<u64>, high: Option<u64>) -> bool
    ensures { result ≡ reaches nat_le low high }
{
    match low {
        None => true,
        Some(l) => match high {
            None => true,
            Some(h) => l <= h,
        },
    }
}

/// Returns true if some altitude lies in both ranges and neither range is empty.
pub(crate) fn share_altitude(
    low: Option<i64>,
    high: Option<i64>,
    other_low: Option<i64>,
    other_high: Option<i64>,
) -> bool
    ensures { result ≡ shares int_le low high other_low other_high }
{
    (reaches_altitude(low, high) && reaches_altitude(low, other_high))
        && (reaches_altitude(other_low, high) && reaches_altitude(other_low, other_high))
}

/// Returns true if some time lies in both ranges and neither range is empty.
pub(crate) fn share_time(
    low: Option<u64>,
    high: Option<u64>,
    other_low: Option<u64>,
    other_high: Option<u64>,
) -> bool
    ensures { result ≡ shares nat_le low high other_low other_high }
{
    (reaches_time(low, high) && reaches_time(low, other_high))
        && (reaches_time(other_low, high) && reaches_time(other_low, other_high))
}

fn is_altitude(bound: Option<i64>) -> bool
    ensures { result ≡ is_within int_le (negsuc 99999) (pos 1000000) bound }
{
    match bound {
        None => true,
        Some(x) => is_below(MIN_ALTITUDE, x) && is_below(x, MAX_ALTITUDE),
    }
}

fn is_time(bound: Option<u64>) -> bool
    ensures { result ≡ is_within nat_le 0 253402300799 bound }
{
    match bound {
        None => true,
        Some(x) => x <= MAX_TIME,
    }
}

/// Returns true if the altitudes are within their limits and the lower is not above the upper.
pub(crate) fn are_altitudes(low: Option<i64>, high: Option<i64>) -> bool
    ensures { result ≡ are_altitudes low high }
{
    is_altitude(low) && (is_altitude(high) && reaches_altitude(low, high))
}

/// Returns true if the times are within their limits and the first is not after the last.
pub(crate) fn are_times(first: Option<u64>, last: Option<u64>) -> bool
    ensures { result ≡ are_times first last }
{
    is_time(first) && (is_time(last) && reaches_time(first, last))
}
