//! Remarks about a request, which do not make it lose its form.
use std::fmt;

/// A remark about a place of a request.
#[derive(Clone, Copy, Debug, PartialEq, Eq)]
pub(crate) enum Remark {
    /// The service ignores the member, which has the name of no member.
    Unknown,
    /// The service ignores the member, whose name is similar to this one.
    Similar(&'static str),
    /// The service ignores the member, which the standard has. The text says what to send instead.
    OfStandard(&'static str),
    /// The service ignores the body of a GET or a DELETE.
    NoBody,
    /// The cells cover more level-13 cells than this maximum, by which P6 denies the request.
    Covered { found: u64, max: u64 },
    /// Everything in the body has ended.
    Ended { end: u64, now: u64 },
}

impl fmt::Display for Remark {
    fn fmt<W: fmt::Write>(&self, f: &mut fmt::Formatter<W>) -> fmt::Result {
        match *self {
            Remark::Unknown => f.write_str("unknown member"),
            Remark::Similar(name) => write!(f, "unknown member; did you mean {name}?"),
            Remark::OfStandard(advice) => write!(f, "unknown member; {advice}"),
            Remark::NoBody => f.write_str("ignored, since GET and DELETE have none"),
            Remark::Covered { found, max } => {
                write!(
                    f,
                    "{found} level-13 cells covered: at most {max} are allowed (P6)"
                )
            }
            Remark::Ended { end, now } => write!(f, "ended at {end}; now is {now}"),
        }
    }
}

/// Returns what to send instead of a member of the standard (ASTM F3548-21), if it is one.
pub(crate) fn advice_for(name: &str) -> Option<&'static str> {
    match name {
        "new_subscription" => Some("put a subscription first, and reference it by subscription_id"),
        "volume" => Some("its cells and altitudes belong beside the times"),
        "outline_polygon" | "outline_circle" => Some("send the cells that cover it"),
        _ => None,
    }
}
