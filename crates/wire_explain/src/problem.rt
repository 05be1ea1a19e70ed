//! Reasons why a request does not have the form of its operation.
use serde_json::{Error, Value};
use std::fmt;

/// The type of a JSON value, as a problem names it.
#[derive(Clone, Copy, Debug, PartialEq, Eq)]
pub(crate) enum JsonType {
    Null,
    Boolean,
    Number,
    WholeNumber,
    String,
    Array,
    Object,
}

impl JsonType {
    /// Returns the type of a value.
    pub(crate) fn of(value: &Value) -> JsonType {
        match value {
            Value::Null => JsonType::Null,
            Value::Bool(_) => JsonType::Boolean,
            Value::Number(_) => JsonType::Number,
            Value::String(_) => JsonType::String,
            Value::Array(_) => JsonType::Array,
            Value::Object(_) => JsonType::Object,
        }
    }
}

impl fmt::Display for JsonType {
    fn fmt<W: fmt::Write>(&self, f: &mut fmt::Formatter<W>) -> fmt::Result {
        f.write_str(match self {
            JsonType::Null => "null",
            JsonType::Boolean => "a boolean",
            JsonType::Number => "a number",
            JsonType::WholeNumber => "a whole number",
            JsonType::String => "a string",
            JsonType::Array => "an array",
            JsonType::Object => "an object",
        })
    }
}

/// What is wrong at a place of a request.
#[derive(Clone, Copy, Debug)]
pub(crate) enum Problem<'a> {
    /// No route has the path.
    NoRoute,
    /// The path only allows these methods.
    NoMethod(&'static str),
    /// The body has no bytes.
    Empty,
    /// The body has no JSON value that can be read.
    NotJson(&'a Error),
    /// The body is not UTF-8.
    NotUtf8,
    /// Arrays and objects are nested too deeply.
    Depth,
    /// The member is absent.
    Missing,
    /// The member is null, which counts as absent.
    Null,
    /// The value has another type.
    Type {
        found: JsonType,
        wanted: JsonType,
    },
    /// The number is not read as a whole number of 64 bits.
    NotWhole,
    /// The number is not in this range.
    Range {
        min: i64,
        max: i64,
    },
    /// The upper altitude is below the lower one.
    BelowLower,
    /// The end is before the start.
    BeforeStart,
    /// The array has another number of items.
    Items {
        found: usize,
        min: usize,
        max: usize,
    },
    /// The volumes have too many cells in total.
    Cells {
        found: usize,
        max: usize,
    },
    /// The text has another number of bytes.
    Bytes {
        found: usize,
        min: usize,
        max: usize,
    },
    /// The text has a byte outside of `!` to `~`.
    NotVisible,
    /// The text has a byte that no id of a USS has.
    NotName,
    /// The text is not a UUID.
    NotUuid,
    /// The id is the one that means no subscription.
    ZeroId,
    /// The text cannot be a token.
    NotToken,
    /// The digits of the text are the number of no cell.
    NoCell,
    /// The text is none of these names.
    NoneOf(&'static str),
    /// Neither flag of a subscription is true.
    NoInterest,
    /// Something else is wrong.
    Other,
}

impl fmt::Display for Problem<'_> {
    fn fmt<W: fmt::Write>(&self, f: &mut fmt::Formatter<W>) -> fmt::Result {
        match *self {
            Problem::NoRoute => f.write_str("no route has this path"),
            Problem::NoMethod(allowed) => write!(f, "the path allows only {allowed}"),
            Problem::Empty => f.write_str("empty, and not a JSON object"),
            Problem::NotJson(error) => write!(f, "cannot be read as JSON: {error}"),
            Problem::NotUtf8 => f.write_str("not UTF-8"),
            Problem::Depth => f.write_str("nested over 127 levels deep"),
            Problem::Missing => f.write_str("missing"),
            Problem::Null => f.write_str("null, which counts as missing"),
            Problem::Type { found, wanted } => write!(f, "{found}, not {wanted}"),
            Problem::NotWhole => f.write_str(
                "not a whole number of 64 bits: write it without a fraction and without an exponent",
            ),
            Problem::Range { min, max } => write!(f, "outside {min} to {max}"),
            Problem::BelowLower => f.write_str("below altitude_lower"),
            Problem::BeforeStart => f.write_str("before time_start"),
            Problem::Items { found, min, max } => write!(
                f,
                "{found} items: {min} to {max} are allowed"
            ),
            Problem::Cells { found, max } => {
                write!(f, "{found} cells in total: at most {max} are allowed")
            }
            Problem::Bytes { found, min, max } => write!(
                f,
                "{found} bytes: {min} to {max} are allowed"
            ),
            Problem::NotVisible => f.write_str(
                "only characters from ! to ~ are allowed, and no space",
            ),
            Problem::NotName => f.write_str("only ASCII letters, digits, - _ . are allowed"),
            Problem::NotUuid => f.write_str("not a UUID of 36 characters"),
            Problem::ZeroId => f.write_str("the zero id, which means no subscription"),
            Problem::NotToken => f.write_str(
                "not a token of a cell, which has 1 to 16 hexadecimal digits",
            ),
            Problem::NoCell => f.write_str(
                "not a token of a cell: its digits are the number of no cell",
            ),
            Problem::NoneOf(names) => write!(f, "none of {names}"),
            Problem::NoInterest => f.write_str(
                "false or absent, and so is notify_for_constraints: one of them must be true",
            ),
            Problem::Other => f.write_str("does not have the form of the operation"),
        }
    }
}
