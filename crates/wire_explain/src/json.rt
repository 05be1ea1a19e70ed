//! The JSON value of a body.
use crate::place::Place;
use crate::problem::Problem;
use crate::report::Report;
use serde_json::Value;
use std::alloc::{AllocError, Global};
use std::str;

// The maximum depth of arrays and objects.
const MAX_DEPTH: usize = 127;

// Returns the depth of the arrays and objects of a text, if it is JSON.
fn depth_of(text: &[u8]) -> usize {
    let mut deepest = 0usize;
    let mut depth = 0usize;
    let mut is_quoted = false;
    let mut is_escaped = false;
    for byte in text {
        if is_quoted {
            if *byte == b'"' && !is_escaped {
                is_quoted = false;
            }
            is_escaped = *byte == b'\\' && !is_escaped;
        } else {
            match *byte {
                b'"' => is_quoted = true,
                b'[' | b'{' => depth = depth.saturating_add(1),
                b']' | b'}' => depth = depth.saturating_sub(1),
                _ => {}
            }
            deepest = deepest.max(depth);
        }
    }
    deepest
}

/// Returns the value of a body. Reports why there is none.
pub(crate) fn value_in(
    alloc: Global,
    report: &mut Report,
    body: &[u8],
) -> Result<Option<Value>, AllocError> {
    match Value::from_slice(alloc, body) {
        Ok(value) => return Ok(Some(value)),
        Err(error) => {
            if error.is_memory() {
                return Err(AllocError);
            }
            let problem = if body.is_empty() {
                Problem::Empty
            } else if str::from_utf8(body).is_err() {
                Problem::NotUtf8
            } else if depth_of(body) > MAX_DEPTH {
                Problem::Depth
            } else {
                Problem::NotJson(&error)
            };
            report.problem(Place::body(), problem)?;
        }
    }
    Ok(None)
}
