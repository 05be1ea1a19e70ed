//! The lines of a response that every port sends: status and length (RFC 9112, sections 4 and 6.2).
ghost use Rattle.std.specs.Prelude.{◌≡◌, IfOk};
ghost use Rattle.std.specs.String.{string_bytes};
ghost use Rattle.wire_head.specs.Lines.{reason_of, status_line, length_line};

use std::alloc::{AllocError, Global};

// Returns the reason phrase of a status.
#[tactic(auto, unfolding(crate::specs::Lines::reason_of))]
fn reason_of(status: u16) -> &'static str
    ensures { result.now ≡ reason_of status }
{
    match status {
        200 => "OK",
        201 => "Created",
        400 => "Bad Request",
        401 => "Unauthorized",
        403 => "Forbidden",
        404 => "Not Found",
        405 => "Method Not Allowed",
        409 => "Conflict",
        413 => "Content Too Large",
        431 => "Request Header Fields Too Large",
        500 => "Internal Server Error",
        501 => "Not Implemented",
        503 => "Service Unavailable",
        _ => "",
    }
}

/// Returns the status line, or `AllocError` if memory runs out.
#[tactic(auto, unfolding(crate::specs::Lines::status_line))]
pub fn status_line(alloc: Global, status: u16) -> Result<String, AllocError>
    ensures { IfOk result (λ text. string_bytes text ≡ status_line status) }
{
    let mut text = format!(in alloc; "HTTP/1.1 {status} ")?;
    text.push_str(reason_of(status))?;
    text.push_str("\r\n")?;
    Ok(text)
}

/// Returns the line with the length of the body, or `AllocError` if memory runs out.
#[tactic(auto, unfolding(crate::specs::Lines::length_line))]
pub fn length_line(alloc: Global, length: usize) -> Result<String, AllocError>
    ensures { IfOk result (λ text. string_bytes text ≡ length_line length) }
{
    format!(in alloc; "Content-Length: {length}\r\n")
}
