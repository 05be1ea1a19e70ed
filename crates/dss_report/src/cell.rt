//! The line of a cell.
ghost use Rattle.std.specs.Prelude.{IfOk, MatchResult, string_bytes};
ghost use Rattle.dss_report.specs.Cell.{IsFaultOfToken, IsLineOf, IsLineOfToken};

use crate::fault::CellFault;
use grid_core::cell::CellId;
use grid_core::token::{parse_token, token};
use std::alloc::{AllocError, Global};

// Returns the line of a cell with its line end: the shortest token, the face, the level, and the
// first and last cell of level 13 inside it.
fn cell_line(alloc: Global, cell: CellId) -> Result<String, AllocError>
    ensures { IfOk result (λ line. IsLineOf cell (string_bytes line)) }
{
    let name = token(alloc, cell)?;
    let face = cell.face();
    let level = cell.level();
    let lo = cell.lo();
    let hi = cell.hi();
    format!(in alloc; "{name} face={face} level={level} lo={lo} hi={hi}\n")
}

/// Returns the line of a token's cell. Returns a fault if the text is no token.
pub fn token_line(alloc: Global, text: &str) -> Result<String, CellFault>
    ensures { MatchResult result (λ line. IsLineOfToken text.now (string_bytes line))
        (IsFaultOfToken text.now) }
{
    let cell = parse_token(text)?;
    Ok(cell_line(alloc, cell)?)
}
