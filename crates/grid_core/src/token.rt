//! Tokens: short texts that represent cells.
ghost use Rattle.std.specs.Prelude.{◌≡◌, ◌≤◌, ◌<◌, ◌+◌, ◌*◌, ◌/◌, ◌-◌, ◌^◌, IfOk, OnErr, Some, None, IsTrue, MatchOption, length, string_bytes};
ghost use Rattle.std.specs.Str.Parse.{AllDigits, digits_value};
ghost use Rattle.std.specs.Char.{digit_value};
ghost use Rattle.grid_core.specs.Cell.{number_of};
ghost use Rattle.grid_core.specs.Token.{Parses, cell_named, IsShortest, is_lower_digit, Written};

use crate::cell::CellId;
use std::alloc::{AllocError, Global};

/// The first fault of a text that is not a token.
#[derive(Clone, Copy, Debug, PartialEq, Eq)]
pub enum TokenFault {
    /// The text is empty or has over 16 bytes.
    Length,
    /// A byte is not a hexadecimal digit.
    Digit,
    /// The digits are not the number of a cell.
    Invalid,
}

impl TokenFault {
    ghost use Rattle.grid_core.specs.Token.{fault_number, fault_name};

    /// Returns the number of the fault, from 1 to 3.
    pub fn number(self) -> u8
        ensures { result ≡ fault_number self }
    {
        match self {
            TokenFault::Length => 1,
            TokenFault::Digit => 2,
            TokenFault::Invalid => 3,
        }
    }

    /// Returns the name of the fault.
    pub fn name(self) -> &'static str
        ensures { result.now ≡ fault_name self }
    {
        match self {
            TokenFault::Length => "Length",
            TokenFault::Digit => "Digit",
            TokenFault::Invalid => "Invalid",
        }
    }
}

fn digit_of(byte: u8) -> Option<u64>
    ensures { MatchOption result (16 ≤ digit_value byte) (λ d. (d ≡ digit_value byte) × (d < 16)) }
{
    match char::from(byte).to_digit(16) {
        Some(digit) => Some(u64::from(digit)),
        None => None,
    }
}

// Returns the number that hexadecimal digits represent, or `None` if a byte is not such a digit.
fn value_of(text: &[u8]) -> Option<u64>
    requires { length text.now ≤ 16 }
    ensures { MatchOption result (AllDigits 16 text.now → ⊥)
        (λ n. AllDigits 16 text.now × (n ≡ digits_value 16 text.now)) }
{
    let mut value = 0u64;
    for byte in text {
        let Some(digit) = digit_of(*byte) else {
            return None;
        };
        value = value * 16 + digit;
    }
    Some(value)
}

// Returns the number padded with zeros on the right to 16 digits.
fn padded(value: u64, count: usize) -> u64
    requires count { count ≤ 16 }
    requires some { 1 ≤ count }
    requires fits { value < 16 ^ count }
    ensures { result ≡ value * 16 ^ (16 - count) }
{
    value << (4 * (16 - count) as u32)
}

/// Returns the cell that a token represents.
///
/// A token has 1 to 16 hexadecimal digits of either case. Padded with zeros on the right, they are
/// the cell's number (S2 Geometry). A token with trailing zeros is accepted (this project's
/// profile). Returns the first fault, checked in the order of their numbers. Allocates nothing.
pub fn parse_token(text: &str) -> Result<CellId, TokenFault>
    ensures reads { Parses text.now result }
    ensures named { IfOk result (λ c. cell_named text.now ≡ Some c) }
    ensures none { OnErr result (cell_named text.now ≡ None) }
{
    if text.is_empty() || text.len() > 16 {
        return Err(TokenFault::Length);
    }
    let Some(value) = value_of(text.as_bytes()) else {
        return Err(TokenFault::Digit);
    };
    match CellId::from_raw(padded(value, text.len())) {
        Some(cell) => Ok(cell),
        None => Err(TokenFault::Invalid),
    }
}

// Returns the hexadecimal digit at an index of a number. Index 0 is the highest four bits.
fn glyph_at(raw: u64, place: u32) -> char
    requires { place < 16 }
    ensures value { digit_value result ≡ raw / 2 ^ (60 - 4 * place) - raw / 2 ^
        (60 - 4 * place) / 16 * 16 }
    ensures lower { IsTrue (is_lower_digit result) }
{
    match char::from_digit(((raw >> (60 - 4 * place)) % 16) as u32, 16) {
        Some(glyph) => glyph,
        None => unreachable!(),
    }
}

/// Returns the token of a cell: the shortest lower-case text that represents it.
///
/// Returns `AllocError` if memory runs out.
pub fn token(alloc: Global, cell: CellId) -> Result<String, AllocError>
    ensures { IfOk result (λ text. IsShortest (string_bytes text) cell) }
{
    let raw = cell.raw();
    let count = 16 - raw.trailing_zeros() / 4;
    written(alloc, raw, count)
}

// Returns the first digits of a number.
fn written(alloc: Global, raw: u64, count: u32) -> Result<String, AllocError>
    requires { count ≤ 16 }
    ensures { IfOk result (λ text. Written raw count (string_bytes text)) }
{
    let mut text = String::new(alloc);
    for place in 0..count {
        text.push(glyph_at(raw, place))?;
    }
    Ok(text)
}
