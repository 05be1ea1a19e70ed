//! Writes, and what was written before a write failed.
ghost use Rattle.std.specs.Prelude.{◌≡◌, ◌<◌, ◌≤◌, ℕ, length, take, OnOk, OnErr};
ghost use Rattle.std.specs.Io.KnownBytes.{Appends};
ghost use Rattle.wire_http.specs.Count.{FailsLast};
ghost use Rattle.wire_http.specs.Counted.{inner_of, calls_of, failures_of, has_failed};

use crate::counted::Counted;
use std::io::Write;

/// A failed write.
#[derive(Clone, Copy, Debug, PartialEq, Eq)]
pub(crate) struct Unwritten;

/// Writes all of the bytes, or a prefix of them if a write fails.
///
/// A write that takes no byte is a failure. Nothing is written after a failed write.
pub(crate) fn write_whole<W: Write>(writer: &mut Counted<W>, bytes: &[u8]) -> Result<(), Unwritten>
    ensures whole { OnOk result (Appends (W.contents (inner_of writer.old))
        (W.contents (inner_of writer.new)) bytes.now) }
    ensures good { OnOk result (failures_of writer.new ≡ failures_of writer.old) }
    ensures front { OnErr result ((n : ℕ) × (n < length bytes.now)
        × Appends (W.contents (inner_of writer.old)) (W.contents (inner_of writer.new))
        (take n bytes.now)) }
    ensures failed { OnErr result (FailsLast (failures_of writer.old) (failures_of writer.new)
        (has_failed writer.new)) }
    ensures rises { calls_of writer.old ≤ calls_of writer.new }
{
    let mut at = 0;
    while at < bytes.len() {
        match writer.write(&bytes[at..]) {
            Ok(0) => return Err(Unwritten),
            Ok(n) => at += n,
            Err(_) => return Err(Unwritten),
        }
    }
    Ok(())
}
