//! A reader or a writer that counts its calls and its failures.
use std::io;
use std::io::{Read, Write};

/// A device with its number of calls, its number of failures, and whether its last call failed.
///
/// A failure is any error, also of an interrupted call, and a write that takes no byte. Both counts
/// stop at their maximum. No call here allocates.
#[derive(Drop)]
pub struct Counted<T> {
    inner: T,
    calls: u64,
    failures: u64,
    failed: bool,
}

impl<T> Counted<T> {
    ghost use Rattle.std.specs.Prelude.{◌≡◌, false};
    ghost use Rattle.wire_http.specs.Counted.{inner_of, calls_of, failures_of, has_failed};

    /// Creates a counted device without any calls.
    pub fn new(inner: T) -> Counted<T>
        ensures inner { inner_of result ≡ inner }
        ensures calls { calls_of result ≡ 0 }
        ensures failures { failures_of result ≡ 0 }
        ensures failed { has_failed result ≡ false }
    {
        Counted {
            inner,
            calls: 0,
            failures: 0,
            failed: false,
        }
    }

    /// Returns the number of calls.
    pub fn calls(&self) -> u64
        ensures { result ≡ calls_of self.now }
    {
        self.calls
    }

    /// Returns the number of failures.
    pub fn failures(&self) -> u64
        ensures { result ≡ failures_of self.now }
    {
        self.failures
    }

    /// Returns the device.
    pub fn into_inner(self) -> T
        ensures { result ≡ inner_of self }
    {
        let Counted {
            inner,
            calls: _,
            failures: _,
            failed: _,
        } = self;
        inner
    }
}

impl<R: Read> Read for Counted<R> {
    ghost use Rattle.std.specs.Prelude.{◌≡◌, ◌≤◌};
    ghost use Rattle.std.specs.Io.{ReadsAtMost};
    ghost use Rattle.std.specs.Io.KnownBytes.{ReadConsumes};
    ghost use Rattle.wire_http.specs.Counted.{inner_of, calls_of, failures_of, has_failed};
    ghost use Rattle.wire_http.specs.Count.{one_more, after_read, is_failed_read};

    ghost remaining = { λ c. R.remaining (inner_of c) };

    fn read(&mut self, buf: &mut [u8]) -> io::Result<usize>
        ensures bound { ReadsAtMost result buf.new }
        ensures bytes { ReadConsumes (R.remaining (inner_of self.old))
            (R.remaining (inner_of self.new)) result buf.new }
        ensures calls { calls_of self.new ≡ one_more (calls_of self.old) }
        ensures rises { calls_of self.old ≤ calls_of self.new }
        ensures failures { failures_of self.new ≡ after_read result (failures_of self.old) }
        ensures failed { has_failed self.new ≡ is_failed_read result }
    {
        self.calls = self.calls.saturating_add(1);
        self.failed = false;
        match self.inner.read(buf) {
            Ok(n) => Ok(n),
            Err(e) => {
                self.failures = self.failures.saturating_add(1);
                self.failed = true;
                Err(e)
            }
        }
    }
}

impl<W: Write> Write for Counted<W> {
    ghost use Rattle.std.specs.Prelude.{◌≡◌, ◌≤◌};
    ghost use Rattle.std.specs.Io.{WritesAtMost};
    ghost use Rattle.std.specs.Io.KnownBytes.{WriteAppends, Keeps};
    ghost use Rattle.wire_http.specs.Counted.{inner_of, calls_of, failures_of, has_failed};
    ghost use Rattle.wire_http.specs.Count.{one_more, after_write, after_flush};
    ghost use Rattle.wire_http.specs.Count.{is_failed_write, is_failed_flush};

    ghost contents = { λ c. W.contents (inner_of c) };

    fn write(&mut self, buf: &[u8]) -> io::Result<usize>
        ensures bound { WritesAtMost result buf.now }
        ensures bytes { WriteAppends (W.contents (inner_of self.old))
            (W.contents (inner_of self.new)) result buf.now }
        ensures calls { calls_of self.new ≡ one_more (calls_of self.old) }
        ensures rises { calls_of self.old ≤ calls_of self.new }
        ensures failures { failures_of self.new ≡ after_write result (failures_of self.old) }
        ensures failed { has_failed self.new ≡ is_failed_write result }
    {
        self.calls = self.calls.saturating_add(1);
        self.failed = false;
        match self.inner.write(buf) {
            Ok(0) => {
                self.failures = self.failures.saturating_add(1);
                self.failed = true;
                Ok(0)
            }
            Ok(n) => Ok(n),
            Err(e) => {
                self.failures = self.failures.saturating_add(1);
                self.failed = true;
                Err(e)
            }
        }
    }

    fn flush(&mut self) -> io::Result<()>
        ensures bytes { Keeps (W.contents (inner_of self.old)) (W.contents (inner_of self.new)) }
        ensures calls { calls_of self.new ≡ one_more (calls_of self.old) }
        ensures rises { calls_of self.old ≤ calls_of self.new }
        ensures failures { failures_of self.new ≡ after_flush result (failures_of self.old) }
        ensures failed { has_failed self.new ≡ is_failed_flush result }
    {
        self.calls = self.calls.saturating_add(1);
        self.failed = false;
        match self.inner.flush() {
            Ok(()) => Ok(()),
            Err(e) => {
                self.failures = self.failures.saturating_add(1);
                self.failed = true;
                Err(e)
            }
        }
    }
}
