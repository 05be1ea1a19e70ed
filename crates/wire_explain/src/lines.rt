//! Lines of text, up to a maximum number.
ghost use Rattle.std.specs.Prelude.{◌≤◌, ◌≡◌, ◌==◌, ◌↔◌, IfOk, IsTrue, OnOk, vec_len};

use std::alloc::{AllocError, Global};

// The maximum number of lines. Further ones are counted.
const MAX_LINES: usize = 100;

/// Lines of text, and the number of those that are left out.
#[derive(Debug, Drop)]
pub(crate) struct Lines {
    texts: Vec<String>,
    left_out: usize,
}

impl Lines {
    /// Returns no lines.
    pub(crate) fn new(alloc: Global) -> Lines {
        Lines {
            texts: Vec::new(alloc),
            left_out: 0,
        }
    }

    /// Returns true if there is no line.
    pub(crate) fn is_empty(&self) -> bool
        ensures { result ≡ (vec_len self.now.texts == 0) }
    {
        self.texts.is_empty()
    }

    /// Returns true if a further line is left out.
    pub(crate) fn is_full(&self) -> bool
        ensures { IsTrue result ↔ (100 ≤ vec_len self.now.texts) }
    {
        self.texts.len() >= MAX_LINES
    }

    /// Appends a line.
    pub(crate) fn put(&mut self, line: String) -> Result<(), AllocError>
        ensures { OnOk result (1 ≤ vec_len self.new.texts) }
    {
        self.texts.push(line)?;
        Ok(())
    }

    /// Counts a line that is left out.
    pub(crate) fn leave_out(&mut self)
        ensures { vec_len self.new.texts ≡ vec_len self.old.texts }
    {
        self.left_out = self.left_out.saturating_add(1);
    }

    /// Returns the lines, and as the last one the number of those that are left out.
    pub(crate) fn into_texts(self, alloc: Global) -> Result<Vec<String>, AllocError>
        ensures { IfOk result (λ texts. vec_len self.texts ≤ vec_len texts) }
    {
        let Lines {
            mut texts,
            left_out,
        } = self;
        if left_out > 0 {
            texts.push(format!(in alloc; "and {left_out} more")?)?;
        }
        Ok(texts)
    }
}
