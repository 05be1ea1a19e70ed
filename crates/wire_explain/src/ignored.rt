//! The members of a request that the service ignores.
use std::alloc::{AllocError, Global};

// The maximum length of the list in bytes, without the mark that some are left out.
const MAX_BYTES: usize = 1_000;

/// The names of ignored members, separated by commas: visible ASCII and spaces.
#[derive(Debug, Drop)]
pub(crate) struct IgnoredMembers {
    list: String,
    is_cut: bool,
}

impl IgnoredMembers {
    /// Returns an empty list.
    pub(crate) fn new(alloc: Global) -> IgnoredMembers {
        IgnoredMembers {
            list: String::new(alloc),
            is_cut: false,
        }
    }

    /// Returns true if a further name is left out.
    pub(crate) fn is_cut(&self) -> bool {
        self.is_cut
    }

    /// Appends a name, with `?` for what is neither visible ASCII nor a space. Leaves out this name and
    /// all further ones if it does not fit.
    pub(crate) fn put(&mut self, name: &str) -> Result<(), AllocError> {
        if self.is_cut || self.list.len() + name.len() > MAX_BYTES {
            self.is_cut = true;
            return Ok(());
        }
        if !self.list.is_empty() {
            self.list.push_str(", ")?;
        }
        for c in name.chars() {
            let is_shown = c == ' ' || c.is_ascii_graphic();
            self.list.push(if is_shown { c } else { '?' })?;
        }
        Ok(())
    }

    /// Returns the list. Its last item is `...` if some names are left out.
    pub(crate) fn into_text(self) -> Result<String, AllocError> {
        let IgnoredMembers { mut list, is_cut } = self;
        if is_cut {
            list.push_str(if list.is_empty() { "..." } else { ", ..." })?;
        }
        Ok(list)
    }
}
