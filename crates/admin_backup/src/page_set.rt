//! A set of pages of a database.
use std::alloc::{AllocError, Global};

/// A set of pages, by number.
#[derive(Drop)]
pub(crate) struct PageSet {
    // True for each page in the set, by index.
    marks: Vec<bool>,
    count: usize,
    // No page before this index is in the set.
    next: usize,
}

impl PageSet {
    /// Creates an empty set.
    pub(crate) fn new(alloc: Global) -> PageSet {
        PageSet {
            marks: Vec::new(alloc),
            count: 0,
            next: 0,
        }
    }

    /// Returns the number of pages.
    pub(crate) fn len(&self) -> usize {
        self.count
    }

    /// Removes all pages.
    pub(crate) fn clear(&mut self) {
        self.marks.clear();
        self.count = 0;
        self.next = 0;
    }

    /// Adds a page.
    pub(crate) fn insert(&mut self, page: u32) -> Result<(), AllocError> {
        let place = page as usize;
        if place >= self.marks.len() {
            self.marks.resize(place.saturating_add(1), false)?;
        }
        if let Some(mark) = self.marks.get_mut(place)
            && !*mark
        {
            *mark = true;
            self.count = self.count.saturating_add(1);
            self.next = self.next.min(place);
        }
        Ok(())
    }

    /// Removes and returns the first page.
    pub(crate) fn pop(&mut self) -> Option<u32> {
        for place in self.next..self.marks.len() {
            if let Some(mark) = self.marks.get_mut(place)
                && *mark
            {
                *mark = false;
                self.count = self.count.saturating_sub(1);
                self.next = place;
                return u32::try_from(place).ok();
            }
        }
        None
    }

    /// Moves all pages of another set into this one.
    pub(crate) fn absorb(&mut self, other: &mut PageSet) -> Result<(), AllocError> {
        for _ in 0..other.len() {
            let Some(page) = other.pop() else {
                return Ok(());
            };
            self.insert(page)?;
        }
        Ok(())
    }
}
