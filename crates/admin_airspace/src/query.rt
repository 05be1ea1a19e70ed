//! The query for a page of the airspace.
ghost use Rattle.std.specs.Prelude.{◌≤◌, IfSome};

use crate::key::Cursor;

/// The maximum number of entities and subscriptions on a page.
pub const MAX_PAGE_SIZE: usize = 500;

/// A query for a page.
#[derive(Clone, Copy, Debug)]
pub struct PageQuery {
    // The cursor after which the page begins, if given.
    pub(crate) after: Option<Cursor>,
    pub(crate) limit: usize,
}

// Parses a number from 1 to the maximum size of a page.
fn limit_in(text: &str) -> Option<usize>
    ensures { IfSome result (λ limit. limit ≤ MAX_PAGE_SIZE) }
{
    match text.parse::<usize>() {
        Ok(limit) => {
            if 1 <= limit && limit <= MAX_PAGE_SIZE {
                Some(limit)
            } else {
                None
            }
        }
        Err(_) => None,
    }
}

impl PageQuery {
    /// Parses a query of members joined by `&`: `after=KIND:ID` with a kind `intent`, `constraint`
    /// or `subscription`, and `limit=N` from 1 to [`MAX_PAGE_SIZE`].
    ///
    /// Both may be absent: the default is the first page, and the maximum size. Returns `None` if
    /// there is another member.
    pub fn read(text: &str) -> Option<PageQuery> {
        let mut query = PageQuery {
            after: None,
            limit: MAX_PAGE_SIZE,
        };
        if text.is_empty() {
            return Some(query);
        }
        for member in text.split('&') {
            let (name, value) = member.split_once('=')?;
            match name {
                "after" => query.after = Some(Cursor::read(value)?),
                "limit" => query.limit = limit_in(value)?,
                _ => return None,
            }
        }
        Some(query)
    }
}
