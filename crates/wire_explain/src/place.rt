//! Places in a request.
use std::fmt;

// The maximum length of a name that is printed.
const MAX_NAME_BYTES: usize = 64;

/// A place in a request: a parameter of the path, the body, or a part of the body.
///
/// `Display` writes it like `extents[1].cells[3]`.
#[derive(Clone, Copy, Debug)]
pub(crate) struct Place<'a> {
    // a parameter in braces, `body`, or a member of the body
    top: &'a str,
    item: Option<usize>,
    member: Option<&'a str>,
    inner_item: Option<usize>,
}

// A name, as it is printed: on one line, and cut if it is long.
#[derive(Clone, Copy, Debug)]
struct Name<'a>(&'a str);

// Returns true if the name needs no quotes.
fn is_plain(name: &str) -> bool {
    !name.is_empty()
        && name.as_bytes().iter().all(|b| b.is_ascii_alphanumeric()
            || *b == b'_'
            || *b == b'-'
            || *b == b'{'
            || *b == b'}')
}

impl fmt::Display for Name<'_> {
    fn fmt<W: fmt::Write>(&self, f: &mut fmt::Formatter<W>) -> fmt::Result {
        let name = self.0;
        let length = name.len();
        if length > MAX_NAME_BYTES {
            return write!(f, "(a name of {length} bytes)");
        }
        if is_plain(name) {
            return f.write_str(name);
        }
        write!(f, "{name:?}")
    }
}

impl<'a> Place<'a> {
    /// Returns the place with this name.
    pub(crate) fn named(name: &'a str) -> Place<'a> {
        Place {
            top: name,
            item: None,
            member: None,
            inner_item: None,
        }
    }

    /// Returns the whole body.
    pub(crate) fn body() -> Place<'static> {
        Place::named("body")
    }

    /// Returns the member of an object at this place.
    pub(crate) fn member(self, name: &'a str) -> Place<'a> {
        Place {
            member: Some(name),
            inner_item: None,
            ..self
        }
    }

    /// Returns the item of an array at this place.
    pub(crate) fn item(self, index: usize) -> Place<'a> {
        match self.member {
            Some(_) => Place {
                inner_item: Some(index),
                ..self
            },
            None => Place {
                item: Some(index),
                ..self
            },
        }
    }
}

impl fmt::Display for Place<'_> {
    fn fmt<W: fmt::Write>(&self, f: &mut fmt::Formatter<W>) -> fmt::Result {
        let top = Name(self.top);
        write!(f, "{top}")?;
        if let Some(index) = self.item {
            write!(f, "[{index}]")?;
        }
        if let Some(name) = self.member {
            let member = Name(name);
            write!(f, ".{member}")?;
        }
        if let Some(index) = self.inner_item {
            write!(f, "[{index}]")?;
        }
        Ok(())
    }
}
