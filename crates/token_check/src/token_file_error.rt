//! The errors for which the reader of token files rejects a file.
ghost use Rattle.std.specs.Prelude.{◌≡◌};
ghost use Rattle.token_check.specs.TokenFileError.{fault_of};

use token_conf::conf_fault::ConfFault;

/// An error of a token file. Tables are counted from 0, in the order of the list `token`.
#[derive(Clone, Copy, Debug, PartialEq, Eq)]
pub enum TokenFileError {
    /// The text is not TOML.
    Toml,
    /// The salt is missing or invalid.
    Salt,
    /// `token` is no list.
    List,
    /// This item is no table, or has no `text` of 1 to 255 visible bytes.
    Token(usize),
    /// This table has no `uss` that is a valid id of a USS.
    Uss(usize),
    /// This table has no list of texts `scopes`.
    Scopes(usize),
    /// This table has the `text` of an earlier one, whose index is the second number.
    Repeated(usize, usize),
}

impl TokenFileError {
    /// Returns the fault that the reader of token files returns if this is the first error.
    pub fn fault(self) -> ConfFault
        ensures { result ≡ fault_of self }
    {
        match self {
            TokenFileError::Toml => ConfFault::Toml,
            TokenFileError::Salt => ConfFault::Salt,
            TokenFileError::List | TokenFileError::Token(_) => ConfFault::Token,
            TokenFileError::Uss(_) => ConfFault::Uss,
            TokenFileError::Scopes(_) => ConfFault::Scopes,
            TokenFileError::Repeated(_, _) => ConfFault::Repeated,
        }
    }
}
