//! The reasons why a report, or the line of a cell, failed.
use grid_core::token::TokenFault;
use std::alloc::AllocError;

/// The reason why a report failed.
#[derive(Clone, Copy, Debug, PartialEq, Eq)]
pub enum ReportFault {
    /// The space returned a fault.
    Space,
    /// Memory ran out.
    Memory,
}

impl ReportFault {
    ghost use Rattle.std.specs.Prelude.{◌≡◌};
    ghost use Rattle.dss_report.specs.Fault.{name_of, number_of};

    /// Returns its number, 1 or 2.
    pub fn number(self) -> u8
        ensures { result ≡ number_of self }
    {
        match self {
            ReportFault::Space => 1,
            ReportFault::Memory => 2,
        }
    }

    /// Returns its name, as written here.
    pub fn name(self) -> &'static str
        ensures { result.now ≡ name_of self }
    {
        match self {
            ReportFault::Space => "Space",
            ReportFault::Memory => "Memory",
        }
    }
}

impl From<AllocError> for ReportFault {
    ghost use Rattle.std.specs.Prelude.{◌≡◌};
    ghost use Rattle.dss_report.specs.declared.fault.ReportFault.TheVariants.{Memory};

    ghost from_gives = { λ _ fault. fault ≡ Memory };

    fn from(_refused: AllocError) -> ReportFault {
        ReportFault::Memory
    }
}

/// The reason why the line of a cell failed.
#[derive(Clone, Copy, Debug, PartialEq, Eq)]
pub enum CellFault {
    /// The text is no token.
    Token(TokenFault),
    /// Memory ran out.
    Memory,
}

impl From<TokenFault> for CellFault {
    ghost use Rattle.std.specs.Prelude.{◌≡◌};
    ghost use Rattle.dss_report.specs.declared.fault.CellFault.TheVariants.{Token};

    ghost from_gives = { λ why fault. fault ≡ Token why };

    fn from(why: TokenFault) -> CellFault {
        CellFault::Token(why)
    }
}

impl From<AllocError> for CellFault {
    ghost use Rattle.std.specs.Prelude.{◌≡◌};
    ghost use Rattle.dss_report.specs.declared.fault.CellFault.TheVariants.{Memory};

    ghost from_gives = { λ _ fault. fault ≡ Memory };

    fn from(_refused: AllocError) -> CellFault {
        CellFault::Memory
    }
}
