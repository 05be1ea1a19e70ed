//! What is found in a request.
ghost use Rattle.std.specs.Prelude.{◌≤◌, OnOk, vec_len};

use crate::ignored::IgnoredMembers;
use crate::lines::Lines;
use crate::place::Place;
use crate::problem::Problem;
use crate::remark::Remark;
use std::alloc::{AllocError, Global};

/// The lines about what is found in a request.
#[derive(Debug, Drop)]
pub(crate) struct Report {
    pub(crate) problems: Lines,
    pub(crate) remarks: Lines,
    pub(crate) ignored: IgnoredMembers,
    /// True if there are no remarks on ignored members.
    pub(crate) only_names: bool,
    pub(crate) alloc: Global,
}

impl Report {
    /// Creates a report without lines.
    pub(crate) fn new(alloc: Global) -> Report {
        Report {
            problems: Lines::new(alloc),
            remarks: Lines::new(alloc),
            ignored: IgnoredMembers::new(alloc),
            only_names: false,
            alloc,
        }
    }

    /// Creates a report without lines, and without remarks on ignored members.
    pub(crate) fn of_names(alloc: Global) -> Report {
        Report {
            only_names: true,
            ..Report::new(alloc)
        }
    }

    /// Appends the line of a problem.
    pub(crate) fn problem(
        &mut self,
        place: Place<'_>,
        problem: Problem<'_>,
    ) -> Result<(), AllocError>
        ensures { OnOk result (1 ≤ vec_len self.new.problems.texts) }
    {
        if self.problems.is_full() {
            self.problems.leave_out();
            return Ok(());
        }
        let alloc = self.alloc;
        let line = format!(in alloc; "{place}: {problem}")?;
        self.problems.put(line)
    }

    /// Appends the line of a remark.
    pub(crate) fn remark(&mut self, place: Place<'_>, remark: Remark) -> Result<(), AllocError> {
        if self.remarks.is_full() {
            self.remarks.leave_out();
            return Ok(());
        }
        let alloc = self.alloc;
        let line = format!(in alloc; "{place}: {remark}")?;
        self.remarks.put(line)
    }

    /// Appends the name of a member that the service ignores.
    pub(crate) fn ignore(&mut self, place: Place<'_>) -> Result<(), AllocError> {
        if self.ignored.is_cut() {
            return Ok(());
        }
        let alloc = self.alloc;
        let name = format!(in alloc; "{place}")?;
        self.ignored.put(name.as_str())
    }

    /// Returns true if a remark on an ignored member is written. Otherwise counts it as left out.
    pub(crate) fn wants_remark(&mut self) -> bool {
        if self.only_names {
            return false;
        }
        if self.remarks.is_full() {
            self.remarks.leave_out();
            return false;
        }
        true
    }
}
