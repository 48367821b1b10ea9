//! The audit and the readiness check of a board whose functions are assigned to guests.
ghost use Rattle.std.specs.Prelude.{◌≡◌, [], IfOk, map};
ghost use Rattle.model_findings.specs.{Problems.problems, ReadinessIssues.readiness_issues};
ghost use Rattle.model_guests.specs.WorldNow.{board_state};
ghost use Rattle.findings.specs.Findings.{problem_of, issue_of};

use crate::engine::Engine;
use findings::{Problem, ReadinessIssue, problems, readiness_issues};
use headers::Apertures;
use host_bridge::Route;
use std::alloc::{AllocError, Global};

impl<R: Route> Engine<R> {
    /// Returns the problems in the board's registers as they are now, and changes nothing. The list
    /// is always empty, whatever guests, their devices and the host have done.
    pub fn audit_board(&mut self, alloc: Global) -> Result<Vec<Problem>, AllocError>
        ensures told { IfOk result (λ v.
            map problem_of v.items ≡ problems (board_state self.old.world).functions) }
        ensures in_order { problems (board_state self.old.world).functions ≡ [] }
        ensures after { self.new ≡ self.old }
    {
        problems(alloc, &mut self.host)
    }

    /// Returns everything that an operating system would still have to do to the board's registers
    /// as they are now, given these apertures.
    pub fn readiness_issues(
        &self,
        alloc: Global,
        apertures: &Apertures,
    ) -> Result<Vec<ReadinessIssue>, AllocError>
        ensures told { IfOk result (λ v. map issue_of v.items
            ≡ readiness_issues apertures.now (board_state self.now.world).functions) }
    {
        readiness_issues(alloc, &self.host, apertures)
    }
}
