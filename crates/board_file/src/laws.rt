//! Theorems about problems, refusals and accepted files.
ghost use Rattle.board_file.specs.{RefusalLaws.{ProblemsBreakChecks, RefusalsHaveProblems}, DeviceLaws.AcceptedDevicesAreBelowLimit};

/// Proves that a document that is refused with a fault has at least one problem with that fault.
pub fn refusals_have_problems()
    ensures { RefusalsHaveProblems }
{}

/// Proves that a document that passes a check has no problem with the fault of that check.
pub fn problems_break_checks()
    ensures { ProblemsBreakChecks }
{}

/// Proves that no function of an accepted file has a device above 15, unless the file has
/// `devices = 32`.
pub fn accepted_devices_are_below_limit()
    ensures { AcceptedDevicesAreBelowLimit }
{}
