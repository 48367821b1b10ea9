//! Reasons to refuse the assignment of a function.
ghost use Rattle.std.specs.Prelude.{◌≡◌};
ghost use Rattle.monitor.specs.Seatings.{assign_error_number};

/// The reason why a function of the board can't be assigned to a guest. Each has a number.
#[derive(Clone, Copy, Debug, PartialEq, Eq)]
pub enum AssignError {
    /// 303: the slot is above 31.
    PastSlots,
    /// 303: there is no endpoint at the path.
    NoEndpoint,
    /// 602: the function is already assigned to a guest.
    HasGuest,
    /// 602: the slot is occupied.
    SlotTaken,
    /// 206: Command disables a region of the function.
    ClosedRegion,
}

impl AssignError {
    /// Returns the number of the reason.
    pub fn number(self) -> u16
        ensures { result ≡ assign_error_number self }
    {
        match self {
            AssignError::PastSlots | AssignError::NoEndpoint => 303,
            AssignError::HasGuest | AssignError::SlotTaken => 602,
            AssignError::ClosedRegion => 206,
        }
    }
}
