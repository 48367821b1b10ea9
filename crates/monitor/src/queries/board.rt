//! Access to the monitor's board, and a new copy of the board at reset.
ghost use Rattle.std.specs.Prelude.{◌≡◌, ◌≤◌, IfOk, length, map};
ghost use Rattle.model_board.specs.AtReset.{board_at, IsAtReset};
ghost use Rattle.model_guests.specs.{World.IsLawfulWorld, WorldNow.{board_state, names_now}};
ghost use Rattle.model_handoff.specs.Handoffs.{IsHandoff};
ghost use Rattle.monitor.specs.{Beginnings.{with_no_slots, world_on}, Views.texts};

use crate::engine::Engine;
use accesses::{GuestDecl, Names};
use arrayvec::ArrayVec;
use host_bridge::{Host, Route};
use std::alloc::{AllocError, Global};

/// Returns guests with these names and with empty slots.
fn guests_with_empty_slots(alloc: Global, names: &Names) -> Result<Vec<GuestDecl>, AllocError>
    ensures guests { IfOk result (λ v. v.items ≡ map with_no_slots (texts names.now)) }
    ensures few { IfOk result (λ v. length v.items ≤ 32) }
{
    let mut guests = Vec::with_capacity(alloc, names.len())?;
    for name in names.as_slice() {
        guests.push(GuestDecl {
            name: *name,
            slots: ArrayVec::new(),
        })?;
    }
    Ok(guests)
}

impl<R: Route> Engine<R> {
    /// Returns the board. It shows guests' functions as they are now, except for the registers that
    /// guests have copies of.
    pub fn host(&self) -> &Host
        ensures state { result.now.state ≡ board_state self.now.world }
        ensures handoff { IsHandoff result.now.state }
    {
        let _ = &self.names;
        &self.host
    }

    /// Returns a new copy of the board at reset, and declares guests that have this monitor's names
    /// and empty slots.
    pub fn anew(&self, alloc: Global) -> Result<(Host, Vec<GuestDecl>), AllocError>
        ensures board { let board = board_at (board_state self.now.world).functions in
            IfOk result (λ r. board_at r.0.state.functions ≡ board) }
        ensures at_reset { IfOk result (λ r. IsAtReset r.0.state) }
        ensures guests { IfOk result (λ r.
            r.1.items ≡ map with_no_slots (names_now self.now.world)) }
        ensures lawful { IfOk result (λ r. IsLawfulWorld (world_on r.0 r.1.items)) }
    {
        let host = self.host.copy_at_reset(alloc)?;
        let guests = guests_with_empty_slots(alloc, &self.names)?;
        Ok((host, guests))
    }
}
