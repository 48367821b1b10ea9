//! The monitor over a claim table, and the two ways to construct it.
ghost use Rattle.std.specs.Prelude.{◌≡◌, IfOk, IfErr, None};
ghost use Rattle.model_guests.specs.{World.HasLawfulGuests, WorldNow.world_over};
ghost use Rattle.model_handoff.specs.{AfterSetUp.world_at_first, Handoffs.{IsHandoff, taken_over}, Regions.{CanBeGiven, first_fault}, Changes.BeginsIn};
ghost use Rattle.model_images.specs.SavedLaws.{CanBeSaved};
ghost use Rattle.bus_scan.specs.declared.fault.Fault.TheVariants.{Memory};
ghost use Rattle.monitor.specs.{Beginnings.{world_on, world_of}, Handovers.IsFaultOf};

use crate::engine::Engine;
use crate::handover::fault::{HandoverFault, Refused, find_handover_fault};
use accesses::GuestDecl;
use bus_scan::Fault;
use claim_table::Table;
use host_bridge::Host;
use std::alloc::Global;
use window_packing::Ready;

/// A board that our own set-up or other firmware has configured, with the guests to which its
/// functions are assigned. The board holds the guests' register bytes. Everything else on it is as
/// it was at handover.
pub type Monitor = Engine<Table>;

impl Monitor {
    /// Assigns functions to guests on a board that set-up has configured. Fails only if memory is
    /// exhausted, and then drops the board.
    pub fn new(alloc: Global, ready: Ready, guests: &[GuestDecl]) -> Result<Monitor, Fault>
        requires { HasLawfulGuests (world_of ready guests.now) }
        ensures made { IfOk result (BeginsIn (λ v.
            v ≡ world_at_first (world_of ready guests.now))) }
        ensures savable { IfOk result (λ m. CanBeSaved m.world) }
        ensures refused { IfErr result (λ f. f ≡ Memory) }
    {
        let table = Table::build(alloc, &ready)?;
        Ok(Engine::new_with_route(alloc, ready, table, guests)?)
    }

    /// Hands a board over to guests, no matter which firmware configured it. Resets each assigned
    /// function, except for the registers that guests have copies of, and clears CONFIG_ADDRESS.
    /// Fails with 207 if the audit reports a problem, with 206 if a region of a function to assign
    /// is disabled, or with 299 if memory is exhausted. A failure returns the board unchanged.
    pub fn hand_over(
        alloc: Global,
        host: Host,
        guests: &[GuestDecl],
    ) -> Result<Monitor, Refused<Host>>
        requires handoff { IsHandoff host.state }
        requires lawful { HasLawfulGuests (world_on host guests.now) }
        ensures made { let w = world_on host guests.now in
            IfOk result (BeginsIn (λ v. v ≡ world_over w (taken_over w host.state))) }
        ensures savable { IfOk result (λ m. CanBeSaved m.world) }
        ensures given { IfOk result (λ _.
            first_fault (world_on host guests.now) host.state ≡ None) }
        ensures kept { IfErr result (λ r. r.board ≡ host) }
        ensures refused { IfErr result (λ r. IsFaultOf (world_on host guests.now) host r.fault) }
    {
        let mut board = host;
        if let Some(fault) = find_handover_fault(alloc, &mut board, guests) {
            return Err(Refused { board, fault });
        }
        match Monitor::hand_over_checked(alloc, board, guests) {
            Ok(monitor) => Ok(monitor),
            Err(board) => {
                let fault = HandoverFault::Memory;
                Err(Refused { board, fault })
            }
        }
    }

    /// Hands over a consistently routed board on which no region of a function to assign is
    /// disabled.
    fn hand_over_checked(alloc: Global, host: Host, guests: &[GuestDecl]) -> Result<Monitor, Host>
        requires handoff { IsHandoff host.state }
        requires lawful { HasLawfulGuests (world_on host guests.now) }
        requires given { CanBeGiven (world_on host guests.now) host.state }
        ensures made { let w = world_on host guests.now in
            IfOk result (BeginsIn (λ v. v ≡ world_over w (taken_over w host.state))) }
        ensures savable { IfOk result (λ m. CanBeSaved m.world) }
        ensures kept { IfErr result (λ h. h ≡ host) }
    {
        let Ok(table) = Table::of_enabled_regions(alloc, &host) else {
            return Err(host);
        };
        Engine::hand_over_with_route(alloc, host, table, guests)
    }
}
