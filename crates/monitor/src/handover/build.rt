//! Construction of a monitor from a board and its guests.
ghost use Rattle.std.specs.Prelude.{◌≡◌, IfOk, IfErr};
ghost use Rattle.model_guests.specs.{World.HasLawfulGuests, WorldNow.world_over};
ghost use Rattle.model_handoff.specs.{AfterSetUp.world_at_first, Handoffs.{IsHandoff, taken_over}, Regions.CanBeGiven, Changes.BeginsIn};
ghost use Rattle.model_images.specs.SavedLaws.{CanBeSaved};
ghost use Rattle.monitor.specs.Beginnings.{world_on, world_of};

use crate::engine::Engine;
use crate::handover::guest_records::{build_guests, guest_names};
use crate::handover::takeover::reset_assigned_for_handover;
use accesses::GuestDecl;
use host_bridge::{Host, Route};
use images::prove_board_can_be_saved;
use std::alloc::{AllocError, Global};
use window_packing::Ready;

impl<R: Route + Drop> Engine<R> {
    /// Assigns functions of a consistently routed board to guests, over a route that fits the
    /// board. None of their regions may be disabled. Resets each assigned function, except for the
    /// registers that guests have copies of, and clears CONFIG_ADDRESS. Fails only if memory is
    /// exhausted, and then returns the board unchanged. Reads all declarations first, which
    /// establishes that all guests can be saved.
    pub fn hand_over_with_route(
        alloc: Global,
        host: Host,
        route: R,
        guests: &[GuestDecl],
    ) -> Result<Engine<R>, Host>
        requires fits { R.fits route host }
        requires handoff { IsHandoff host.state }
        requires lawful { HasLawfulGuests (world_on host guests.now) }
        requires given { CanBeGiven (world_on host guests.now) host.state }
        ensures made { let w = world_on host guests.now in
            IfOk result (BeginsIn (λ v. v ≡ world_over w (taken_over w host.state))) }
        ensures savable { IfOk result (λ m. CanBeSaved m.world) }
        ensures kept { IfErr result (λ h. h ≡ host) }
    {
        prove_board_can_be_saved(&host);
        let Ok(kept) = build_guests(alloc, &host, guests) else {
            return Err(host);
        };
        let mut host = host;
        reset_assigned_for_handover(&mut host, guests);
        Ok(Engine::from_parts(host, route, guest_names(guests), kept))
    }

    /// Assigns functions to guests on a board that set-up has configured, over a route that fits
    /// the board. Fails only if memory is exhausted, and then drops the board.
    pub fn new_with_route(
        alloc: Global,
        ready: Ready,
        route: R,
        guests: &[GuestDecl],
    ) -> Result<Engine<R>, AllocError>
        requires fits { R.fits route ready.host }
        requires lawful { HasLawfulGuests (world_of ready guests.now) }
        ensures made { IfOk result (BeginsIn (λ v.
            v ≡ world_at_first (world_of ready guests.now))) }
        ensures savable { IfOk result (λ m. CanBeSaved m.world) }
    {
        let (host, _table, _plan) = ready.into_parts();
        match Engine::hand_over_with_route(alloc, host, route, guests) {
            Ok(engine) => Ok(engine),
            Err(_host) => Err(AllocError),
        }
    }
}
