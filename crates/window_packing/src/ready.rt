//! Set-up: enumeration, placement and programming of a board.
ghost use Rattle.std.specs.Prelude.{◌≡◌, ◌⊎◌, IfOk, IfErr, None, Some};
ghost use Rattle.model_registers.specs.DeclarationRules.{first_broken};
ghost use Rattle.model_board.specs.AtReset.{IsAtReset};
ghost use Rattle.model_set_up.specs.{SetUp.set_up_state, SetUpWrites.set_up_rules};
ghost use Rattle.bus_scan.specs.{Faults.number_of, declared.fault.Fault.TheVariants.{Buses, Memory}};

use crate::board_plan::Plan;
use crate::planning::plan;
use crate::programming::program;
use bus_scan::{Fault, FunctionTable, scan, size_all};
use host_bridge::Host;
use std::alloc::Global;
use std::marker::Model;

/// A board after set-up: the host with all regions and windows placed and enabled, the table of its
/// functions, and the plan with the addresses.
#[derive(Drop)]
pub struct Ready {
    host: Host,
    table: FunctionTable,
    plan: Plan,
}

impl Model for Ready {
    ghost use Rattle.window_packing.specs.Readies.{ReadyBoard, IsReady};

    ghost Value = { ReadyBoard };

    ghost view = { λ r. record { host = r.host; table = r.table; plan = r.plan } };

    ghost invariant = { λ r. IsReady (record { host = r.host; table = r.table; plan = r.plan }) };
}

impl Ready {
    ghost use Rattle.window_packing.specs.Readies.{IsReady, OwnClaims};

    /// Returns the host, with all regions and windows placed and enabled.
    pub fn host(&self) -> &Host
        ensures value { result.now ≡ self.now.host }
        ensures ready { IsReady self.now }
    {
        &self.host
    }

    /// Returns the table of functions.
    pub fn table(&self) -> &FunctionTable
        ensures value { result.now ≡ self.now.table }
        ensures ready { IsReady self.now }
    {
        &self.table
    }

    /// Returns the plan: the addresses of all regions and windows, and the register values that
    /// were written.
    pub fn plan(&self) -> &Plan
        ensures value { result.now ≡ self.now.plan }
        ensures ready { IsReady self.now }
    {
        &self.plan
    }

    /// Splits the board into its host, table and plan. As long as the routing registers don't
    /// change, each byte of a placed region is claimed by that region, and all other addresses are
    /// unclaimed.
    pub fn into_parts(self) -> (Host, FunctionTable, Plan)
        ensures parts { result ≡ (self.host, self.table, self.plan) }
        ensures ready { IsReady self }
        ensures claims { OwnClaims self.host }
    {
        (self.host, self.table, self.plan)
    }
}

ghost use Rattle.window_packing.specs.Readies.{board_below, IsEnumerated, OwnClaims};

/// Enumerates a board at reset: finds its functions, assigns bus numbers, and sizes regions and
/// windows. Fails if memory is exhausted, or with error 201 if the board has more than 255 bridges.
pub fn enumerate(alloc: Global, host: &mut Host) -> Result<FunctionTable, Fault>
    requires { IsAtReset host.old.state }
    ensures found { IfOk result (λ t. IsEnumerated host.old host.new t) }
    ensures fault { IfErr result (λ f. (f ≡ Memory) ⊎ (f ≡ Buses)) }
    ensures refused { IfErr result (λ f. (f ≡ Memory) ⊎
        (first_broken (set_up_rules (board_below host.old) host.old.apertures)
        ≡ Some (number_of f))) }
{
    let mut table = scan(alloc, host)?;
    size_all(host, &mut table);
    Ok(table)
}

/// Sets up the board of a host at reset: enumerates, sizes, places and programs, in that order.
/// Fails if memory is exhausted, or with the lowest error 2xx that applies. The host
/// is dropped on failure.
pub fn set_up(alloc: Global, host: Host) -> Result<Ready, Fault>
    requires { IsAtReset host.state }
    ensures ready { IfOk result (λ r.
        r.host ≡ record host { state = set_up_state (board_below host) host.apertures }) }
    ensures board { IfOk result (λ r. board_below r.host ≡ board_below host) }
    ensures kept { IfOk result (λ _.
        first_broken (set_up_rules (board_below host) host.apertures) ≡ None) }
    ensures claims { IfOk result (λ r. OwnClaims r.host) }
    ensures refused { IfErr result (λ f. (f ≡ Memory) ⊎
        (first_broken (set_up_rules (board_below host) host.apertures) ≡ Some (number_of f))) }
{
    let mut host = host;
    let table = enumerate(alloc, &mut host)?;
    let apertures = host.apertures();
    let plan = plan(alloc, &table, &apertures)?;
    program(&mut host, &plan);
    Ok(Ready { host, table, plan })
}
