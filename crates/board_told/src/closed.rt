//! BARs of a guest's functions that contain an address while decoding is disabled in Command (PCI
//! Local Bus 3.0, section 6.2.5).
ghost use Rattle.std.specs.Prelude.{◌≡◌, ◌++◌, ◌<◌, map, length, IfOk, OnOk};
ghost use Rattle.model_guests.specs.Slots.{slot_at};
ghost use Rattle.model_lines.specs.WhyGuests.{closed_from};
ghost use Rattle.bars.specs.{Kinds.named_space, Slots.{placed, bases_from}};
ghost use Rattle.board_told.specs.GuestFindings.{lone_asked, base_holds, closed_at, closed_in, closed_told};

use bars::{BarWithBase, Space};
use findings::enables_space;
use monitor::Monitor;
use std::alloc::{AllocError, Global};

/// A BAR in one of a guest's slots whose address space is disabled in Command.
#[derive(Clone, Copy, Debug, PartialEq, Eq)]
pub struct ClosedInSlot {
    pub slot: usize,
    /// The index of the BAR, 0 to 5.
    pub register: usize,
    pub first: u64,
    pub size: u64,
    /// The value of the Command register.
    pub command: u16,
}

/// Returns whether a BAR contains an address of the given space.
fn contains_address(region: &BarWithBase, space: Space, addr: u64) -> bool
    ensures { result ≡ base_holds (named_space space) addr (placed 0 region.now) }
{
    region.offset_of(space, addr).is_some()
}

/// Appends each BAR of a function that contains the address, together with the function's Command
/// value.
fn add_bars_with_address(
    closed: &mut Vec<ClosedInSlot>,
    space: Space,
    addr: u64,
    slot: usize,
    command: u16,
    regions: &[Option<BarWithBase>; 6],
) -> Result<(), AllocError>
    ensures { let bases = bases_from 0 regions.now in
        OnOk result (map closed_told closed.new.items ≡ map closed_told closed.old.items
        ++ closed_at (named_space space) addr slot command bases) }
{
    for register in 0..6 {
        if let Some(region) = regions[register]
            && contains_address(&region, space, addr)
        {
            closed.push(ClosedInSlot {
                slot,
                register,
                first: region.base,
                size: region.decl.size(),
                command,
            })?;
        }
    }
    Ok(())
}

/// Appends the BARs of the function in `slot` that contain the address. Appends nothing if the slot
/// is empty or Command enables the space.
fn add_slot_bars_if_disabled(
    closed: &mut Vec<ClosedInSlot>,
    monitor: &Monitor,
    guest: usize,
    slot: usize,
    space: Space,
    addr: u64,
) -> Result<(), AllocError>
    requires { guest < length monitor.now.world.guests }
    ensures { let g = lone_asked monitor.now.world guest in
        OnOk result (map closed_told closed.new.items ≡ map closed_told closed.old.items
        ++ closed_in (named_space space) addr slot (slot_at g.slots slot)) }
{
    let Some(own) = monitor.own_registers(guest, slot) else {
        return Ok(());
    };
    if enables_space(own.command, space) {
        return Ok(());
    }
    add_bars_with_address(closed, space, addr, slot, own.command, &own.regions)
}

/// Returns every disabled BAR of a guest that contains the address, ordered by slot and then by BAR
/// index.
pub(crate) fn collect_disabled_bars(
    alloc: Global,
    monitor: &Monitor,
    guest: usize,
    space: Space,
    addr: u64,
) -> Result<Vec<ClosedInSlot>, AllocError>
    requires { guest < length monitor.now.world.guests }
    ensures { let g = lone_asked monitor.now.world guest in
        IfOk result (λ v. map closed_told v.items
        ≡ closed_from (named_space space) addr 0 g.slots) }
{
    let mut closed = Vec::new(alloc);
    for slot in 0..monitor.slots(guest) {
        add_slot_bars_if_disabled(&mut closed, monitor, guest, slot, space, addr)?;
    }
    Ok(closed)
}
