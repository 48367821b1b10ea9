//! The target of the timed accesses.
ghost use Rattle.std.specs.Prelude.{◌≡◌, ◌%◌, ◌^◌, ◌<◌};

use bars::{BarWithBase, Space};
use host_bridge::Bdf;
use window_packing::{FunctionProgram, Ready, RegisterValues};

/// A function, and a memory address that is a multiple of 4 and below 2^63.
#[derive(Clone, Copy)]
pub(crate) struct Target {
    pub(crate) at: Bdf,
    pub(crate) addr: u64,
    pub(crate) ghost aligned: { addr % 4 ≡ 0 },
    pub(crate) ghost below: { addr < 2 ^ 63 },
}

/// Returns the target in a region, if it is a memory region.
fn target_if_memory(at: Bdf, placed: Option<BarWithBase>) -> Option<Target> {
    let region = placed?;
    let addr = region.base;
    if region.decl.kind().space() == Space::Mem && addr % 4 == 0 && addr < 1 << 63 {
        Some(Target { at, addr })
    } else {
        None
    }
}

/// Returns the target in a function after set-up, if it has a memory region.
fn first_memory_target(setting: &FunctionProgram) -> Option<Target> {
    match &setting.writes {
        RegisterValues::Endpoint { command: _, bases } => {
            for region in bases.iter() {
                if let Some(target) = target_if_memory(setting.at, *region) {
                    return Some(target);
                }
            }
            None
        }
        RegisterValues::Bridge {
            io: _,
            mem: _,
            pref: _,
        } => None,
    }
}

/// Returns the last target of a board in path order, which a walk over the board reaches last.
pub(crate) fn last_memory_target(ready: &Ready) -> Option<Target> {
    let mut last = None;
    for setting in ready.plan().settings() {
        if let Some(target) = first_memory_target(setting) {
            last = Some(target);
        }
    }
    last
}
