//! The limits of every board and machine.
ghost use Rattle.std.specs.Prelude.{◌≡◌};
ghost use Rattle.pciguest_c.specs.LimitsTold.{limits};

/// The largest guest image in bytes, and the largest numbers of functions, guests and other items.
#[repr(C)]
#[derive(Clone, Copy)]
pub struct LimitsRow {
    pub guest_image: u64,
    pub functions: u32,
    pub guests: u32,
    pub slots: u32,
    pub bars: u32,
    pub block: u32,
    pub own_cells: u32,
    pub reserved: [u64; 4],
}

/// Stores the limits that hold for every board and machine.
#[unsafe(no_mangle)]
pub extern "C" fn pciguest_raw_limits(told: &mut LimitsRow) -> u32
    ensures told { told.new ≡ limits }
    ensures done { result ≡ 0 }
{
    *told = LimitsRow {
        guest_image: 3_187_244,
        functions: 1024,
        guests: 32,
        slots: 32,
        bars: 6,
        block: 4096,
        own_cells: 192,
        reserved: [0; 4],
    };
    0
}
