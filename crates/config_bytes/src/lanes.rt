//! Converts accesses of 1, 2 or 4 bytes to byte enables and byte lanes of the containing word (PCI
//! Local Bus 3.0, chapter 3.2.2). The offsets may be in configuration space, I/O or memory, because
//! only their lowest two bits matter.
ghost use Rattle.std.specs.Prelude.{◌≡◌, ◌/◌, ◌%◌, ◌^◌};
ghost use Rattle.model_registers.specs.{Registers.all_ones, ByteEnables.{IsWidth, LiesInWord, enables_of, to_lanes, from_lanes}};

/// Returns the byte enables for `width` bytes at `off`. Bit 0 enables the lowest byte of the word.
pub fn enables_of(off: u64, width: u64) -> u8
    requires { LiesInWord off width }
    ensures { result ≡ enables_of off width }
{
    ((1 << width) - 1) << (off % 4)
}

/// Shifts a value into the byte lanes from `off` on. Bytes that don't fit into the word are lost.
pub fn to_lanes(off: u64, value: u32) -> u32
    ensures { result ≡ to_lanes off value }
{
    value << (8 * (off % 4))
}

/// Extracts the value of `width` bytes in the byte lanes from `off` on.
pub fn from_lanes(off: u64, width: u64, word: u32) -> u32
    requires { LiesInWord off width }
    ensures { result ≡ from_lanes off width word }
{
    let mask = (1u64 << (8 * width)) - 1;
    ((u64::from(word) >> (8 * (off % 4))) & mask) as u32
}

/// Shifts a word down so that the byte lane of `off` becomes the lowest. If `word` was read with
/// the byte enables of an access, the result is the value that the access reads. No mask is needed,
/// because disabled bytes read 0.
pub fn shift_lanes_down(off: u64, word: u32) -> u32
    ensures { result ≡ word / 256 ^ (off % 4) }
{
    word >> (8 * (off % 4))
}

/// Returns the value of an unclaimed read of 1, 2 or 4 bytes: all ones.
pub fn all_ones(width: u64) -> u32
    requires { IsWidth width }
    ensures { result ≡ all_ones width }
{
    match width {
        1 => 0xff,
        2 => 0xffff,
        _ => 0xffff_ffff,
    }
}
