//! Byte enables of registers.
ghost use Rattle.std.specs.Prelude.{◌≡◌};
ghost use Rattle.model_registers.specs.ByteEnables.{lanes, enabled_bits};

/// Returns a mask of the register bytes that bits 0 to 3 of `enables` enable.
pub fn enabled_bits(enables: u8) -> u32
    ensures { result ≡ enabled_bits (lanes enables) }
{
    let byte = |lane: u8| if enables >> lane & 1 == 1 { 0xff } else { 0 };
    u32::from_le_bytes([byte(0), byte(1), byte(2), byte(3)])
}
