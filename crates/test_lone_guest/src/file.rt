//! Register files: slices of consecutive bytes. Accesses past the end read 0 or are dropped.
use crate::register::Register;

/// Declares a little-endian register of `width` bytes at an offset.
pub(crate) fn declare_register(
    file: &mut [Register],
    off: usize,
    width: usize,
    value: u64,
    writable: u64,
    w1c: u64,
) {
    let values = value.to_le_bytes();
    let writable = writable.to_le_bytes();
    let w1c = w1c.to_le_bytes();
    for (i, register) in file.iter_mut().skip(off).take(width).enumerate() {
        let byte = |bytes: &[u8]| bytes.get(i).copied().unwrap_or(0);
        *register = Register::new(byte(&values), byte(&writable), byte(&w1c));
    }
}

/// Reads the little-endian number of `width` bytes at an offset.
pub(crate) fn read(file: &[Register], off: u64, width: u64) -> u32 {
    let mut bytes = [0u8; 4];
    let registers = file.iter().skip(off as usize).take(width as usize);
    for (byte, register) in bytes.iter_mut().zip(registers) {
        *byte = register.value();
    }
    u32::from_le_bytes(bytes)
}

/// Writes the little-endian number of `width` bytes at an offset.
pub(crate) fn write(file: &mut [Register], off: u64, width: u64, value: u32) {
    let registers = file.iter_mut().skip(off as usize).take(width as usize);
    for (register, byte) in registers.zip(value.to_le_bytes()) {
        register.write(byte);
    }
}

/// Sets W1C bits of the byte at an offset, as its device does.
pub(crate) fn raise(file: &mut [Register], off: u64, mask: u8) {
    if let Some(register) = file.get_mut(off as usize) {
        register.raise(mask);
    }
}

pub(crate) fn reset(file: &mut [Register]) {
    for register in file.iter_mut() {
        register.reset();
    }
}
