//! The parts of a saved state around its functions: the header, CONFIG_ADDRESS, and the tag of each
//! slot.
ghost use Rattle.std.specs.Prelude.{◌≡◌, Ok, Err, Some, IfErr, IfOk, [], ◌∷◌, if◌then◌else◌};
ghost use Rattle.model_images.specs.{Layouts.{le_bytes, parse_number, parsed}, LoadedBytes.{after_beginning, after_bytes, after_latch, after_version, at_end, header}, ImageBytes.{magic, version}};
ghost use Rattle.images.specs.Faults.{number_of, of_version};

use crate::comparing::strip_expected_bytes;
use crate::fault::ImageFault;
use byteorder::{ByteOrder, LittleEndian};

/// The implemented bits of CONFIG_ADDRESS.
const LATCH_BITS: u32 = 0x80ff_fffc;

/// Returns the first 8 bytes of a saved state: `PCIG`, and the version of the format.
pub fn image_header_bytes() -> [u8; 8]
    ensures { result ≡ header }
{
    [b'P', b'C', b'I', b'G', 1, 0, 0, 0]
}

/// Returns the bytes of CONFIG_ADDRESS, least significant byte first.
pub fn u32_to_le_bytes(latch: u32) -> [u8; 4]
    ensures { result ≡ le_bytes 4 latch }
{
    let mut bytes = [0; 4];
    LittleEndian::write_u32(&mut bytes, latch);
    bytes
}

/// Maps a mismatch (906) to the fault for a different version (908), and returns other faults
/// unchanged.
fn mismatch_to_version_fault(fault: ImageFault) -> ImageFault
    ensures { number_of result ≡ of_version (number_of fault) }
{
    match fault {
        ImageFault::OtherFunctions => ImageFault::OtherVersion,
        other => other,
    }
}

/// Strips the version of the format. Refuses bytes that end early (905) or have a different version
/// (908).
fn strip_version(version: u32, bytes: &[u8]) -> Result<&[u8], ImageFault>
    ensures left { IfOk result (λ rest. after_version version bytes.now ≡ Ok rest.now) }
    ensures refused { IfErr result (λ why.
        after_version version bytes.now ≡ Err (number_of why)) }
{
    match strip_expected_bytes(&u32_to_le_bytes(version), bytes) {
        Ok(rest) => Ok(rest),
        Err(fault) => Err(mismatch_to_version_fault(fault)),
    }
}

/// Strips the header from the front of `bytes`, and returns the rest.
pub fn strip_image_header(bytes: &[u8]) -> Result<&[u8], ImageFault>
    ensures left { IfOk result (λ rest. after_beginning magic version bytes.now ≡ Ok rest.now) }
    ensures refused { IfErr result
        (λ why. after_beginning magic version bytes.now ≡ Err (number_of why)) }
{
    match bytes.strip_prefix(b"PCIG") {
        Some(rest) => strip_version(1, rest),
        None => Err(ImageFault::NoImage),
    }
}

/// Parses CONFIG_ADDRESS, and returns it with the remaining bytes. Refuses a value with
/// unimplemented bits.
pub fn split_off_latch(bytes: &[u8]) -> Result<(u32, &[u8]), ImageFault>
    ensures left { IfOk result (λ r. after_latch bytes.now ≡ Ok r.1.now) }
    ensures latch { IfOk result (λ r. parse_number 4 bytes.now ≡ Some (parsed r.0 r.1.now)) }
    ensures refused { IfErr result (λ why. after_latch bytes.now ≡ Err (number_of why)) }
{
    if bytes.len() < 4 {
        return Err(ImageFault::NoImage);
    }
    let latch = LittleEndian::read_u32(bytes);
    if latch & LATCH_BITS != latch {
        return Err(ImageFault::NoImage);
    }
    Ok((latch, &bytes[4..]))
}

/// Strips the byte that tags a slot as filled or empty.
pub fn strip_slot_tag(is_filled: bool, bytes: &[u8]) -> Result<&[u8], ImageFault>
    ensures left { IfOk result (λ rest.
        after_bytes 906 ((if is_filled then 1 else 0) ∷ []) bytes.now ≡ Ok rest.now) }
    ensures refused { IfErr result (λ why.
        after_bytes 906 ((if is_filled then 1 else 0) ∷ []) bytes.now ≡ Err (number_of why)) }
{
    strip_expected_bytes(&[u8::from(is_filled)], bytes)
}

/// Refuses bytes that are left over at the end.
pub fn refuse_trailing_bytes(bytes: &[u8]) -> Result<(), ImageFault>
    ensures left { IfOk result (λ _. at_end bytes.now ≡ Ok []) }
    ensures refused { IfErr result (λ why. at_end bytes.now ≡ Err (number_of why)) }
{
    if bytes.is_empty() {
        Ok(())
    } else {
        Err(ImageFault::NoImage)
    }
}
