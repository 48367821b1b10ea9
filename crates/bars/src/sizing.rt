//! Decoding of BAR sizing: from the value read back to the region's kind and size.
ghost use Rattle.std.specs.Prelude.{◌≡◌, ◌==◌, ◌+◌, ◌*◌, ◌%◌, ◌^◌, if◌then◌else◌, IfSome, Some, option_map};
ghost use Rattle.model_registers.specs.{Declarations.{Kind as model_kind, Bar, registers_of, least_size, IsLawfulSize}, EndpointTable.type_bits, Sizing.ShowsSize};
ghost use Rattle.bars.specs.Kinds.{kind_of, named_bar};

use crate::decl::{BarDecl, Kind};

/// Decodes the type bits of a region's first register. Returns `None` for reserved types.
fn kind_of_type_bits(low: u32) -> Option<Kind>
    ensures shown { IfSome result (λ k. low % least_size (kind_of k) ≡ type_bits (kind_of k)) }
    ensures found { (k : model_kind) → low % least_size k ≡ type_bits k →
        option_map kind_of result ≡ Some k }
{
    if low & 0b11 == 0b01 {
        return Some(Kind::Io);
    }
    match low & 0b1111 {
        0b0000 => Some(Kind::Mem32 { pref: false }),
        0b1000 => Some(Kind::Mem32 { pref: true }),
        0b0100 => Some(Kind::Mem64 { pref: false }),
        0b1100 => Some(Kind::Mem64 { pref: true }),
        _ => None,
    }
}

/// Joins the values of a BAR's registers into one integer.
fn join_registers(kind: Kind, low: u32, high: u32) -> u64
    ensures { result ≡ (if registers_of (kind_of kind) == 2 then high * 2 ^ 32 + low else low) }
{
    if kind.uses_two_registers() {
        (u64::from(high) << 32) | u64::from(low)
    } else {
        u64::from(low)
    }
}

/// Decodes the kind and size of a region from `low` and `high`, the values that its registers read
/// after all ones were written to them (section 6.2.5.1). `high` matters only for a 64-bit BAR.
/// Returns `None` if no region reads these values.
pub fn size_of_mask(low: u32, high: u32) -> Option<(Kind, u64)>
    ensures shown { IfSome result (λ m.
        IsLawfulSize (kind_of m.0) m.1 × ShowsSize (record { kind = kind_of m.0; size = m.1 }) low high) }
    ensures found { (b : Bar) → IsLawfulSize b.kind b.size → ShowsSize b low high
        → option_map named_bar result ≡ Some b }
{
    let kind = kind_of_type_bits(low)?;
    let base = join_registers(kind, low, high) - u64::from(kind.type_bits());
    // The two's complement, which is 0 if no base bit is set. No kind allows size 0.
    let size = (kind.bar_width_mask() - base).wrapping_add(1);
    match BarDecl::new(kind, size) {
        Ok(_) => Some((kind, size)),
        Err(_) => None,
    }
}
