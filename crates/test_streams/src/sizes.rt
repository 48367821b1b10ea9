use bars::{Kind, size_of_mask};

/// Sizing a BAR: each row has the values that its two registers return after all ones were written
/// to them, and the kind and size that follow, or `None` if no BAR returns these values.
#[test]
fn sizes_of_masks(rt: HostRuntime) {
    let memory = |pref| Kind::Mem64 { pref };
    let rows = [
        (0xffff_ffe1, 0, Some((Kind::Io, 32))),
        (0xffff_ff01, 0, Some((Kind::Io, 256))),
        (0xffff_fe01, 0, None),
        (0x8000_0000, 0, Some((Kind::Mem32 { pref: false }, 1 << 31))),
        (0xff00_000c, 0xffff_ffff, Some((memory(true), 1 << 24))),
        (0xff00_000c, 0, None),
        (0x0000_0004, 0xffff_fffe, Some((memory(false), 1 << 33))),
        (0x0000_000c, 0xffff_ff00, Some((memory(true), 1 << 40))),
        (0xffff_fff2, 0, None),
        (0, 0, None),
    ];
    for (low, high, want) in rows {
        assert!(rt; size_of_mask(low, high) == want, "at {low:x} {high:x}");
    }
}
