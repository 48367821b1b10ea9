//! The operations of an access.

/// A read, or a write of some bytes of a value. In a configuration cycle, the byte enables select
/// these bytes. Any other access writes the lowest bytes, as many as the access is wide.
#[derive(Clone, Copy, Debug, PartialEq, Eq)]
pub enum Op {
    Read,
    Write(u32),
}

impl Op {
    ghost use Rattle.std.specs.Prelude.{◌≡◌};
    ghost use Rattle.config_bytes.specs.Ops.{is_write};

    /// Returns whether this is a write.
    pub fn is_write(self) -> bool
        ensures { result ≡ is_write self }
    {
        match self {
            Op::Read => false,
            Op::Write(_) => true,
        }
    }
}
