//! The rules of a board file.
ghost use Rattle.std.specs.Prelude.{◌≡◌};
ghost use Rattle.board_file.specs.RuleFaults.{row_of, fault_of, key_of};

use crate::document::keys::RegisterKey;
use crate::fault::BoardFault;

/// A rule that the entries of a board file have to keep.
#[derive(Clone, Copy, Debug)]
pub enum Rule {
    /// A required key is present.
    Needed,
    /// A value has the type of its key, or is one of the words for it.
    Form,
    /// A key is defined for its table.
    Known,
    /// The Vendor ID is at most FFFEh.
    Vendor,
    /// A number fits in its register of one byte.
    Byte(RegisterKey),
    /// A number fits in its register of two bytes.
    HalfWord(RegisterKey),
    /// The Class Code fits in its register.
    Class,
    /// The Interrupt Pin is 0 (none) or 1 to 4.
    Pin,
    /// Status has only bits of F900h, the error bits that a device can report.
    Status,
    /// The read-only bits of Status are only bits of 06E0h.
    FixedStatus,
    /// The read-only bits of Secondary Status are only bits of 06E0h.
    FixedSecondaryStatus,
    /// Bit 7 of Header Type isn't declared clear in function 0 of a device.
    Multifunction,
    /// A bus may have 16 or 32 devices.
    Devices,
    /// The register block of a BAR has at most 4096 bytes.
    BarBlock,
    /// A configuration block begins at an offset from 40h to FFh.
    ConfigOff,
    /// A configuration block has 1 to 192 bytes.
    ConfigBlock,
    /// A configuration block or a structure of a capability list ends at or below offset FFh.
    ConfigEnd,
    /// A Capability ID is 1 to FFh.
    CapabilityId,
    /// A structure begins at a multiple of 4, from 40h to FCh.
    CapabilityOff,
    /// A structure has 1 to 190 bytes after its header.
    CapabilityBlock,
    /// A path has at most 15 slashes.
    Slashes,
    /// The file has at most 1024 endpoints and bridges.
    Functions,
    /// The file has at most 32 guests.
    Guests,
    /// A guest has at most 32 slots.
    Slots,
    /// The index of a BAR is 0 to 5.
    Index,
    /// The size of a BAR is valid for its kind.
    Size,
    /// A register block isn't longer than its BAR.
    BlockFits,
    /// The name of a guest is valid.
    Name,
    /// The patterns of a BAR's register block are valid.
    BarMasks,
    /// The patterns of a configuration block or a structure are valid.
    ConfigMasks,
    /// The `at` of a function is a valid path, with devices that a bus of the file may have.
    Path,
    /// No earlier function has the same path.
    OwnPlace,
    /// A function is on bus 0 or behind a bridge of the file.
    BehindBridge,
    /// The device of a function has a function 0.
    FunctionZero,
    /// The BARs of an endpoint don't share a register, and none needs more than the six registers.
    OwnRegisters,
    /// No earlier guest has the same name.
    OwnName,
    /// A slot is the path of an endpoint.
    NamesEndpoint,
    /// No earlier slot has the same endpoint.
    OwnSlot,
    /// The I/O aperture is valid.
    IoAperture,
    /// The memory aperture is valid.
    MemAperture,
    /// The prefetchable aperture is valid and doesn't overlap the memory aperture.
    PrefAperture,
    /// A configuration block doesn't overlap an earlier one, and a structure overlaps neither a
    /// configuration block nor an earlier structure.
    OwnOffsets,
}

impl Rule {
    /// Returns the fault of a file that breaks the rule, and the key at which the problem is
    /// reported. The key is empty for rules about keys, which apply to any key, and for rules about
    /// slots, which have no key.
    fn fault_and_key(self) -> (BoardFault, &'static str)
        ensures { (result.0, result.1.now) ≡ row_of self }
    {
        match self {
            Rule::Needed => (BoardFault::Key, ""),
            Rule::Form => (BoardFault::Key, ""),
            Rule::Known => (BoardFault::UnknownKey, ""),
            Rule::Vendor => (BoardFault::Number, "vendor"),
            Rule::Byte(key) => (BoardFault::Number, key.text()),
            Rule::HalfWord(key) => (BoardFault::Number, key.text()),
            Rule::Class => (BoardFault::Number, "class"),
            Rule::Pin => (BoardFault::Number, "pin"),
            Rule::Status => (BoardFault::Number, "status"),
            Rule::FixedStatus => (BoardFault::Number, "fixed_status"),
            Rule::FixedSecondaryStatus => (BoardFault::Number, "fixed_secondary_status"),
            Rule::Multifunction => (BoardFault::Number, "multifunction"),
            Rule::Devices => (BoardFault::Number, "devices"),
            Rule::BarBlock => (BoardFault::Number, "block"),
            Rule::ConfigOff => (BoardFault::Number, "off"),
            Rule::ConfigBlock => (BoardFault::Number, "block"),
            Rule::ConfigEnd => (BoardFault::Number, "block"),
            Rule::CapabilityId => (BoardFault::Number, "id"),
            Rule::CapabilityOff => (BoardFault::Number, "off"),
            Rule::CapabilityBlock => (BoardFault::Number, "block"),
            Rule::Slashes => (BoardFault::TooMany, "at"),
            Rule::Functions => (BoardFault::TooMany, "endpoint"),
            Rule::Guests => (BoardFault::TooMany, "guest"),
            Rule::Slots => (BoardFault::TooMany, "slots"),
            Rule::Index => (BoardFault::Register, "index"),
            Rule::Size => (BoardFault::Size, "size"),
            Rule::BlockFits => (BoardFault::Size, "block"),
            Rule::Name => (BoardFault::GuestName, "name"),
            Rule::BarMasks => (BoardFault::CellMasks, "block"),
            Rule::ConfigMasks => (BoardFault::CellMasks, "block"),
            Rule::Path => (BoardFault::Place, "at"),
            Rule::OwnPlace => (BoardFault::Place, "at"),
            Rule::BehindBridge => (BoardFault::Place, "at"),
            Rule::FunctionZero => (BoardFault::Place, "at"),
            Rule::OwnRegisters => (BoardFault::Register, "bar"),
            Rule::OwnName => (BoardFault::GuestName, "name"),
            Rule::NamesEndpoint => (BoardFault::Slot, ""),
            Rule::OwnSlot => (BoardFault::Slot, ""),
            Rule::IoAperture => (BoardFault::Aperture, "io"),
            Rule::MemAperture => (BoardFault::Aperture, "mem"),
            Rule::PrefAperture => (BoardFault::Aperture, "pref"),
            Rule::OwnOffsets => (BoardFault::CellMasks, "off"),
        }
    }

    /// Returns the fault of a file that breaks the rule.
    pub fn fault(self) -> BoardFault
        ensures { result ≡ fault_of self }
    {
        self.fault_and_key().0
    }

    /// Returns the key at which a problem is reported, or an empty string if the rule isn't about
    /// one key.
    pub fn key(self) -> &'static str
        ensures { result.now ≡ key_of self }
    {
        self.fault_and_key().1
    }
}
