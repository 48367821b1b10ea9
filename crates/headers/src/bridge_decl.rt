//! The declaration of a bridge.
ghost use Rattle.std.specs.{Prelude.{◌≡◌, IfOk, option_map}, Result.result_err};
ghost use Rattle.model_registers.specs.{Declarations.plain_bridge, DeclarationRules.{first_broken, is_fixed_status, bridge_rules, IsLawfulBridge}};
ghost use Rattle.headers.specs.{Decodes.{io_decode_of, pref_decode_of}, Faults.number_of};

use crate::decodes::{IoDecode, PrefDecode};
use crate::fault::DeclFault;
use std::marker::Model;

/// A valid declaration of a bridge. The Vendor ID isn't FFFFh.
#[derive(Clone, Copy, Debug)]
pub struct BridgeDecl {
    vendor: u16,
    device: u16,
    revision: u8,
    status: u16,
    secondary_status: u16,
    multifunction: bool,
    io: IoDecode,
    pref: PrefDecode,
}

impl Model for BridgeDecl {
    ghost use Rattle.model_registers.specs.{Declarations.Bridge, DeclarationRules.IsLawfulBridge};
    ghost use Rattle.headers.specs.{Decodes.{named_io_decode, named_pref_decode}, BridgeDecls.bridge_of};

    ghost Value = { Bridge };

    ghost view = { bridge_of };

    ghost invariant = { λ d. IsLawfulBridge (bridge_of d) };

    ghost inverse = { λ v. record {
      vendor = v.vendor;
      device = v.device;
      revision = v.revision;
      status = v.status;
      secondary_status = v.secondary_status;
      multifunction = v.multifunction;
      io = named_io_decode v.io;
      pref = named_pref_decode v.pref;
    } };
}

/// Returns whether only bits of Status are set that a declaration may set: 5 to 7, 9 and 10. They
/// are read-only.
fn is_fixed_status(status: u16) -> bool
    ensures { result ≡ is_fixed_status status }
{
    status & 0x06e0 == status
}

impl BridgeDecl {
    /// Returns the declaration with these values. All bits of Status and Secondary Status are 0 at
    /// reset, and the header type may have bit 7 set. Refuses Vendor ID FFFFh with error 104.
    pub fn new(
        vendor: u16,
        device: u16,
        revision: u8,
        io: IoDecode,
        pref: PrefDecode,
    ) -> Result<BridgeDecl, DeclFault>
        ensures refused { option_map number_of (result_err result)
            ≡ first_broken
            (bridge_rules
            (plain_bridge vendor device revision (io_decode_of io) (pref_decode_of pref))) }
        ensures declared { IfOk result (λ d.
            d ≡ plain_bridge vendor device revision (io_decode_of io) (pref_decode_of pref)) }
        ensures lawful { IfOk result IsLawfulBridge }
    {
        if vendor == 0xffff {
            return Err(DeclFault::Number);
        }
        Ok(BridgeDecl {
            vendor,
            device,
            revision,
            status: 0,
            secondary_status: 0,
            multifunction: true,
            io,
            pref,
        })
    }

    /// Returns the declaration with these read-only bits in Status and Secondary Status. Refuses
    /// bits other than 5 to 7, 9 and 10 with error 104.
    pub fn with_fixed_status(
        self,
        status: u16,
        secondary_status: u16,
    ) -> Result<BridgeDecl, DeclFault>
        ensures refused { option_map number_of (result_err result)
            ≡ first_broken
            (bridge_rules
            (record self { status = status; secondary_status = secondary_status })) }
        ensures declared { IfOk result (λ d.
            d ≡ record self { status = status; secondary_status = secondary_status }) }
        ensures lawful { IfOk result IsLawfulBridge }
    {
        if !(is_fixed_status(status) && is_fixed_status(secondary_status)) {
            return Err(DeclFault::Number);
        }
        Ok(BridgeDecl {
            status,
            secondary_status,
            ..self
        })
    }

    /// Returns the declaration with bit 7 of the header type as declared for functions 1 to 7.
    pub fn with_multifunction(self, multifunction: bool) -> BridgeDecl
        ensures declared { result ≡ record self { multifunction = multifunction } }
        ensures lawful { IsLawfulBridge result }
    {
        BridgeDecl {
            multifunction,
            ..self
        }
    }

    /// Returns the Vendor ID.
    pub fn vendor(&self) -> u16
        ensures value { result ≡ self.now.vendor }
        ensures lawful { IsLawfulBridge self.now }
    {
        self.vendor
    }

    /// Returns the Device ID.
    pub fn device(&self) -> u16
        ensures { result ≡ self.now.device }
    {
        self.device
    }

    /// Returns the Revision ID.
    pub fn revision(&self) -> u8
        ensures { result ≡ self.now.revision }
    {
        self.revision
    }

    /// Returns the read-only bits of Status.
    pub fn status(&self) -> u16
        ensures { result ≡ self.now.status }
    {
        self.status
    }

    /// Returns the read-only bits of Secondary Status.
    pub fn secondary_status(&self) -> u16
        ensures { result ≡ self.now.secondary_status }
    {
        self.secondary_status
    }

    /// Returns whether functions 1 to 7 of a device have bit 7 of the header type set.
    pub fn multifunction(&self) -> bool
        ensures { result ≡ self.now.multifunction }
    {
        self.multifunction
    }

    /// Returns the decode mode of the I/O window.
    pub fn io(&self) -> IoDecode
        ensures { io_decode_of result ≡ self.now.io }
    {
        self.io
    }

    /// Returns the decode mode of the prefetchable memory window.
    pub fn pref(&self) -> PrefDecode
        ensures { pref_decode_of result ≡ self.now.pref }
    {
        self.pref
    }
}
