//! Renders the explanation of an address.
ghost use Rattle.std.specs.Prelude.{◌≡◌, ◌++◌, OnOk, Some, codes, map};
ghost use Rattle.lists.specs.Texts.{Adds};
ghost use Rattle.bars.specs.Kinds.{named_space};
ghost use Rattle.model_guests.specs.PathTexts.{path_text};
ghost use Rattle.model_lines.specs.WhyText.{hindrance_text, cause_text, causes_text, told_text, forwarder_text, claim_text, no_claim_text};
ghost use Rattle.findings.specs.WhyTold.{hindrance_told, cause_told, forwarder_told, region_told, why_told};
ghost use Rattle.findings_render.specs.WhyLines.{address_head, answer_text};

use crate::region_texts::{ShownRegion, space_name};
use crate::why_parts::{ShownDisabled, ShownWindows};
use bars::Space;
use bridge_forward::Claim;
use findings::{BlockReason, Cause, Forwarder, UnansweredRegion, Why};
use paths::Path;
use report::{ShownPath, TwoHexDigits};
use std::alloc::AllocError;
use std::fmt;

/// Displays the reason why a bridge doesn't forward an address.
#[derive(Clone, Copy)]
struct ShownHindrance {
    space: Space,
    hindrance: BlockReason,
}

impl fmt::Display for ShownHindrance {
    ghost output = { λ h. Some
        (hindrance_text (named_space h.space) (hindrance_told h.hindrance)) };

    fn fmt<W: fmt::Write>(&self, f: &mut fmt::Formatter<W>) -> fmt::Result {
        match self.hindrance {
            BlockReason::Closes { command } => {
                write!(f, "{} {}", space_name(self.space), ShownDisabled(command))
            }
            BlockReason::Misses { one, other } => write!(f, "{}", ShownWindows { one, other }),
        }
    }
}

/// Displays a bridge by its path.
#[derive(Clone, Copy)]
struct ShownBridge<'a>(&'a Path);

impl<'a> fmt::Display for ShownBridge<'a> {
    ghost output = { λ b. Some (codes "bridge " ++ path_text b.0.now) };

    fn fmt<W: fmt::Write>(&self, f: &mut fmt::Formatter<W>) -> fmt::Result {
        write!(f, "bridge {}", ShownPath(self.0))
    }
}

/// Displays a reason why a BAR doesn't answer.
#[derive(Clone, Copy)]
struct ShownCause<'a> {
    space: Space,
    cause: &'a Cause,
}

impl<'a> fmt::Display for ShownCause<'a> {
    ghost output = { λ c. Some (cause_text (named_space c.space) (cause_told c.cause.now)) };

    fn fmt<W: fmt::Write>(&self, f: &mut fmt::Formatter<W>) -> fmt::Result {
        match self.cause {
            Cause::ClosedBy { command } => {
                write!(f, "{} {}", space_name(self.space), ShownDisabled(*command))
            }
            Cause::StoppedAt { bridge, hindrance } => {
                let bridge = ShownBridge(bridge);
                let hindrance = ShownHindrance {
                    space: self.space,
                    hindrance: *hindrance,
                };
                write!(f, "{bridge} doesn't forward it: {hindrance}")
            }
        }
    }
}

/// Displays all reasons why a BAR doesn't answer, separated by semicolons.
#[derive(Clone, Copy)]
struct ShownCauses<'a> {
    space: Space,
    causes: &'a [Cause],
}

impl<'a> fmt::Display for ShownCauses<'a> {
    ghost output = { λ c. Some (causes_text (named_space c.space) (map cause_told c.causes.now)) };

    fn fmt<W: fmt::Write>(&self, f: &mut fmt::Formatter<W>) -> fmt::Result {
        let space = self.space;
        let Some((cause, more)) = self.causes.split_first() else {
            return write!(f, "decodes it too");
        };
        write!(f, "{}", ShownCause { space, cause })?;
        'more: for cause in more {
            write!(f, "; {}", ShownCause { space, cause })?;
        }
        Ok(())
    }
}

/// Displays a BAR that contains the address, with the reasons why it doesn't answer.
#[derive(Clone, Copy)]
pub(crate) struct ShownSilentBar<'a> {
    pub(crate) space: Space,
    pub(crate) told: &'a UnansweredRegion,
}

impl<'a> fmt::Display for ShownSilentBar<'a> {
    ghost output = { λ t. Some (told_text (named_space t.space) (region_told t.told.now)) };

    fn fmt<W: fmt::Write>(&self, f: &mut fmt::Formatter<W>) -> fmt::Result {
        let region = ShownRegion(&self.told.region);
        let causes = ShownCauses {
            space: self.space,
            causes: &self.told.causes,
        };
        write!(f, "{region}: {causes}")
    }
}

/// Displays the BAR and the offset at which an address is answered.
#[derive(Clone, Copy)]
struct ShownClaim<'a>(&'a Claim);

impl<'a> fmt::Display for ShownClaim<'a> {
    ghost output = { λ c. Some (claim_text c.0.now) };

    fn fmt<W: fmt::Write>(&self, f: &mut fmt::Formatter<W>) -> fmt::Result {
        let claim = self.0;
        let region = claim.region;
        let offset = claim.offset;
        write!(f, "{} bar{region}", ShownPath(&claim.path))?;
        write!(f, " responds at offset 0x{offset:x}")
    }
}

/// Returns the text for an address that no BAR answers. It differs if a bridge forwards the
/// address.
fn unclaimed_text(forwarders: &[Forwarder]) -> &'static str
    ensures { result.now ≡ no_claim_text (map forwarder_told forwarders.now) }
{
    match forwarders {
        [] => "nothing responds",
        [_, ..] => "no BAR responds",
    }
}

/// Displays the BAR that answers an address, or that none does.
#[derive(Clone, Copy)]
struct ShownAnswer<'a>(&'a Why);

impl<'a> fmt::Display for ShownAnswer<'a> {
    ghost output = { λ w. Some (answer_text (why_told w.0.now)) };

    fn fmt<W: fmt::Write>(&self, f: &mut fmt::Formatter<W>) -> fmt::Result {
        match &self.0.answer {
            Some(claim) => write!(f, "{}", ShownClaim(claim)),
            None => write!(f, "{}", unclaimed_text(&self.0.forwarders)),
        }
    }
}

/// Displays an address and the BAR that answers it.
#[derive(Clone, Copy)]
pub(crate) struct ShownAddress<'a> {
    pub(crate) space: Space,
    pub(crate) addr: u64,
    pub(crate) why: &'a Why,
}

impl<'a> fmt::Display for ShownAddress<'a> {
    ghost output = { λ a. Some (address_head (named_space a.space) a.addr (why_told a.why.now)) };

    fn fmt<W: fmt::Write>(&self, f: &mut fmt::Formatter<W>) -> fmt::Result {
        let space = space_name(self.space);
        let addr = self.addr;
        write!(f, "{space} 0x{addr:x}: {}", ShownAnswer(self.why))
    }
}

/// Appends the description of a bridge that forwards an address, with its Secondary Bus Number.
pub(crate) fn push_forwarder(text: &mut String, forwarder: &Forwarder) -> Result<(), AllocError>
    ensures { OnOk result (Adds text.old text.new
        (forwarder_text (forwarder_told forwarder.now))) }
{
    write!(text, "bridge {}", ShownPath(&forwarder.path))?;
    write!(text, " forwards it to bus {}", TwoHexDigits(forwarder.bus))
}
