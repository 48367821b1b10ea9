//! Comparison of the bytes of a saved state with a function assigned to a guest.
ghost use Rattle.std.specs.Prelude.{◌≡◌, Ok, Err, IfErr, IfOk};
ghost use Rattle.images.specs.{Faults.number_of, Shown.after_filled};

use crate::comparing::strip_declaration;
use crate::fault::ImageFault;
use crate::heading::strip_slot_tag;
use crate::values::strip_fitting_values_of_endpoint;
use bridge_forward::EndpointFn;

/// Strips a slot that contains this function, with any values that its registers can hold, and
/// returns the rest. Refuses with 906 if the slot is empty or its function has a different
/// declaration, or with 905 if the bytes end early or a register can't hold its value.
pub fn strip_fitting_slot<'a>(
    endpoint: &EndpointFn,
    bytes: &'a [u8],
) -> Result<&'a [u8], ImageFault>
    ensures left { IfOk result (λ rest.
        after_filled endpoint.now.decl bytes.now ≡ Ok rest.now) }
    ensures refused { IfErr result (λ why.
        after_filled endpoint.now.decl bytes.now ≡ Err (number_of why)) }
{
    let decl = endpoint.decl();
    let bytes = strip_slot_tag(true, bytes)?;
    let bytes = strip_declaration(decl, bytes)?;
    strip_fitting_values_of_endpoint(decl, bytes)
}
