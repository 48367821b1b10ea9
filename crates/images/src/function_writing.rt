//! Serialization of a function as its guest sees it: its declaration, followed by a byte for each
//! register byte.
ghost use Rattle.std.specs.Prelude.{◌≡◌, ◌≤◌, ◌+◌, length};
ghost use Rattle.model_registers.specs.OwnCopies.{OwnCopies};
ghost use Rattle.model_images.specs.ImageBytes.{greatest_function};
ghost use Rattle.images.specs.{Puts.put, Shown.{HasDeclaredPlaces, function_bytes, seen}};

use crate::function_values::put_all_values_and_advance;
use crate::sizes::{count_endpoint_cells, encoded_declaration_size};
use crate::writing::put_declaration_and_advance;
use bridge_forward::EndpointFn;
use guest_functions::VirtualFunction;

/// Returns the size of a function in a saved state, in bytes. The values in the guest's copies
/// don't affect the size.
pub fn saved_function_size(endpoint: &EndpointFn) -> usize
    requires { HasDeclaredPlaces endpoint.now }
    ensures size { (own : OwnCopies)
        → result ≡ length (function_bytes (seen endpoint.now own)) }
    ensures bound { result ≤ greatest_function }
{
    let decl = endpoint.decl();
    encoded_declaration_size(decl) + count_endpoint_cells(decl)
}

/// Writes a function with a guest's copies into the buffer from index `at`, and returns the index
/// after it.
pub fn put_function_and_advance(
    endpoint: &EndpointFn,
    own: &VirtualFunction,
    out: &mut [u8],
    at: usize,
) -> usize
    requires places { HasDeclaredPlaces endpoint.now }
    requires room { at + length (function_bytes (seen endpoint.now own.now)) ≤ length out.old }
    ensures bytes { out.new ≡ put at (function_bytes (seen endpoint.now own.now)) out.old }
    ensures end { result ≡ at + length (function_bytes (seen endpoint.now own.now)) }
{
    let next = put_declaration_and_advance(endpoint.decl(), out, at);
    put_all_values_and_advance(endpoint, own, out, next)
}
