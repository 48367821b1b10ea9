//! The changes to a board when the monitor takes it over from firmware.
ghost use Rattle.std.specs.Prelude.{◌≡◌, map};
ghost use Rattle.model_guests.specs.AgreedBoard.{agreed_function};
ghost use Rattle.bridge_forward.specs.Lending.{with_endpoint_reset};
ghost use Rattle.host_bridge.specs.HostState.{with_functions};
ghost use Rattle.window_packing.specs.Readies.{board_below};
ghost use Rattle.monitor.specs.Beginnings.{world_on};
ghost use Rattle.model_handoff.specs.Handoffs.{taken_over, files_given};

use accesses::GuestDecl;
use host_bridge::Host;
use paths::Path;

/// Resets the endpoint at a path, except for the registers that guests have copies of. Does nothing
/// if there is no endpoint.
fn reset_uncopied_at_path(host: &mut Host, path: &Path)
    ensures { host.new
        ≡ with_functions (with_endpoint_reset path.now host.old.state.functions) host.old }
{
    let Some(index) = host.index_of(path) else {
        return;
    };
    host.reset_except_routing_nth(index);
}

/// Resets the endpoints at these paths, except for the registers that guests have copies of.
fn reset_uncopied_at_paths(host: &mut Host, paths: &[Path])
    ensures { let files = files_given (board_below host.old) paths.now in
        host.new ≡ with_functions
        (map (agreed_function files) host.old.state.functions) host.old }
{
    for path in paths {
        reset_uncopied_at_path(host, path);
    }
}

/// Resets each function that is about to be assigned to a guest, but keeps the registers that
/// guests have copies of as firmware set them. Clears CONFIG_ADDRESS.
pub(crate) fn reset_assigned_for_handover(host: &mut Host, decls: &[GuestDecl])
    ensures { let w = world_on host.old decls.now in
        host.new ≡ record host.old { state = taken_over w host.old.state } }
{
    for decl in decls {
        reset_uncopied_at_paths(host, decl.slots.as_slice());
    }
    host.clear_latch();
}
