//! Finds enabled BARs that are partly outside the apertures of their space.
ghost use Rattle.std.specs.{Prelude.{◌≡◌, ◌++◌, flat_map, OnOk, map}, Option.{option_map, option_to_list}};
ghost use Rattle.bars.specs.Kinds.{named_space};
ghost use Rattle.model_findings.specs.ReadinessIssues.{aperture_extent, aperture_extents, outside_issue};
ghost use Rattle.findings.specs.{Extents.{extent_of, extents_of}, Findings.issue_of};

use crate::missed_address::first_missed_address;
use crate::readiness_issue::ReadinessIssue;
use crate::region::LiveBar;
use bars::Space;
use bridge_forward::Window;
use headers::{Aperture, Apertures};
use std::alloc::AllocError;

/// Returns the addresses of an aperture.
fn as_window(aperture: Aperture) -> Window
    ensures { extent_of result ≡ aperture_extent aperture }
{
    Window {
        first: aperture.first,
        last: aperture.last,
    }
}

/// Returns the apertures of a space. Memory may have two.
fn main_and_pref_apertures(apertures: &Apertures, space: Space) -> (Option<Window>, Option<Window>)
    ensures { extents_of result.0 result.1 ≡ aperture_extents apertures.now (named_space space) }
{
    match space {
        Space::Io => (Some(as_window(apertures.io())), None),
        Space::Mem => (
            Some(as_window(apertures.mem())),
            apertures.pref().map(as_window),
        ),
    }
}

/// Returns a readiness issue if part of the BAR is outside the apertures.
fn outside_issue(apertures: &Apertures, region: &LiveBar) -> Option<ReadinessIssue>
    ensures { option_to_list (option_map issue_of result)
        ≡ outside_issue apertures.now region.now }
{
    let (one, other) = main_and_pref_apertures(apertures, region.region.kind.space());
    let address = first_missed_address(region, one, other)?;
    Some(ReadinessIssue::OutsideApertures {
        region: region.copied(),
        address,
    })
}

/// Appends a readiness issue for each BAR that is partly outside the apertures.
pub(crate) fn add_outside_issues(
    told: &mut Vec<ReadinessIssue>,
    apertures: &Apertures,
    regions: &[LiveBar],
) -> Result<(), AllocError>
    ensures { OnOk result (map issue_of told.new.items
        ≡ map issue_of told.old.items ++ flat_map (outside_issue apertures.now) regions.now) }
{
    for region in regions {
        if let Some(issue) = outside_issue(apertures, region) {
            told.push(issue)?;
        }
    }
    Ok(())
}
