//! Remarks with their places in the file.
ghost use Rattle.std.specs.Prelude.{◌≡◌, IfOk, map};
ghost use Rattle.toml.specs.View.{table_view};
ghost use Rattle.lists.specs.Elements.{Each};
ghost use Rattle.board_fit.specs.PlacedRemarks.{remark_of, IsPlacedRemark};

use crate::remark::Remark;
use diagnostics::{
    Other, Places, TextPlace, find_value_or_entry_place, locate_entry_value_if_some,
};
use std::alloc::{AllocError, Global};

/// A remark, its place in the file if that could be confirmed, and the other entry that the remark
/// refers to, if any.
#[derive(Clone, Copy, Debug)]
pub struct PlacedRemark {
    pub remark: Remark,
    pub place: Option<TextPlace>,
    pub other: Option<Other>,
}

/// The key at which a message points in the other entry, which is always a bridge without an I/O
/// window.
const OTHER_KEY: &str = "io";

/// Finds the place of a remark, and that of the other entry.
fn locate_remark(
    alloc: Global,
    places: &Places<'_>,
    remark: Remark,
) -> Result<PlacedRemark, AllocError>
    ensures same { IfOk result (λ l. l.remark ≡ remark) }
    ensures located { IfOk result
        (IsPlacedRemark places.now.text.now (table_view places.now.document.now)) }
{
    let place = find_value_or_entry_place(alloc, places, remark.entry(), remark.key())?;
    let other = locate_entry_value_if_some(alloc, places, remark.other(), OTHER_KEY)?;
    Ok(PlacedRemark {
        remark,
        place,
        other,
    })
}

/// Finds the places of all remarks, in the same order.
pub(crate) fn locate_remarks(
    alloc: Global,
    places: &Places<'_>,
    remarks: &[Remark],
) -> Result<Vec<PlacedRemark>, AllocError>
    ensures same { IfOk result (λ v. map remark_of v.items ≡ remarks.now) }
    ensures places { IfOk result (λ v.
        Each (IsPlacedRemark places.now.text.now (table_view places.now.document.now)) v.items) }
{
    let mut all = Vec::new(alloc);
    'remarks: for remark in remarks {
        all.push(locate_remark(alloc, places, *remark)?)?;
    }
    Ok(all)
}
