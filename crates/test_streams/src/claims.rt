//! The regions that claim addresses after set-up.
use crate::board::MAIN;
use crate::by_path::{path_behind_bridge_2, path_on_root};
use bars::Space;
use board_file::read_board;
use bridge_forward::{Claim, Path};
use claim_table::Table;
use host_bridge::Route;
use std::process::Abort;
use std::test::Fail;
use window_packing::set_up;

/// Compares a claim with the expected path, register and offset.
fn assert_claim(rt: &impl Abort, found: Option<Claim>, want: Option<(&Path, u8, u64)>) {
    let found = found.as_ref().map(|it| (&it.path, it.region, it.offset));
    assert!(rt; found == want);
}

/// The walk over the tree and the flat table return the same claims.
#[test]
fn tree_and_table_return_same_claims(rt: HostRuntime) -> Result<(), Fail> {
    let alloc = rt.alloc();
    let (host, _) = read_board(alloc, MAIN.as_bytes())?;
    let ready = set_up(alloc, host)?;
    let table = Table::build(alloc, &ready)?;
    let (host, _, _) = ready.into_parts();
    let (beside, first, second) = (
        path_on_root(1),
        path_behind_bridge_2(0),
        path_behind_bridge_2(1),
    );
    let rows = [
        (Space::Mem, 0xc000_0000, Some((&first, 0, 0))),
        (Space::Mem, 0xc00f_ffff, Some((&first, 0, 0xf_ffff))),
        (Space::Mem, 0xc010_0000, Some((&beside, 1, 0))),
        (Space::Mem, 0xc010_0fff, Some((&beside, 1, 0xfff))),
        (Space::Mem, 0xc010_1000, None),
        (Space::Mem, 0x4_00ff_ffff, Some((&second, 0, 0xff_ffff))),
        (Space::Mem, 0x4_0100_0000, None),
        (Space::Io, 0x1007, Some((&first, 1, 7))),
        (Space::Io, 0x1008, None),
        (Space::Io, 0x2000, Some((&beside, 0, 0))),
        (Space::Io, 0x201f, Some((&beside, 0, 0x1f))),
        (Space::Io, 0x2020, None),
        (Space::Mem, 0, None),
        (Space::Io, 0xc000_0000, None),
    ];
    for (space, addr, want) in rows {
        assert_claim(&rt, host.claimant(space, addr), want);
        assert_claim(&rt, table.claimant(&host, space, addr), want);
    }
    Ok(())
}
