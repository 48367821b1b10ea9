//! Layer: definitions. Below: model_board. Above: model_findings, bus_scan.
//!
//! The formal model of set-up: the bus scan, the placement of BARs and windows, the register values
//! that set-up writes, and the resulting claims, with theorems about them.
#![tactic(auto)]

ghost use Rattle.model_set_up.specs.{FunctionTable.PlacedAsFound, Levels.ItemsByBus, MultifunctionBits.OnlyBitOfFunction0Matters, OrderLaws.{OneOrder, OrderIsSorted}, Packing.{CompactIsRun, FlatNeedOnBus}, PlacementLaws.{LayoutIsLawful, PoolsAreLawful, RowsAreDeclared}, Reach.{OneRoute, OnlyNamed, ReachedByNumbers, SetUpHasNumbers}, ScanOrder.{ScanGivesNumbersInPathOrder, ScanMeetsInPathOrder}, Scanning.{NumbersOfScanState, ReachedWhileScanning}, UniqueClaimant.{ClaimInAnyOrder, ClaimOfRegion, PlacedWithin, RowsArePlaced, UniqueClaimant}, WindowLaws.{ClosedWindows, NamedWindows, SetUpWindows}};

/// Proves that on a bus without bridges the compact placement needs the sum of the sizes rounded up
/// to the window granularity, and that no lawful placement needs fewer units.
pub fn flat_need()
    ensures { FlatNeedOnBus }
{}

/// Proves that the items to place on a bus are its regions and the windows of its bridges, at any
/// depth.
pub fn bus_items_are_bars_and_windows()
    ensures { ItemsByBus }
{}

/// Proves that the compact placement on one bus is aligned, has no overlaps, and stays within its
/// computed size.
pub fn compact_items_never_overlap()
    ensures { CompactIsRun }
{}

/// Proves that with the board's bus numbers in its bridges, a configuration cycle reaches the
/// function with that BDF, and no other BDF reaches a function. Set-up programs these bus numbers.
/// At most one route leads to each bus, whatever values the bridges hold.
pub fn bdf_reaches_its_function_only()
    ensures named { ReachedByNumbers }
    ensures only_named { OnlyNamed }
    ensures set_up { SetUpHasNumbers }
    ensures one_route { OneRoute }
{}

/// Proves that during a scan a configuration cycle to a bus found so far reaches the function at
/// the BDF, if there is one. Only the bus number registers matter.
pub fn scan_reaches_buses_found_so_far()
    ensures reach { ReachedWhileScanning }
    ensures states { NumbersOfScanState }
{}

/// Proves that a scan visits devices 0 to 31 and functions 0 to 7 of each bus, and everything
/// behind a bridge directly after the bridge. So the scan visits the functions in path order and
/// assigns the board's bus numbers in sequence.
pub fn scan_visits_in_path_order()
    ensures functions { ScanMeetsInPathOrder }
    ensures numbers { ScanGivesNumbersInPathOrder }
{}

/// Proves that the compact placement takes the items of a bus in sorted order, and that every way
/// of sorting them gives this order.
pub fn placement_order_is_unique()
    ensures sorted { OrderIsSorted }
    ensures only { OneOrder }
{}

/// Proves that if a pool fits, its compact placement is lawful: regions and windows are aligned,
/// don't overlap, and lie within the aperture and within the windows of every bridge above them. If
/// every pool fits, the whole layout is lawful.
pub fn fitting_placement_is_lawful()
    ensures each_pool { PoolsAreLawful }
    ensures whole { LayoutIsLawful }
{}

/// Proves that the placement has exactly one row for each region of the board, at the address that
/// set-up programs, and one for each bridge in each pool with items behind the bridge.
pub fn one_row_per_region_or_window()
    ensures { RowsAreDeclared }
{}

/// Proves that a window forwards no address if it holds the values that set-up writes when nothing
/// behind the bridge needs the window. This holds for every kind of decoding that a bridge can
/// have.
pub fn closed_windows_forward_nothing()
    ensures { ClosedWindows }
{}

/// Proves that window registers decode to exactly the units written to them, within the bridge's
/// address range. So on a board that fits, set-up gives each bridge the windows that the placement
/// assigned to it.
pub fn windows_decode_as_written()
    ensures named { NamedWindows }
    ensures set_up { SetUpWindows }
{}

/// Proves that after set-up, and in every state with the same routing registers, an address is
/// claimed by the placed region that contains it and by no other. Each byte of a placed region is
/// claimed at its address through every bridge above, and no two placed regions of one space share
/// an address. So the order of a list of placed regions doesn't affect claims, and the rows of the
/// layout are one of these lists.
pub fn set_up_gives_unique_claimants()
    ensures claims { UniqueClaimant }
    ensures of_region { ClaimOfRegion }
    ensures any_order { ClaimInAnyOrder }
    ensures rows { RowsArePlaced }
{}

/// Proves that set-up places each region at a multiple of 4: an I/O region from 1000h to FFFFh, and
/// a memory region below 2^63.
pub fn placed_addresses_are_in_range()
    ensures { PlacedWithin }
{}

/// Proves that the scan and the sizing find everything that placement depends on. A lawful board as
/// found is again a lawful board with the same function table, placement, register settings and
/// refusals, and it can be enumerated if and only if the original board can.
pub fn scan_finds_all_placement_needs()
    ensures { PlacedAsFound }
{}

/// Proves that what a scan and the sizing find, the plan, the refusals and the state after set-up
/// don't depend on bit 7 of the header type in functions 1 to 7: on a lawful board, each function
/// may declare it set or clear. Only the bit itself differs in the states.
pub fn only_function_0_decides_multifunction()
    ensures { OnlyBitOfFunction0Matters }
{}
