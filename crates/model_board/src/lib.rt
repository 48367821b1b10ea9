//! Layer: definitions. Below: model_registers. Above: model_set_up, model_guests, paths.
//!
//! The formal model of a PCI board: paths, bus numbers, configuration cycles, bridge windows,
//! claims and I/O ports, with theorems about them.
#![tactic(auto)]

ghost use Rattle.model_board.specs.{Numbering.Numbering, Places.LawfulPlacesAreBoards, PortLaws.{ClaimsKeepLanes, ConfigReadByLanes, ConfigWriteByLanes, PortsWhileNotEnabled}, RoutingLaws.{ClaimsByRouting, FirstByRouting, ForwardedByRouting, RoutingOfCells, RoutingOfChange, SameClaims}};

/// Proves that functions declared in any order are at lawful places if and only if their rows,
/// sorted in path order, form a board.
pub fn lawful_places_form_a_board()
    ensures { LawfulPlacesAreBoards }
{}

/// Proves that the bus numbers behind a bridge are those of the bridges below it.
pub fn bus_range_equals_bridges_below()
    ensures { Numbering }
{}

/// Proves that the routing registers alone decide where an address goes: the paths that it is
/// forwarded to, all its claims, and the first claim. Two states whose routing registers hold the
/// same bytes route addresses alike, so changing any other register leaves routing unchanged.
pub fn routing_registers_decide_claims()
    ensures forwarded { ForwardedByRouting }
    ensures claims { ClaimsByRouting }
    ensures first { FirstByRouting }
    ensures same { SameClaims }
    ensures cells { RoutingOfCells }
    ensures change { RoutingOfChange }
{}

/// Proves that a configuration access of 1, 2 or 4 bytes accesses the enabled bytes of one word,
/// and that an offset in a region selects the same byte lanes as the address that it was decoded
/// from. While CONFIG_ADDRESS doesn't enable CONFIG_DATA, every port except CONFIG_ADDRESS itself
/// is an ordinary port.
pub fn bus_accesses_select_byte_lanes()
    ensures config_read { ConfigReadByLanes }
    ensures config_write { ConfigWriteByLanes }
    ensures claims { ClaimsKeepLanes }
    ensures not_enabled { PortsWhileNotEnabled }
{}
