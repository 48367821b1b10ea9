//! The rules for the paths of the functions of a board.
ghost use Rattle.std.specs.Prelude.{◌≡◌, ◌<◌, ◌↔◌, ◌⊎◌, [], IsTrue, IsFalse, map};
ghost use Rattle.lists.specs.Elements.{Each, EachPair};
ghost use Rattle.model_board.specs.{Paths.{path_eq, parent, function_zero}, Places.{Standing, IsFounded, AreLawfulPlaces, has_path, has_bridge}};

use paths::{Part, Path};

/// The properties of a function that placement rules depend on: its path, and whether it is a
/// bridge.
pub trait HasPath {
    ghost standing: { Self → Standing };

    fn path(&self) -> &Path
        ensures { result.now ≡ (standing self.now).path };

    fn is_bridge(&self) -> bool
        ensures { result ≡ (standing self.now).is_bridge };
}

/// Returns whether one of the functions has this path.
fn has_path<S: HasPath>(places: &[S], path: &Path) -> bool
    ensures { result ≡ has_path (map S.standing places.now) path.now }
{
    for place in places {
        if place.path() == path {
            return true;
        }
    }
    false
}

/// Returns whether one of the functions is a bridge whose path has these parts.
fn has_bridge<S: HasPath>(places: &[S], parts: &[Part]) -> bool
    ensures { result ≡ has_bridge (map S.standing places.now) parts.now }
{
    for place in places {
        if place.is_bridge() && place.path().equals_parts(parts) {
            return true;
        }
    }
    false
}

/// Returns whether the parts lead to a bus: the list is empty, which stands for bus 0, or is the
/// path of one of the bridges.
fn leads_to_bus<S: HasPath>(places: &[S], parts: &[Part]) -> bool
    ensures { IsTrue result
        ↔ ((parts.now ≡ []) ⊎ IsTrue (has_bridge (map S.standing places.now) parts.now)) }
{
    if parts.is_empty() {
        return true;
    }
    has_bridge(places, parts)
}

/// Returns whether the function at `place` is on bus 0 or behind a bridge, in a device with a
/// function 0.
fn has_bus_and_function_zero<S: HasPath>(places: &[S], place: &S) -> bool
    ensures { IsTrue result ↔ IsFounded (map S.standing places.now) (S.standing place.now) }
{
    let path = place.path();
    let on_bus = leads_to_bus(places, path.parent());
    let has_zero = has_path(places, &path.function_zero());
    on_bus && has_zero
}

/// Returns whether every function is on bus 0 or behind a bridge, in a device with a function 0.
fn all_have_bus_and_function_zero<S: HasPath>(places: &[S]) -> bool
    ensures { IsTrue result
        ↔ Each (IsFounded (map S.standing places.now)) (map S.standing places.now) }
{
    for place in places {
        if !has_bus_and_function_zero(places, place) {
            return false;
        }
    }
    true
}

/// Returns whether all paths are different.
fn have_distinct_paths<S: HasPath>(places: &[S]) -> bool
    ensures { IsTrue result
        ↔ EachPair (λ s t. IsFalse (path_eq t.path s.path)) (map S.standing places.now) }
{
    for i in 0..places.len() {
        if has_path(&places[i + 1..], places[i].path()) {
            return false;
        }
    }
    true
}

/// Returns whether the functions, in any order, form a valid board: their paths are unique, every
/// path is on bus 0 or behind one of the bridges, and every device has a function 0. Doesn't
/// allocate.
pub fn are_lawful_places<S: HasPath>(places: &[S]) -> bool
    ensures { IsTrue result ↔ AreLawfulPlaces (map S.standing places.now) }
{
    all_have_bus_and_function_zero(places) && have_distinct_paths(places)
}
