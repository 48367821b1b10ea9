//! Paths of functions, from bus 0 down.
ghost use Rattle.std.specs.{Prelude.{◌≡◌, ◌&&◌, not, IsTrue, ◌+◌, ◌<◌, [], ◌∷◌, ◌++◌, length, refl}, Ordering.{is_lt, is_eq, as_partial_cmp}, Cmp.{po, partial_equiv_from_equiv}};
ghost use Rattle.model_board.specs.Paths.{part_eq, part_before, path_eq, path_before, is_ancestor_of, parent, function_zero, last_part, IsPath};
ghost use Rattle.paths.specs.{PathOrders.path_cmp, PathLaws.{paths_equal, paths_ordered, paths_tied}};

use arrayvec::ArrayVec;
use std::cmp::Ordering;
use std::marker::Model;

/// A device number, 0 to 31, and a function number, 0 to 7, on one bus.
#[derive(Clone, Copy, Debug, Default, PartialEq, Eq, PartialOrd, Ord)]
pub struct Part {
    device: u8,
    function: u8,
}

impl Model for Part {
    ghost use Rattle.std.specs.Prelude.{◌<◌};
    ghost use Rattle.model_board.specs.Paths.{Part as PartValue};

    ghost Value = { PartValue };

    ghost view = { λ p. record { device = p.device; function = p.function } };

    ghost invariant = { λ p. (p.device < 32) × (p.function < 8) };

    ghost inverse = { λ p. record { device = p.device; function = p.function } };
}

impl Part {
    /// Returns the part with this device number, 0 to 31, and function number, 0 to 7.
    pub fn new(device: u8, function: u8) -> Part
        requires device { device < 32 }
        requires function { function < 8 }
        ensures { result ≡ record { device = device; function = function } }
    {
        Part { device, function }
    }

    /// Returns the device number, 0 to 31.
    pub fn device(self) -> u8
        ensures value { result ≡ self.device }
        ensures range { result < 32 }
    {
        self.device
    }

    /// Returns the function number, 0 to 7.
    pub fn function(self) -> u8
        ensures value { result ≡ self.function }
        ensures range { result < 8 }
    {
        self.function
    }

    /// Compares this part with any device and function number, in the order of a bus scan.
    fn compare_numbers(self, device: u8, function: u8) -> Ordering
        ensures less { is_lt result
            ≡ part_before self (record { device = device; function = function }) }
        ensures equal { is_eq result
            ≡ part_eq self (record { device = device; function = function }) }
    {
        if self.device == device && self.function == function {
            Ordering::Equal
        } else if self.device < device || (self.device == device && self.function < function) {
            Ordering::Less
        } else {
            Ordering::Greater
        }
    }

    /// Returns whether a bus scan visits this part before `other`.
    pub fn is_before(self, other: Part) -> bool
        ensures { result ≡ part_before self other }
    {
        self.device < other.device
            || (self.device == other.device && self.function < other.function)
    }
}

/// The path of a function, as its parts from bus 0 down. Every part except the last names a bridge.
/// A path doesn't allocate memory.
#[derive(Drop, Debug)]
pub struct Path {
    parts: ArrayVec<Part, 16>,
}

impl Model for Path {
    ghost use Rattle.model_board.specs.Paths.{Path as PathValue, IsPath};

    ghost Value = { PathValue };

    ghost view = { λ p. p.parts.items };

    ghost invariant = { λ p. IsPath p.parts.items };
}

impl Default for Path {
    /// Returns the path of device 0, function 0 on bus 0.
    fn default() -> Path
        ensures { result ≡ record { device = 0; function = 0 } ∷ [] }
    {
        Path::on_root(Part::new(0, 0))
    }
}

impl PartialEq for Path {
    ghost eq = { path_eq };

    ghost laws = { partial_equiv_from_equiv paths_equal };

    fn eq(&self, other: &Path) -> bool {
        is_same(self.parts(), other.parts())
    }
}

impl Eq for Path {
    ghost laws = { paths_equal };
}

/// Path order: compares part by part, with each path before its extensions.
impl Ord for Path {
    ghost cmp = { path_cmp };

    ghost total = { paths_ordered };

    ghost matches_partial_cmp = { λ p q. refl };

    ghost matches_eq = { paths_tied };

    fn cmp(&self, other: &Path) -> Ordering {
        compare(self.parts(), other.parts())
    }
}

impl PartialOrd for Path {
    ghost partial_cmp = { as_partial_cmp path_cmp };

    ghost laws = { po paths_ordered paths_tied };

    fn partial_cmp(&self, other: &Path) -> Option<Ordering> {
        Some(self.cmp(other))
    }
}

impl Path {
    /// Returns the path of a function on bus 0.
    pub fn on_root(part: Part) -> Path
        ensures { result ≡ part ∷ [] }
    {
        let mut parts = ArrayVec::new();
        parts.push(part);
        Path { parts }
    }

    /// Extends the path to a function behind the bridge at this path. The path must have fewer than
    /// 16 parts.
    pub fn push(&mut self, part: Part)
        requires { length self.old < 16 }
        ensures { self.new ≡ self.old ++ part ∷ [] }
    {
        self.parts.push(part);
    }

    /// Returns the parts, starting with the one on bus 0.
    pub fn parts(&self) -> &[Part]
        ensures value { result.now ≡ self.now }
        ensures path { IsPath self.now }
    {
        self.parts.as_slice()
    }

    /// Returns a copy of this path. Unlike `clone`, copying can't fail, because it doesn't allocate
    /// memory.
    pub fn copied(&self) -> Path
        ensures { result ≡ self.now }
    {
        let mut parts = ArrayVec::new();
        for part in self.parts() {
            parts.push(*part);
        }
        Path { parts }
    }

    /// Returns whether this path consists of these parts.
    pub fn equals_parts(&self, parts: &[Part]) -> bool
        ensures { result ≡ path_eq self.now parts.now }
    {
        is_same(self.parts(), parts)
    }

    /// Returns whether this path comes before `other` in path order.
    pub fn is_before(&self, other: &Path) -> bool
        ensures { result ≡ path_before self.now other.now }
    {
        is_before(self.parts(), other.parts())
    }

    /// Compares this path with the function at these numbers on `bus`, which must be a proper
    /// prefix of this path. Comparing one part is enough, because all parts before it are those of
    /// `bus`.
    pub fn compare_to_function_on_bus(&self, bus: &[Part], device: u8, function: u8) -> Ordering
        requires { IsTrue (is_ancestor_of bus.now self.now) }
        ensures less { is_lt result
            ≡ path_before self.now (bus.now
            ++ record { device = device; function = function } ∷ []) }
        ensures equal { is_eq result
            ≡ path_eq self.now (bus.now
            ++ record { device = device; function = function } ∷ []) }
    {
        let parts = self.parts();
        let depth = bus.len();
        match parts[depth].compare_numbers(device, function) {
            Ordering::Less => Ordering::Less,
            Ordering::Greater => Ordering::Greater,
            Ordering::Equal => {
                if parts.len() > depth + 1 {
                    Ordering::Greater
                } else {
                    Ordering::Equal
                }
            }
        }
    }

    /// Returns whether this path is a proper prefix of `other`.
    pub fn is_ancestor_of(&self, other: &Path) -> bool
        ensures { result ≡ is_ancestor_of self.now other.now }
    {
        is_ancestor_of(self.parts(), other.parts())
    }

    /// Returns the parts of the bridge above this function. They are empty for a function on bus 0.
    pub fn parent(&self) -> &[Part]
        ensures value { result.now ≡ parent self.now }
        ensures short { length result.now < 16 }
        ensures path { IsPath self.now }
    {
        let parts = self.parts();
        &parts[..parts.len() - 1]
    }

    /// Returns the path of function 0 in the same device.
    pub fn function_zero(&self) -> Path
        ensures { result ≡ function_zero self.now }
    {
        let parts = self.parts();
        let device = parts[parts.len() - 1].device();
        let mut zero = ArrayVec::new();
        for part in &parts[..parts.len() - 1] {
            zero.push(*part);
        }
        zero.push(Part::new(device, 0));
        Path { parts: zero }
    }

    /// Returns the device and function number on the function's own bus.
    pub fn last(&self) -> Part
        ensures { result ≡ last_part self.now }
    {
        let parts = self.parts();
        parts[parts.len() - 1]
    }
}

fn is_same(xs: &[Part], ys: &[Part]) -> bool
    ensures { result ≡ path_eq xs.now ys.now }
{
    match xs {
        [] => ys.is_empty(),
        [x, xs @ ..] => match ys {
            [] => false,
            [y, ys @ ..] => x == y && is_same(xs, ys),
        },
    }
}

fn is_before(xs: &[Part], ys: &[Part]) -> bool
    ensures { result ≡ path_before xs.now ys.now }
{
    match xs {
        [] => !ys.is_empty(),
        [x, xs @ ..] => match ys {
            [] => false,
            [y, ys @ ..] => x.is_before(*y) || (x == y && is_before(xs, ys)),
        },
    }
}

fn is_ancestor_of(xs: &[Part], ys: &[Part]) -> bool
    ensures { result ≡ is_ancestor_of xs.now ys.now }
{
    match xs {
        [] => !ys.is_empty(),
        [x, xs @ ..] => match ys {
            [] => false,
            [y, ys @ ..] => x == y && is_ancestor_of(xs, ys),
        },
    }
}

fn compare(xs: &[Part], ys: &[Part]) -> Ordering
    ensures { result ≡ path_cmp xs.now ys.now }
{
    match xs {
        [] if ys.is_empty() => Ordering::Equal,
        [] => Ordering::Less,
        [x, xs @ ..] => match ys {
            [] => Ordering::Greater,
            [y, ys @ ..] => match x.cmp(y) {
                Ordering::Equal => compare(xs, ys),
                other => other,
            },
        },
    }
}
