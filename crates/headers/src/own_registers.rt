//! Allocation of the six base address registers to regions.
ghost use Rattle.std.specs.{Prelude.{◌≡◌, ◌+◌, ◌≤◌, ◌<◌, [], ◌∷◌, nat_le, map, count_by}, List.list_all};
ghost use Rattle.model_registers.specs.{Declarations.{Region, registers_of}, DeclarationRules.{uses, has_own_registers}};
ghost use Rattle.bars.specs.Kinds.{kind_of};

use bars::Kind;

/// A type that uses base address registers: a region or its declaration.
pub trait UsesBars {
    ghost region: { Self → Region };

    /// Returns the index of its first base address register.
    fn index(&self) -> u64
        ensures { result ≡ (region self.now).index };

    /// Returns the kind of the BAR.
    fn kind(&self) -> Kind
        ensures { kind_of result ≡ (region self.now).kind };
}

/// Returns the number of base address registers that a region of this kind uses.
fn register_count(kind: Kind) -> u64
    ensures value { result ≡ registers_of (kind_of kind) }
    ensures some { 0 < result }
    ensures few { result ≤ 2 }
{
    if kind.uses_two_registers() { 2 } else { 1 }
}

fn is_within_bar_registers<T: UsesBars>(region: &T) -> bool
    ensures { result
        ≡ nat_le ((T.region region.now).index + registers_of (T.region region.now).kind) 6 }
{
    let index = region.index();
    index <= 5 && index + register_count(region.kind()) <= 6
}

fn uses<T: UsesBars>(region: &T, register: u64) -> bool
    requires { register ≤ 5 }
    ensures { result ≡ uses register (T.region region.now) }
{
    let index = region.index();
    index <= register && register < index + register_count(region.kind())
}

/// Returns whether each region's registers are among the six.
fn are_within_bar_registers<T: UsesBars>(regions: &[T]) -> bool
    ensures { result ≡ list_all (λ r.
        nat_le ((T.region r).index + registers_of (T.region r).kind) 6) regions.now }
{
    regions.iter().all(|region| is_within_bar_registers(region))
}

fn is_used_at_most_once<T: UsesBars>(regions: &[T], register: u64) -> bool
    requires { register ≤ 5 }
    ensures { result ≡ nat_le (count_by (λ r. uses register (T.region r)) regions.now) 1 }
{
    regions
        .iter()
        .filter(|region| uses(*region, register))
        .count()
        <= 1
}

/// Returns whether no register is used twice.
fn use_registers_at_most_once<T: UsesBars>(regions: &[T]) -> bool
    ensures { result
        ≡ list_all (λ n. nat_le (count_by (λ r. uses n (T.region r)) regions.now) 1) (0 ∷ 1
        ∷ 2 ∷ 3 ∷ 4 ∷ 5 ∷ []) }
{
    is_used_at_most_once(regions, 0)
        && is_used_at_most_once(regions, 1)
        && is_used_at_most_once(regions, 2)
        && is_used_at_most_once(regions, 3)
        && is_used_at_most_once(regions, 4)
        && is_used_at_most_once(regions, 5)
}

/// Returns whether each region's registers are among the six, and no register is used twice.
pub fn have_valid_bar_registers<T: UsesBars>(regions: &[T]) -> bool
    ensures { result ≡ has_own_registers (map T.region regions.now) }
{
    are_within_bar_registers(regions) && use_registers_at_most_once(regions)
}
