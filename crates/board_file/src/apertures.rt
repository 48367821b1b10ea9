//! The address apertures of a board file.
ghost use Rattle.std.specs.Prelude.{◌≡◌, ◌&&◌, ◌||◌, not, option_map, is_ok, IfOk};
ghost use Rattle.model_registers.specs.Apertures.{are_lawful, is_io_aperture, is_mem_aperture, has_lawful_pref};
ghost use Rattle.board_file.specs.{Functions.{aperture, apertures}, Rules.{is_non_negative, is_none_or_non_negative}};

use crate::entries::{Bounds, FileEntries};
use headers::{Aperture, ApertureFault, Apertures};

/// Returns the aperture from `bounds.first` to `bounds.last`, both inclusive. Callers check
/// `is_non_negative` first, because a negative bound is replaced by its absolute value.
fn aperture(bounds: Bounds) -> Aperture
    ensures { result ≡ aperture bounds }
{
    Aperture {
        first: bounds.first.unsigned_abs(),
        last: bounds.last.unsigned_abs(),
    }
}

/// Returns the prefetchable aperture, if the file has one.
fn pref_aperture(bounds: Option<Bounds>) -> Option<Aperture>
    ensures { result ≡ option_map aperture bounds }
{
    Some(aperture(bounds?))
}

/// Builds the apertures of the file. Fails if they aren't valid.
pub(crate) fn apertures(file: &FileEntries<'_>) -> Result<Apertures, ApertureFault>
    ensures taken { is_ok result ≡ are_lawful (apertures file.now) }
    ensures value { IfOk result (λ a. a ≡ apertures file.now) }
{
    Apertures::new(
        aperture(file.io),
        aperture(file.mem),
        pref_aperture(file.pref),
    )
}

/// Returns whether neither address is negative.
fn is_non_negative(bounds: Bounds) -> bool
    ensures { result ≡ is_non_negative bounds }
{
    0 <= bounds.first && 0 <= bounds.last
}

/// Returns whether neither address is negative. A missing aperture passes.
fn is_none_or_non_negative(bounds: Option<Bounds>) -> bool
    ensures { result ≡ is_none_or_non_negative bounds }
{
    match bounds {
        Some(bounds) => is_non_negative(bounds),
        None => true,
    }
}

/// A valid I/O aperture.
const IO: Aperture = Aperture {
    first: 0x1000,
    last: 0x1fff,
};

/// A valid memory aperture.
const MEM: Aperture = Aperture {
    first: 0,
    last: 0xf_ffff,
};

/// Returns whether the I/O aperture is valid. Passes it to [`Apertures::new`] together with a
/// memory aperture that is known to be valid.
pub(crate) fn is_valid_io_aperture(io: Bounds) -> bool
    ensures { result ≡ (is_non_negative io && is_io_aperture (aperture io)) }
{
    is_non_negative(io) && Apertures::new(aperture(io), MEM, None).is_ok()
}

fn is_valid_mem_ignoring_sign(mem: Bounds) -> bool
    ensures { result ≡ is_mem_aperture (aperture mem) }
{
    Apertures::new(IO, aperture(mem), None).is_ok()
}

/// Returns whether the memory aperture is valid, whatever the other apertures are.
pub(crate) fn is_valid_mem_aperture(mem: Bounds) -> bool
    ensures { result ≡ (is_non_negative mem && is_mem_aperture (aperture mem)) }
{
    is_non_negative(mem) && is_valid_mem_ignoring_sign(mem)
}

fn is_valid_pref_ignoring_sign(mem: Bounds, pref: Option<Bounds>) -> bool
    ensures { result
        ≡ (not (is_mem_aperture (aperture mem)) || has_lawful_pref (aperture mem)
        (option_map aperture pref)) }
{
    !is_valid_mem_ignoring_sign(mem)
        || Apertures::new(IO, aperture(mem), pref_aperture(pref)).is_ok()
}

/// Returns whether the prefetchable aperture is valid and doesn't overlap the memory aperture. If
/// the memory aperture isn't valid itself, checks only that no address is negative.
pub(crate) fn is_pref_none_or_valid(mem: Bounds, pref: Option<Bounds>) -> bool
    ensures { result ≡ (is_none_or_non_negative pref
        && (not (is_mem_aperture (aperture mem)) || has_lawful_pref (aperture mem) (option_map aperture pref))) }
{
    is_none_or_non_negative(pref) && is_valid_pref_ignoring_sign(mem, pref)
}
