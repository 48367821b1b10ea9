//! The paths of a board's functions.
ghost use Rattle.std.specs.Prelude.{◌≡◌, ◌<◌, [], IfOk, length, MatchOption};
ghost use Rattle.model_board.specs.Places.{has_bridge};
ghost use Rattle.board_file.specs.Functions.{standings};

use crate::entries::FileEntries;
use paths::{Part, Path};
use std::alloc::{AllocError, Global};
use std::marker::Model;

/// The path of a function, and whether the function is a bridge.
#[derive(Drop)]
pub struct FunctionPath {
    pub(crate) path: Path,
    pub(crate) is_bridge: bool,
}

impl Model for FunctionPath {
    ghost use Rattle.model_board.specs.Places.{Standing};

    ghost Value = { Standing };

    ghost view = { λ p. record { path = p.path; is_bridge = p.is_bridge } };
}

/// Returns the paths of all functions, endpoints first. Replaces an invalid path by `0.0`. Fails
/// only if memory is exhausted.
pub fn function_paths_or_zero(
    alloc: Global,
    file: &FileEntries<'_>,
) -> Result<Vec<FunctionPath>, AllocError>
    ensures { IfOk result (λ v. v.items ≡ standings file.now) }
{
    let endpoints = file.endpoints.iter().map(|endpoint| FunctionPath {
        path: endpoint.at.path_or_zero(),
        is_bridge: false,
    });
    let bridges = file.bridges.iter().map(|bridge| FunctionPath {
        path: bridge.at.path_or_zero(),
        is_bridge: true,
    });
    endpoints.chain(bridges).collect(alloc)
}

/// Returns the path of these parts, or `None` if there are no parts.
pub(crate) fn path_unless_empty(parts: &[Part]) -> Option<Path>
    requires { length parts.now < 16 }
    ensures { MatchOption result (parts.now ≡ []) (λ p. p ≡ parts.now) }
{
    let (first, rest) = parts.split_first()?;
    let mut path = Path::on_root(*first);
    'rest: for part in rest {
        path.push(*part);
    }
    Some(path)
}

/// Returns whether there is a bridge at the path.
pub fn has_bridge(functions: &[FunctionPath], path: &Path) -> bool
    ensures { result ≡ has_bridge functions.now path.now }
{
    functions
        .iter()
        .any(|function| function.is_bridge && function.path == *path)
}
