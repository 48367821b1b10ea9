//! Hints, which are printed below the error message about a fault.
use board_file::BoardFault;
use board_told::Fault;
use command_line::Choice;
use diagnostics::Shown;
use std::alloc::{AllocError, Global};
use std::io::ErrorKind;

/// Returns the hint about invalid arguments: the reason, in printable ASCII.
pub fn printable_reason(alloc: Global, why: &str) -> Result<String, AllocError> {
    let mut hint = String::new(alloc);
    for line in why.lines() {
        write!(hint, "{}\n", Shown(line.as_bytes()))?;
    }
    Ok(hint)
}

/// Returns the hint about a board file that can't be read: its path, and the system's error.
pub(crate) fn unreadable_file_hint(
    alloc: Global,
    path: &str,
    why: ErrorKind,
) -> Result<String, AllocError> {
    let why = match why {
        ErrorKind::NotFound => "no such file",
        ErrorKind::PermissionDenied => "permission denied",
        ErrorKind::IsADirectory => "is a directory",
        ErrorKind::NotADirectory => "not a directory",
        ErrorKind::FilesystemLoop => "too many levels of symbolic links",
        ErrorKind::InvalidFilename => "file name too long",
        ErrorKind::OutOfMemory => "out of memory",
        _ => "the system refuses to read it",
    };
    let path = Shown(path.as_bytes());
    format!(in alloc; "error: cannot read '{path}': {why}\n")
}

/// Returns the hint about a refused file or board: the `check` command that lists all problems.
/// Returns `None` if the command is `check` itself.
pub fn suggest_check_if_refused(
    alloc: Global,
    choice: &Choice<'_>,
    fault: Fault,
) -> Result<Option<String>, AllocError> {
    let is_refusal = match fault {
        Fault::File(why) => why != BoardFault::Memory,
        Fault::SetUp(why) => why != bus_scan::Fault::Memory,
        _ => false,
    };
    let path = match choice {
        Choice::Check { .. } => None,
        _ => choice.board_path(),
    };
    match path {
        Some(path) if is_refusal => {
            let path = Shown(path.as_bytes());
            let hint = format!(in alloc;
                "help: run 'pciguest check {path}' to list all problems\n"
            )?;
            Ok(Some(hint))
        }
        _ => Ok(None),
    }
}
