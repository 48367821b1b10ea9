//! The choice of warnings.

/// The warnings that a check gives for a board that can be set up.
#[derive(Clone, Copy, Debug, PartialEq, Eq)]
pub enum WarningLevel {
    /// Warnings about likely mistakes.
    Likely,
    /// All warnings, including those about apertures more than ten times as large as needed.
    All,
}
