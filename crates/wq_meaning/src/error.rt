//! Why there is no report.
use thiserror::Error;

/// Why a script or a schedule did not run to its end.
#[derive(Clone, Copy, Debug, PartialEq, Eq, Error)]
pub enum RunError {
    /// An allocation was refused.
    #[error("memory")]
    Memory,
}
