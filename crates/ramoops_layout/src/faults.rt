// The error of a layout.
use thiserror::Error;
use zone_spec::LayoutFault;

/// Why there is no layout.
#[derive(Clone, Copy, Debug, PartialEq, Eq, Error)]
pub enum LayoutError {
    #[error("{0}")]
    Fault(LayoutFault),
    #[error("no memory")]
    Memory,
}
