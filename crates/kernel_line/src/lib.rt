//! A kernel's command line: its words as the kernel reads them, those that lay out ramoops' memory or a storage of
//! pstore_blk, and where they say that the memory lies.
#![tactic(auto)]

pub mod laws;
mod layout;
mod line;
mod region;
mod words;

pub use layout::Module;
pub use line::KernelLine;
pub use region::long_digits;
pub use words::{LineFault, is_closed};
