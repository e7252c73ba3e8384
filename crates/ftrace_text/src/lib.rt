//! The lines in which the kernel shows the entries of an ftrace log (`fs/pstore/inode.c`, `pstore_ftrace_seq_show`), and
//! the entries of any machine's logs in the one form that has lines.
#![tactic(auto)]

mod forms;
mod hexadecimal;
mod lines;
mod rows;

pub use forms::{order_of, trace};
pub use ftrace_spec::EntryForm;
pub use lines::trace_text;
pub use rows::{form_given, forms_shown, kernels_lines, one_entry, two_short_logs};
