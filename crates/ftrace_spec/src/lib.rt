//! The forms of an ftrace log's entries, and in `specs/` what the entries of a log are, and the definition of the lines in
//! which the kernel shows them.
#![tactic(auto)]

/// What an entry of an ftrace log is, by the size of the kernel's addresses (`include/linux/pstore.h`,
/// `struct pstore_ftrace_record`).
#[derive(Clone, Copy, Debug, PartialEq, Eq)]
pub enum EntryForm {
    /// 24 bytes, of a kernel of 64 bits: two addresses of 8 bytes and a word of 8.
    Long,
    /// 16 bytes, of a kernel of 32 bits: two addresses of 4 bytes and a word of 8.
    Short,
}
