//! The words of a flattened device tree (Devicetree Specification v0.4, section 5), and in `specs/` the definitions of
//! the tree that its bytes stand for, and of the ramoops nodes in it (`fs/pstore/ram.c`, `ramoops_parse_dt`).
#![tactic(auto)]

/// Why bytes are no device tree, or a ramoops node gives no layout.
#[derive(Clone, Copy, Debug, PartialEq, Eq)]
pub enum Fault {
    /// Fewer than 40 bytes, or they don't begin with `d0 0d fe ed`.
    NoMagic,
    /// A reader of version 17 cannot read it.
    Version,
    /// A block lies outside the tree's bytes, or is not aligned.
    Outside,
    /// The structure block ends within a token, or before its last token, or that token stands within a node.
    EndMissing,
    UnknownToken,
    /// A name without its zero.
    Unended,
    /// A property outside a node, or after a child of its node.
    PropertyOutside,
    /// An end of a node where none is open.
    EndOutside,
    /// More than 64 nodes within each other.
    TooDeep,
    /// A second root, or none.
    Roots,
    /// A number of less than four bytes (`-EOVERFLOW` of `of_property_read_u32`).
    TooShort,
    /// A number above 2^31 - 1, the kernel's `INT_MAX` (`ramoops_parse_dt_u32`).
    TooLarge,
    /// No `reg`, one without a whole address and size of one or two cells each, or a ramoops node that is the root.
    Reg,
}

/// `len` bytes from the place `from` on.
#[derive(Clone, Copy, Debug, PartialEq, Eq)]
pub struct Span {
    pub from: usize,
    pub len: usize,
}

/// Where the two blocks lie in the tree's bytes.
#[derive(Clone, Copy, Debug, PartialEq, Eq)]
pub struct Header {
    pub structure: Span,
    pub strings: Span,
}

/// A property: its name in the strings block, its value in the structure block.
#[derive(Clone, Copy, Debug, PartialEq, Eq)]
pub struct Property {
    pub name: Span,
    pub value: Span,
}

#[derive(Clone, Copy, Debug, PartialEq, Eq)]
pub enum Token {
    BeginNode(Span),
    EndNode,
    Prop(Property),
    Nop,
    End,
}

/// The numbers of a ramoops node; addresses and sizes are in bytes.
#[derive(Clone, Copy, Debug, PartialEq, Eq)]
pub struct Numbers {
    pub address: u64,
    pub size: u64,
    pub record_size: u32,
    pub console_size: u32,
    pub ftrace_size: u32,
    pub pmsg_size: u32,
    pub ecc_size: u32,
    pub flags: u32,
}

/// A region of memory; address and size are in bytes.
#[derive(Clone, Copy, Debug, PartialEq, Eq)]
pub struct Region {
    pub address: u64,
    pub size: u64,
}
