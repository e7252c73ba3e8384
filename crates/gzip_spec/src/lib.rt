//! The words of a gzip file (RFC 1952), and in `specs/` the definition of the text that its bytes stand for.
#![tactic(auto)]

use inflate_spec::Fault;

/// Why bytes are no gzip file from a place on.
#[derive(Clone, Copy, Debug, PartialEq, Eq)]
pub enum GzipFault {
    /// The file does not begin with 1f 8b.
    NotGzip,
    /// Bytes follow a member, and they do not begin with 1f 8b.
    TrailingBytes,
    /// A method other than 8, DEFLATE.
    UnknownMethod,
    /// A flag that has no meaning yet.
    ReservedFlag,
    /// The file ends within a header.
    CutHeader,
    /// The header's CRC is not that of its bytes.
    HeaderCrc,
    /// The body is no DEFLATE stream. A file that ends within it has `EndOfInput` here.
    Body { fault: Fault },
    /// The file ends within the CRC and the length that follow a body.
    CutTrailer,
    /// The CRC is not that of the text.
    TextCrc,
    /// The length is not that of the text.
    TextLength,
}
