//! A record that pstore left packed, with the suffix `.enc.z`: its text, as far as it inflates.
#![tactic(auto)]

ghost use Rattle.std.specs.Prelude.{◌≡◌, IfOk};
ghost use Rattle.packed_record.specs.Packed.{is_packed_name, stream_of, IsText};

use compression::{Compression, compression_of};
use inflate::{InflateError, Inflated, inflate};
use report_spec::TextFault;
use std::alloc::{AllocError, Global};

/// What a packed record stands for, and why no more of it inflates.
#[derive(Debug, Drop)]
pub struct PackedText {
    pub text: Vec<u8>,
    pub fault: Option<TextFault>,
}

/// Whether a file has the name of a packed record.
pub fn is_packed_name(path: &str) -> bool
    ensures { result ≡ is_packed_name path.now }
{
    path.as_bytes().ends_with(b".enc.z")
}

// The stream in a record's bytes.
fn stream_of(bytes: &[u8]) -> &[u8]
    ensures { result.now ≡ stream_of bytes.now }
{
    match compression_of(bytes) {
        Some(Compression::Zlib) => bytes.get(2..).unwrap_or(&[]),
        _ => bytes,
    }
}

/// The text of a record's bytes, at most `most` bytes of it.
pub fn packed_text(alloc: Global, bytes: &[u8], most: usize) -> Result<PackedText, AllocError>
    ensures { IfOk result (λ t. IsText t.fault (stream_of bytes.now) most t.text.items) }
{
    match inflate(alloc, stream_of(bytes), most) {
        Ok(Inflated { text, taken: _ }) => Ok(PackedText { text, fault: None }),
        Err(InflateError::Memory) => Err(AllocError),
        Err(InflateError::TooLong { text }) => Ok(PackedText {
            text,
            fault: Some(TextFault::TooLong),
        }),
        Err(InflateError::Broken { fault, text }) => Ok(PackedText {
            text,
            fault: Some(TextFault::Broken(fault)),
        }),
    }
}
