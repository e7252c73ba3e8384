// Layouts by their words, and a store of zeros.
ghost use Rattle.std.specs.Prelude.{◌≡◌, length, IfOk};

use outside::Bytes;
use ramoops::Off;
use ramoops_layout::types::Layout;
use ramoops_layout::{layout, read_words};
use std::alloc::{AllocError, Global};
use std::test::Fail;

fn words(alloc: Global, line: &str) -> Result<Vec<String>, AllocError> {
    let mut words = Vec::new(alloc);
    for word in line.split(' ') {
        words.push(String::from_str(alloc, word)?)?;
    }
    Ok(words)
}

pub fn layout_of(alloc: Global, line: &str) -> Result<Layout, Fail> {
    let words = words(alloc, line)?;
    let params = read_words(&words)?;
    Ok(layout(alloc, &params)?)
}

fn zeros(alloc: Global, count: u32) -> Result<Bytes, AllocError>
    ensures { IfOk result (λ bytes. length bytes ≡ count) }
{
    let mut bytes = Vec::new(alloc);
    bytes.resize(count as usize, 0)?;
    Ok(Bytes::from_vec(bytes))
}

/// A store of zeros, off.
pub fn off(alloc: Global, line: &str) -> Result<Off, Fail> {
    let layout = layout_of(alloc, line)?;
    let image = zeros(alloc, layout.mem())?;
    Ok(Off::fresh(alloc, layout, image)?)
}
