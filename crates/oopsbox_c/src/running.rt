// The whole tool on an image in memory.
ghost use Rattle.std.specs.Prelude.{IfOk};
ghost use Rattle.grammar_spec.specs.Words.{texts};
ghost use Rattle.report_entry.specs.Memory.{image_bytes, text_bytes};
ghost use Rattle.oopsbox_c.specs.Runs.{IsRun, given, HandsOut, RunEnds};

use crate::End;
use crate::memory::Script;
use commands::run;
use outside::Bytes;
use report_entry::{Image, Text, WordsFault, fill, read_words_of};
use std::alloc::{AllocError, Global};

/// How many bytes an image and a text have.
#[repr(C)]
#[derive(Clone, Copy, Debug, PartialEq, Eq)]
pub struct Lengths {
    pub image: u64,
    pub text: u64,
}

/// A run that ended: its status, and what image and text then hold.
#[derive(Drop)]
struct Ended {
    status: u8,
    image: Image,
    text: Text,
}

fn run_on(alloc: Global, words: &[String], script: &[u8], image: &[u8]) -> Result<Ended, AllocError>
    ensures { IfOk result (λ end. IsRun (texts words.now) script.now image.now end.status
        (image_bytes end.image) (text_bytes end.text)) }
{
    let mut script = Script::new(Bytes::copy_of(alloc, script)?);
    let mut image = Image::new(Bytes::copy_of(alloc, image)?);
    let mut text = Text::new(alloc);
    let status = run(alloc, words, &mut script, &mut image, &mut text);
    Ok(Ended {
        status,
        image,
        text,
    })
}

// Copies image and text to the caller's slices, if both have room.
fn hand_out(end: &Ended, image: &mut [u8], text: &mut [u8], lengths: &mut Lengths) -> End
    ensures { HandsOut result end.now.status (image_bytes end.now.image) (text_bytes end.now.text)
        image.old text.old image.new text.new lengths.new }
{
    let from_image = end.image.bytes();
    let from_text = end.text.bytes();
    *lengths = Lengths {
        image: from_image.len() as u64,
        text: from_text.len() as u64,
    };
    if image.len() < from_image.len() || text.len() < from_text.len() {
        return End::Room;
    }
    fill(from_image, image);
    fill(from_text, text);
    End::Ran(end.status)
}

/// Runs the tool's words on the front of the image, and hands out what image and text then hold.
pub fn run_in(
    alloc: Global,
    words: &[u8],
    script: &[u8],
    image: &mut [u8],
    text: &mut [u8],
    lengths: &mut Lengths,
) -> End
    ensures { RunEnds result words.now script.now (given image.old text.old lengths.old)
        (given image.new text.new lengths.new) }
{
    if lengths.image > image.len() as u64 {
        return End::Argument;
    }
    let words = match read_words_of(alloc, words) {
        Ok(words) => words,
        Err(WordsFault::NotText) => return End::Argument,
        Err(WordsFault::Memory) => return End::Memory,
    };
    match run_on(alloc, &words, script, &image[..lengths.image as usize]) {
        Ok(end) => hand_out(&end, image, text, lengths),
        Err(_) => End::Memory,
    }
}
