// The report of an image in memory.
ghost use Rattle.std.specs.Prelude.{◌≡◌, IsUtf8};
ghost use Rattle.report_entry.specs.Answers.{status_of};
ghost use Rattle.report_entry.specs.Words.{text_words};
ghost use Rattle.report_entry.specs.Calls.{CallEnds, given, written};

use report_entry::{Asked, ReportAnswer, ReportEnd, WordsFault, read_some_words, report_in};
use std::alloc::Global;

fn report(
    alloc: Global,
    name: &[u8],
    words: &[u8],
    tree: &[u8],
    image: &[u8],
    format: u32,
    text: &mut [u8],
    answer: &mut ReportAnswer,
) -> ReportEnd
    ensures { CallEnds result (IsUtf8 words.now) (IsUtf8 words.now) (¬ (IsUtf8 words.now)) (text_words words.now)
        (given name.now format tree.now image.now) (written text.old answer.old) (written text.new answer.new) }
{
    let asked = match Asked::new(name, format) {
        Some(asked) => asked,
        None => return ReportEnd::Argument,
    };
    let words = match read_some_words(alloc, words) {
        Ok(words) => words,
        Err(WordsFault::NotText) => return ReportEnd::Argument,
        Err(WordsFault::Memory) => return ReportEnd::Memory,
    };
    report_in(alloc, &words, &asked, tree, image, text, answer)
}

/// The report of an image, as `oopsreport` makes it of a file at the path `name`: by the words, by the only ramoops node
/// of the device tree unless it is empty, and with neither as the storage or by the layout that the image shows. The formats are 0 text,
/// 1 a line of JSON, 2 a page.
#[unsafe(no_mangle)]
pub extern "C" fn oopsbox_report(
    alloc: Global,
    name: &[u8],
    words: &[u8],
    tree: &[u8],
    image: &[u8],
    format: u32,
    text: &mut [u8],
    answer: &mut ReportAnswer,
) -> u32
    ensures { (end : ReportEnd) × (result ≡ status_of end)
        × CallEnds end (IsUtf8 words.now) (IsUtf8 words.now) (¬ (IsUtf8 words.now)) (text_words words.now)
        (given name.now format tree.now image.now) (written text.old answer.old) (written text.new answer.new) }
{
    let end = report(alloc, name, words, tree, image, format, text, answer);
    end.status()
}
