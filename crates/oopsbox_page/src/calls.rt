// The call that the page makes.
ghost use Rattle.std.specs.Prelude.{◌≡◌};
ghost use Rattle.report_entry.specs.Answers.{status_of};
ghost use Rattle.report_entry.specs.Calls.{CallEnds, given, written};
ghost use Rattle.oopsbox_page.specs.Words.{IsReadable, IsUnreadable, asked_words};

use crate::words::{NoWords, line_words};
use report_entry::{Asked, ReportAnswer, ReportEnd, report_in};
use std::alloc::Global;

fn report(
    alloc: Global,
    line: &[u8],
    name: &[u8],
    words: &[u8],
    tree: &[u8],
    image: &[u8],
    format: u32,
    text: &mut [u8],
    answer: &mut ReportAnswer,
) -> ReportEnd
    ensures { CallEnds result (IsReadable line.now words.now) (IsReadable line.now words.now)
        (IsUnreadable tree.now line.now words.now)
        (asked_words tree.now line.now words.now) (given name.now format tree.now image.now) (written text.old answer.old)
        (written text.new answer.new) }
{
    let asked = match Asked::new(name, format) {
        Some(asked) => asked,
        None => return ReportEnd::Argument,
    };
    let words = match line_words(alloc, line, words, tree) {
        Ok(words) => words,
        Err(NoWords::Unreadable) => return ReportEnd::Argument,
        Err(NoWords::Memory) => return ReportEnd::Memory,
    };
    report_in(alloc, &words, &asked, tree, image, text, answer)
}

/// The report of an image, as `oopsreport` makes it of a file at the path `name`: by the words of a kernel's command
/// line and those of a text, by the only ramoops node of the device tree unless it is empty, and with neither as the
/// storage or by the layout that the image shows. The formats are 0 text, 1 a line of JSON, 2 a page. The answers are those of
/// `oopsbox_report`: 0 done, 3 faulty words, 4 a short image, 12 too little room, 13 an argument out of its range, 14 no
/// memory, 17 no layout is taken, 18 the device tree gives none.
#[unsafe(no_mangle)]
pub extern "C" fn oopsbox_page_report(
    alloc: Global,
    line: &[u8],
    name: &[u8],
    words: &[u8],
    tree: &[u8],
    image: &[u8],
    format: u32,
    text: &mut [u8],
    answer: &mut ReportAnswer,
) -> u32
    ensures { (end : ReportEnd) × (result ≡ status_of end)
        × CallEnds end (IsReadable line.now words.now) (IsReadable line.now words.now)
        (IsUnreadable tree.now line.now words.now)
        (asked_words tree.now line.now words.now) (given name.now format tree.now image.now) (written text.old answer.old)
        (written text.new answer.new) }
{
    let end = report(alloc, line, name, words, tree, image, format, text, answer);
    end.status()
}
