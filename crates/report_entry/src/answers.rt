// A report in the caller's slice.
ghost use Rattle.std.specs.Prelude.{◌≡◌, length, Ok, Err, MatchOption};
ghost use Rattle.report_entry.specs.Answers.{IsAsked, IsNotAsked, status_of, format_of, fault_answer, hint_answer};
ghost use Rattle.report_entry.specs.Answers.{word_place, TellsText, TellsNoLayout, Tells, ReportEnds};

use crate::laying::NoLayouts;
use crate::reports::{Refusal, Reported, report_of};
use crate::words::fill;
use grammar_spec::ParamFault;
use report_tool::Format;
use std::alloc::Global;
use std::str;
use storage_words::size_fault_number;

/// How a report ends.
#[derive(Clone, Copy, Debug, PartialEq, Eq)]
pub enum ReportEnd {
    /// The text is the report.
    Done,
    /// A word is faulty, or the parameters have no layout, or divide no storage.
    Fault,
    /// The image has fewer bytes than the layout needs.
    Short,
    /// The caller's slice has too little room.
    Room,
    /// An argument is outside its range.
    Argument,
    /// Memory was refused.
    Memory,
    /// The layout was looked for, and is not taken.
    Unlaid,
    /// The device tree gives no layout.
    Tree,
}

impl ReportEnd {
    /// The number that the caller sees.
    pub fn status(self) -> u32
        ensures { result ≡ status_of self }
    {
        match self {
            ReportEnd::Done => 0,
            ReportEnd::Fault => 3,
            ReportEnd::Short => 4,
            ReportEnd::Room => 12,
            ReportEnd::Argument => 13,
            ReportEnd::Memory => 14,
            ReportEnd::Unlaid => 17,
            ReportEnd::Tree => 18,
        }
    }
}

/// What is told of a report: the bytes of the text, and of the lines in front of it on a layout that was looked for; the
/// faulty word, from 1, and the fault's number; the bytes that the layout needs. What says nothing is 0.
#[repr(C)]
#[derive(Clone, Copy, Debug, Default, PartialEq, Eq)]
pub struct ReportAnswer {
    pub hint: u64,
    pub text: u64,
    pub word: u64,
    pub fault: u32,
    pub needed: u32,
}

/// The name that heads a report, and its format.
#[derive(Clone, Copy)]
pub struct Asked<'a> {
    pub name: &'a str,
    pub format: Format,
}

fn format_of(number: u32) -> Option<Format>
    ensures { result ≡ format_of number }
{
    match number {
        0 => Some(Format::Text),
        1 => Some(Format::Json),
        2 => Some(Format::Html),
        _ => None,
    }
}

impl<'a> Asked<'a> {
    /// A name in UTF-8 and the number of a format: 0 text, 1 JSON, 2 a page. `None` where it is not that.
    pub fn new(name: &'a [u8], format: u32) -> Option<Asked<'a>>
        ensures { MatchOption result (IsNotAsked name.now format) (IsAsked name.now format) }
    {
        let format = format_of(format)?;
        match str::from_utf8(name) {
            Ok(name) => Some(Asked { name, format }),
            Err(_) => None,
        }
    }
}

// Copies a text to the caller's slice, where it has room.
fn hand_out(end: ReportEnd, from: &[u8], text: &mut [u8]) -> ReportEnd
    ensures { TellsText end from.now result text.old text.new }
{
    if text.len() < from.len() {
        return ReportEnd::Room;
    }
    fill(from, text);
    end
}

fn fault_answer(fault: u32, word: u64) -> ReportAnswer
    ensures { result ≡ fault_answer fault word }
{
    ReportAnswer {
        word,
        fault,
        ..ReportAnswer::default()
    }
}

// The place of a faulty word, from 1.
fn word_place(fault: ParamFault) -> u64
    ensures { result ≡ word_place fault }
{
    match fault {
        ParamFault::UnknownKey(place) => u64::from(place) + 1,
        ParamFault::Twice(place) => u64::from(place) + 1,
        ParamFault::NotANumber(place) => u64::from(place) + 1,
    }
}

fn tell_no_layout(none: NoLayouts, answer: &mut ReportAnswer) -> ReportEnd
    ensures { TellsNoLayout none result answer.old answer.new }
{
    match none {
        NoLayouts::Memory => ReportEnd::Memory,
        NoLayouts::Word(fault) => {
            *answer = fault_answer(fault.number(), word_place(fault));
            ReportEnd::Fault
        }
        NoLayouts::Unsought(key) => {
            *answer = fault_answer(101 + u32::from(key), 0);
            ReportEnd::Fault
        }
        NoLayouts::Layout(fault) => {
            *answer = fault_answer(fault.number(), 0);
            ReportEnd::Fault
        }
        NoLayouts::Tree(fault) => {
            *answer = fault_answer(fault, 0);
            ReportEnd::Tree
        }
    }
}

// Tells the line on a layout that is not taken, for this reason.
fn tell_hint(why: u32, hint: &str, text: &mut [u8], answer: &mut ReportAnswer) -> ReportEnd
    ensures told { TellsText ReportEnd.Unlaid hint.now result text.old text.new }
    ensures answer { answer.new ≡ hint_answer why (length hint.now) }
{
    *answer = ReportAnswer {
        hint: hint.len() as u64,
        text: hint.len() as u64,
        fault: why,
        ..ReportAnswer::default()
    };
    hand_out(ReportEnd::Unlaid, hint.as_bytes(), text)
}

fn tell_refusal(refusal: &Refusal, text: &mut [u8], answer: &mut ReportAnswer) -> ReportEnd
    ensures { Tells (Err refusal.now) result text.old text.new answer.old answer.new }
{
    match refusal {
        Refusal::NoLayout(none) => tell_no_layout(*none, answer),
        Refusal::Memory => ReportEnd::Memory,
        Refusal::Short(needed) => {
            *answer = ReportAnswer {
                needed: *needed,
                ..ReportAnswer::default()
            };
            ReportEnd::Short
        }
        Refusal::NotFound => {
            *answer = fault_answer(1, 0);
            ReportEnd::Unlaid
        }
        Refusal::Unexplained(hint) => tell_hint(2, hint, text, answer),
        Refusal::Unfinished(hint) => tell_hint(3, hint, text, answer),
        Refusal::Undivided(fault) => {
            *answer = fault_answer(size_fault_number(*fault), 0);
            ReportEnd::Fault
        }
    }
}

fn tell_report(reported: &Reported, text: &mut [u8], answer: &mut ReportAnswer) -> ReportEnd
    ensures { Tells (Ok reported.now) result text.old text.new answer.old answer.new }
{
    let from = reported.text.bytes();
    *answer = ReportAnswer {
        hint: reported.hint,
        text: from.len() as u64,
        ..ReportAnswer::default()
    };
    hand_out(ReportEnd::Done, from, text)
}

/// Makes the report of an image, and tells it in the caller's slice, or why there is none. A slice without room is left
/// as it was, and `answer` tells the length that is needed.
pub fn report_in(
    alloc: Global,
    words: &[String],
    asked: &Asked<'_>,
    tree: &[u8],
    image: &[u8],
    text: &mut [u8],
    answer: &mut ReportAnswer,
) -> ReportEnd
    ensures { ReportEnds result words.now asked.now tree.now image.now text.old text.new answer.old answer.new }
{
    match report_of(alloc, words, tree, asked.format, asked.name, image) {
        Ok(reported) => tell_report(&reported, text, answer),
        Err(refusal) => tell_refusal(&refusal, text, answer),
    }
}
