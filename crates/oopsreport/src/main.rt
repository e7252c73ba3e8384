//! `oopsreport`: what images of ramoops regions hold, as text, as lines of JSON or as a page. Images are only read.
#![tactic(auto)]

mod command;
mod folder;
mod folders;
mod image;
mod layout;
mod memory;
mod names;
mod unpacking;

use anyhow::{Result, bail};
use clap::ArgMatches;
use clap::error::ErrorKind;
use command::command;
use folder::Named;
use folder_files::files_of;
use folders::Tree;
use image::System;
use layout::{Asked, NoPlan, Terminal, asked_by, format};
use memory::Progress;
use names::named;
use outside::{Sink, WriterSink};
use report_colours::ColourSink;
use report_run::{FileEnd, Messages, NamedFile, format_for, is_counted, status_of};
use report_tool::Format;
use std::alloc::{AllocError, Global};
use std::io::{IsTerminal, Read};
use std::process::ExitCode;
use std::rt::Runtime;
use std::{env, io};

/// The status where an image was not reported or a record was not saved.
const NOT_DONE: u8 = 1;

/// The status where the words of the command line are wrong.
const WRONG_WORDS: u8 = 2;

// All files, one after another, and the status.
fn all_shown<R: Runtime, S: Read, O: Sink, E: Sink>(
    rt: &R,
    messages: &mut Messages<E>,
    alloc: Global,
    images: &mut System<R, S>,
    asked: &report_run::Asked,
    is_watched: bool,
    records: &mut Named<R>,
    out: &mut O,
    files: &[NamedFile],
) -> Result<u8> {
    let all = files.len();
    let mut watch = Progress::new(rt.clone()?, is_watched);
    let end = report_run::run(
        alloc, asked, files, images, &mut watch, out, messages, records,
    );
    let is_told = match end {
        FileEnd::Unwritten => false,
        _ => is_counted(asked, all),
    };
    messages.tell_end(is_told, all);
    Ok(status_of(end, messages.is_lost))
}

// Does what is asked of the files.
fn all_files<R: Runtime, S: Read, E: Sink>(
    rt: &R,
    messages: &mut Messages<E>,
    alloc: Global,
    images: &mut System<R, S>,
    asked: &Asked,
    records: &mut Named<R>,
    files: &[NamedFile],
) -> Result<u8> {
    let mut out = WriterSink::new(io::writer(rt));
    if asked.is_coloured {
        let mut out = ColourSink::new(out);
        all_shown(
            rt,
            messages,
            alloc,
            images,
            &asked.images,
            asked.is_watched,
            records,
            &mut out,
            files,
        )
    } else {
        all_shown(
            rt,
            messages,
            alloc,
            images,
            &asked.images,
            asked.is_watched,
            records,
            &mut out,
            files,
        )
    }
}

// The paths that are named.
fn paths_of(alloc: Global, matches: &ArgMatches<'_>) -> Result<Vec<String>, AllocError> {
    let mut paths = Vec::new(alloc);
    for path in matches.get_strs("image").unwrap_or(&[]) {
        paths.push(String::from_str(alloc, path)?)?;
    }
    Ok(paths)
}

// Why these files can't be shown together.
fn misfit(paths: &[String], format: Format) -> Option<&'static str> {
    if format == Format::Html && paths.len() > 1 {
        Some("a page shows one image")
    } else if paths.iter().filter(|path| path.as_str() == "-").count() > 1 {
        Some("standard input is read once")
    } else {
        None
    }
}

// Reports the files that stand at these paths.
fn report_all<R: Runtime, S: Read + Drop, E: Sink>(
    rt: &R,
    messages: &mut Messages<E>,
    alloc: Global,
    input: S,
    asked: &mut Asked,
    paths: &[String],
) -> Result<u8> {
    if paths.is_empty() {
        bail!("no file stands there");
    }
    let is_placed = match asked.images.memory {
        Some(memory) => memory.place.is_some(),
        None => false,
    };
    let files = named(alloc, paths, asked.images.format)?;
    let mut images = System::new(rt.clone()?, alloc, input, is_placed);
    let mut records = Named::new(rt.clone()?, alloc, asked.folder.take());
    all_files(
        rt,
        messages,
        alloc,
        &mut images,
        asked,
        &mut records,
        &files,
    )
}

// Reads the words, and does what they ask.
fn run<R: Runtime, S: Read + Drop, E: Sink>(
    rt: &R,
    messages: &mut Messages<E>,
    alloc: Global,
    input: S,
    words: &[String],
    terminal: Terminal,
) -> Result<u8> {
    let matches = match command(alloc)?.try_get_matches_from(words) {
        Ok(matches) => matches,
        Err(error) if error.kind() == ErrorKind::OutOfMemory => return Err(AllocError.into()),
        Err(error) => {
            error.print(rt)?;
            return Ok(error.exit_code() as u8);
        }
    };
    let mut tree = Tree::new(rt.clone()?, alloc);
    let listed = paths_of(alloc, &matches)?;
    let files = files_of(alloc, &listed, matches.get_flag("recursive"), &mut tree)?;
    if let Some(why) = misfit(&files.paths, format(&matches)) {
        let error = command(alloc)?.error(ErrorKind::TooManyValues, why)?;
        error.print(rt)?;
        return Ok(WRONG_WORDS);
    }
    match asked_by(rt, alloc, &matches, terminal) {
        Ok(mut asked) => {
            asked.images.format = format_for(files.has_folder, asked.images.format);
            report_all(rt, messages, alloc, input, &mut asked, &files.paths)
        }
        Err(NoPlan::Memory) => Err(AllocError.into()),
        Err(NoPlan::Words(e)) => {
            eprintln!(rt; "error: {e:#}")?;
            Ok(WRONG_WORDS)
        }
    }
}

fn try_run(rt: &HostRuntime) -> Result<u8> {
    let alloc = rt.alloc();
    let words: Vec<String> = env::args(rt)?.collect(alloc)?;
    let terminal = Terminal {
        is_output: rt.stdout().is_terminal(),
        is_errors: rt.stderr().is_terminal(),
    };
    let mut messages = Messages::new(WriterSink::new(rt.stderr()));
    run(rt, &mut messages, alloc, rt.stdin(), &words, terminal)
}

fn main(rt: HostRuntime) -> ExitCode {
    match try_run(&rt) {
        Ok(status) => ExitCode::from(status),
        Err(e) => {
            let _told = eprintln!(rt; "oopsreport: {e:#}");
            ExitCode::from(NOT_DONE)
        }
    }
}
