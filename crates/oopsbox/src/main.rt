//! `oopsbox`: the image tool on a real file, standard input and standard output.
#![tactic(auto)]

use commands::run;
use outside::{FileStore, ReaderSource, WriterSink};
use std::alloc::{AllocError, Global};
use std::env::Env;
use std::process::ExitCode;
use std::rt::Files;
use std::{env, io};

/// Why the words of the command line are not at hand.
enum NoWords {
    Memory,
    Refused,
}

// The words after the program's own name.
fn words<R: Env + AllocGlobal>(rt: &R) -> Result<Vec<String>, NoWords> {
    let all = match env::args(rt) {
        Ok(all) => all,
        Err(e) if e.kind() == io::ErrorKind::OutOfMemory => return Err(NoWords::Memory),
        Err(_) => return Err(NoWords::Refused),
    };
    let mut words = Vec::new(rt.alloc());
    for (i, word) in all.enumerate() {
        if i > 0 && words.push(word).is_err() {
            return Err(NoWords::Memory);
        }
    }
    Ok(words)
}

// The store over the file that the first word names.
fn store<R: Files + Clone + Drop>(
    rt: &R,
    alloc: Global,
    words: &[String],
) -> Result<FileStore<R>, AllocError> {
    match words {
        [] => FileStore::new(rt, alloc, ""),
        [path, ..] => FileStore::new(rt, alloc, path.as_str()),
    }
}

fn main(rt: HostRuntime) -> ExitCode {
    let words = match words(&rt) {
        Ok(words) => words,
        Err(NoWords::Memory) => return ExitCode::from(1),
        Err(NoWords::Refused) => return ExitCode::from(11),
    };
    let Ok(mut image) = store(&rt, rt.alloc(), &words) else {
        return ExitCode::from(1);
    };
    let mut script = ReaderSource::new(rt.reader());
    let mut out = WriterSink::new(io::writer(&rt));
    ExitCode::from(run(rt.alloc(), &words, &mut script, &mut image, &mut out))
}
