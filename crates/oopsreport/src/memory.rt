// How far a copy of all of a machine's memory was read.
use report_run::Watch;
use std::rt::Runtime;

/// No percent that is shown.
const NONE: u64 = 101;

/// A line of a terminal that tells how far a file was read.
#[derive(Drop)]
pub struct Progress<R: Runtime> {
    rt: R,
    is_shown: bool,
    percent: u64,
}

impl<R: Runtime> Progress<R> {
    pub fn new(rt: R, is_shown: bool) -> Progress<R> {
        Progress {
            rt,
            is_shown,
            percent: NONE,
        }
    }
}

impl<R: Runtime> Watch for Progress<R> {
    fn reached(&mut self, done: u64, all: u64) {
        let percent = (done / (all / 100).max(1)).min(100);
        let is_end = done >= all;
        if self.is_shown && (is_end || percent != self.percent) {
            let end = if is_end { "\n" } else { "" };
            let _told = eprint!(self.rt; "\r{percent}% read{end}");
        }
        self.percent = if is_end { NONE } else { percent };
    }
}
