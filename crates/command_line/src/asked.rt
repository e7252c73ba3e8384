// What the words of the command line name.
ghost use Rattle.std.specs.Prelude.{◌<◌};

use crate::words::RamCommand;

/// What a word names.
#[derive(Clone, Copy)]
pub enum Command<'a> {
    OnRam(RamCommand<'a>),
    /// A script on the block store.
    BlkRun,
    /// A move to an image of these parameters.
    Move(&'a [String]),
    /// A script on a shared zone.
    SharedRun,
}

/// A command, how many words stand before its parameters, and these.
#[derive(Clone, Copy)]
pub struct Asked<'a> {
    pub command: Command<'a>,
    pub before: u32,
    pub params: &'a [String],
    ghost few: { before < 5 },
}
