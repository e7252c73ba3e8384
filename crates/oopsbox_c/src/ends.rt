// How a call ends.
ghost use Rattle.std.specs.Prelude.{◌≡◌};
ghost use Rattle.oopsbox_c.specs.Ends.{status_of};

/// How a call ends.
#[derive(Clone, Copy, Debug, PartialEq, Eq)]
pub enum End {
    /// All was done.
    Done,
    /// A fault of a parameter or of the layout.
    Fault,
    /// The image ends before the zone does.
    Short,
    /// A slice of the caller's has too little room.
    Room,
    /// An argument is outside its range.
    Argument,
    /// Memory was refused.
    Memory,
    /// No codeword is near enough.
    Bad,
    /// The zone does not stand as one that can be written.
    Closed,
    /// The tool ran, with this status.
    Ran(u8),
}

impl End {
    /// The number that C sees. Those of a run are below 11.
    pub fn status(self) -> u32
        ensures { result ≡ status_of self }
    {
        match self {
            End::Done => 0,
            End::Fault => 3,
            End::Short => 4,
            End::Room => 12,
            End::Argument => 13,
            End::Memory => 14,
            End::Bad => 15,
            End::Closed => 16,
            End::Ran(status) => u32::from(status),
        }
    }
}
