//! Why a machine died: the plain types that code and definitions share, and in `specs/` the definition of the line of
//! a crash log that tells it, and of what the report below that line names.
#![tactic(auto)]

pub mod causes;
pub mod ends;
pub mod frames;
pub mod kinds;
pub mod words;

pub use causes::{CAUSES, FIRST_PROCESS};
pub use ends::ENDS;
pub use frames::FRAMES;
pub use kinds::KINDS;
pub use words::WORDS;

/// What words at the front of a text say (`WORDS` has them).
#[derive(Clone, Copy, Debug, PartialEq, Eq)]
pub enum Mark {
    /// The kernel gave up.
    Panic,
    /// The fault that an oops is about.
    Fault,
    /// A fault: a task never lets another run.
    SoftLockup,
    /// A fault: a processor takes no interrupt.
    HardLockup,
    /// A fault: the kernel's stack was too small.
    StackOverflow,
    /// A fault: the hardware reports an error at no place of the code.
    SystemError,
    /// The head of an oops.
    Oops,
    /// A warning, or out of memory.
    Warning,
    /// A warning: a task waits for very long. Its line is an `OnTask` with `Blocked`.
    HungTask,
    /// A warning: a processor never lets the kernel's RCU go on.
    Stall,
    /// The end of a report.
    End,
    /// The processor, the task and the kernel of a report.
    Processor,
    /// The place in the code.
    Place,
    /// The place to which the code there was to return.
    Link,
    /// Of the line of the processor: what the kernel says of itself.
    Kernel,
    /// Of a task that hangs: what stands before how long it has been blocked.
    Blocked,
    /// In a call trace: what follows a function's name.
    Offset,
    /// In a call trace: the function may be no part of it.
    Unsure,
    /// In a call trace: the stack on which the functions below it ran.
    Stack,
    /// In a call trace: an address before the name.
    Address,
    /// In a call trace: an address in place of a name.
    Bare,
    /// A processor's number before the words that count.
    Numbered,
    /// In the report of a task that hangs: what the kernel says of itself.
    Own,
    /// The line before a report, `------------[ cut here ]------------`.
    Cut,
    /// The message of a check that found the kernel's data damaged; the head of its report stands below it.
    Message,
    /// Of a lockup: what stands before the processor's number.
    Locked,
    /// A line on a task. It is `HungTask` if `Blocked` stands in it.
    OnTask,
    /// A line that warns of something. It is `Warning` if `Warned` stands in it.
    Caution,
    /// Of a warning: what stands before the processor's number.
    Warned,
    /// In the report of a stall: what stands before the number of a processor that stalls.
    Listed,
}

/// What a panic is about: a report above it, by its kind and by which of that kind.
#[derive(Clone, Copy, Debug, PartialEq, Eq)]
pub enum Cause {
    /// The last oops.
    LastOops,
    /// The last oops of process 1.
    OopsOfInit,
    LastSoftLockup,
    LastHardLockup,
    LastHungTask,
    LastStall,
    /// The fault whose report is still open at the panic.
    OpenFault,
    /// The warning whose report is still open at the panic.
    OpenWarning,
    OpenStackOverflow,
    OpenSystemError,
}

/// The report that is open at a place of a log: its first line, and what that is.
#[derive(Clone, Copy, Debug, PartialEq, Eq)]
pub struct Opened {
    pub head: Line,
    pub mark: Mark,
}

/// What the kernel does in a function that begins a call trace and is not to blame.
#[derive(Clone, Copy, Debug, PartialEq, Eq)]
pub enum Way {
    /// It tells of its death.
    Dying,
    /// It waits; only the trace of a task that hangs is about what comes below.
    Waiting,
}

/// The last two lines above another in which the kernel says something.
#[derive(Clone, Copy, Debug, PartialEq, Eq)]
pub struct Above {
    pub upper: Option<Line>,
    pub lower: Option<Line>,
}

/// Bytes that belong together in a line.
#[derive(Clone, Copy, Debug, PartialEq, Eq)]
pub enum Class {
    /// All but a newline.
    Line,
    /// A space or a tab.
    Blank,
    /// All but these.
    Word,
    /// All but these, a plus sign and parentheses.
    Name,
    /// All but these and a point.
    Symbol,
    /// A decimal digit.
    Digit,
    /// A decimal digit or a point.
    Number,
    /// All but a blank and a colon.
    Colonless,
    /// All but `]`.
    Bracketed,
    /// Of a terminal's escape: from a space to `?`.
    Parameter,
}

/// A word in what others write before a line of the kernel.
#[derive(Clone, Copy, Debug, PartialEq, Eq)]
pub enum Landmark {
    /// A time of day.
    Clock,
    /// `kernel:`.
    Kernel,
}

/// Where a line and its parts begin in the text, in bytes from 0. Each part ends where the next one begins, and is
/// empty if the line has none.
#[derive(Clone, Copy, Debug, PartialEq, Eq)]
pub struct Line {
    /// What others wrote before the kernel's line, such as `Nov 29 22:45:01 host kernel: `.
    pub start: usize,
    /// The level, such as `<4>`.
    pub level: usize,
    /// The stamp, such as `[    2.973642]`.
    pub stamp: usize,
    /// The caller, such as `[   T12]`, and then blanks, colours or `host kernel: `.
    pub caller: usize,
    /// What the line says.
    pub text: usize,
    /// The end, without a carriage return and the end of a colour.
    pub end: usize,
    /// The line below. Below the last line it is one more than the length of the text.
    pub next: usize,
}

/// A part of the text, in bytes from 0; it is never empty.
#[derive(Clone, Copy, Debug, PartialEq, Eq)]
pub struct Span {
    pub start: usize,
    pub end: usize,
}

/// A function that a report names.
#[derive(Clone, Copy, Debug, PartialEq, Eq)]
pub struct Function {
    /// Its name, such as `lkdtm_EXCEPTION+0x8/0x14 [lkdtm]`.
    pub span: Span,
    /// Whether a call trace has the place `+0x0`, as in `sysrq_reset_seq_param_set+0x0/0x94`: the call above it never
    /// returns, and the function that made it mostly ends just before.
    pub is_next: bool,
}

/// Why a machine died, and what the report below the telling line names.
#[derive(Clone, Copy, Debug, PartialEq, Eq)]
pub struct Death {
    /// The line that tells it.
    pub telling: Line,
    /// The panic that the telling line was the cause of.
    pub second: Option<Line>,
    /// The line above a warning or a `kernel BUG at` that says what was wrong, such as
    /// `refcount_t: underflow; use-after-free.`.
    pub message: Option<Line>,
    /// The processor's number, such as `0`: of a lockup the one that the telling line names.
    pub cpu: Option<Span>,
    /// The task, such as `PID: 1 Comm: init`.
    pub task: Option<Span>,
    /// The kernel, such as `Not tainted 6.1.0 #1`.
    pub kernel: Option<Span>,
    /// The function, such as `lkdtm_EXCEPTION+0x8/0x14 [lkdtm]`.
    pub function: Option<Span>,
    /// Whether the one that is meant mostly ends just before that function.
    pub is_next: bool,
}

/// Whose function a signature names.
#[derive(Clone, Copy, Debug, PartialEq, Eq)]
pub enum Blame {
    /// None.
    Nobody,
    /// That of the report.
    Report,
    /// The one that the telling line names; without one that of the report.
    Line,
}

/// What a byte of a text is a part of, by the bytes before it.
#[derive(Clone, Copy, Debug, PartialEq, Eq)]
pub enum Piece {
    /// Neither of these.
    Between,
    /// A name or a word. A digit in it is no number: `ext4`.
    Name,
    /// A number: a digit, and letters, digits and commas behind it. `0x1c`, `179,2`.
    Number,
}

/// How a log ends that tells of no death.
#[derive(Clone, Copy, Debug, PartialEq, Eq)]
pub enum Ending {
    /// The machine was restarted in order.
    Restarted,
    /// It was switched off or halted in order.
    SwitchedOff,
    /// It was restarted by sysrq.
    Reset,
    /// The log breaks off: the machine hung, lost power or was reset from outside.
    BrokenOff,
}

/// The end of a log that tells of no death.
#[derive(Clone, Copy, Debug, PartialEq, Eq)]
pub struct Ended {
    pub ending: Ending,
    /// The last line in which the kernel says something.
    pub line: Line,
}
