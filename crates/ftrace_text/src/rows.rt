// Logs of real kernels, each a theorem.
ghost use Rattle.ftrace_text.specs.Rows.{OneEntry, KernelsLines, FormsShown, FormGiven, TwoShortLogs};

/// An entry of a 32-bit ARM, of a big-endian MIPS and of an arm64.
pub fn one_entry()
    ensures { OneEntry }
{}

/// What Linux shows of a log with parity.
pub fn kernels_lines()
    ensures { KernelsLines }
{}

/// Which form a log's bytes show.
pub fn forms_shown()
    ensures { FormsShown }
{}

/// Two processors with entries of 16 bytes.
pub fn two_short_logs()
    ensures { TwoShortLogs }
{}

/// A form that is given.
pub fn form_given()
    ensures { FormGiven }
{}
