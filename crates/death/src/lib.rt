//! Why a machine died: the telling line of a crash log, and what the report below it names. A crash log is a dump's
//! body or a console, as the kernel's printk wrote it.
#![tactic(auto)]

ghost use Rattle.std.specs.Prelude.{◌≡◌, OnOk, IfOk};
ghost use Rattle.death_spec.specs.Reports.{death_of, trace_of};

mod causes;
mod endings;
pub mod laws;
mod lines;
mod marks;
mod messages;
mod prefixes;
mod reports;
mod signatures;
mod telling;
mod traces;

pub use death_spec::{Class, Death, Ended, Ending, Line, Mark, Span};
pub use endings::ending;
pub use lines::{is_a, level, next_line, part, said};
pub use signatures::signature;
use std::alloc::{AllocError, Global};

/// Why the machine died, as a text tells it; `None` if it has no telling line. It takes no memory, and at most seven
/// passes over the text.
#[tactic(auto, unfolding(death_spec::specs::Reports::death_of))]
pub fn death(text: &[u8]) -> Option<Death>
    ensures { result ≡ death_of text.now }
{
    let line = telling::telling_line(text)?;
    Some(match causes::cause_of(text, line) {
        Some(cause) => reports::death_at(text, cause, Some(line)),
        None => reports::death_at(text, line, None),
    })
}

/// The functions of the call trace in the telling line's report, the innermost first, without their offsets. Those that
/// the kernel is unsure of, `? name`, are left out.
#[tactic(auto, unfolding(death_spec::specs::Reports::trace_of))]
pub fn trace(alloc: Global, text: &[u8]) -> Result<Vec<Span>, AllocError>
    ensures { IfOk result (λ names. names.items ≡ trace_of text.now) }
{
    match death(text) {
        Some(death) => reports::trace_in(alloc, text, death.telling),
        None => Ok(Vec::new(alloc)),
    }
}
