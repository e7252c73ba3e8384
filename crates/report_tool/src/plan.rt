// How images are read.
ghost use Rattle.std.specs.Prelude.{◌≡◌, ◌<◌, ◌^◌, true, Some, Ok, MatchResult};
ghost use Rattle.zone_spec.specs.Layout.{layout_of};
ghost use Rattle.ramoops_layout.specs.Layouts.{IsCause};
ghost use Rattle.report_tool.specs.Layouts.{read_by, is_open_by, is_rounded_by};

use grammar_spec::ParamFault;
use ramoops_layout::{DEFAULTS, LayoutError, given, layout, read_words, read_words_over};
use region_report::EntryForm;
use std::alloc::Global;
use symbols::Symbols;
use zone_spec::{LayoutFault, Params, Zone};

/// How many lines of the newest dump a text has, unless others are asked for.
const LINES: usize = 10;

/// Why there is no plan.
#[derive(Clone, Copy, Debug, PartialEq, Eq)]
pub enum PlanFault {
    Memory,
    /// The first faulty word, counted from 0.
    Word(ParamFault),
    /// The words give parameters that have no layout.
    Layout(LayoutFault),
}

/// How images are read: the parameters, the bytes of an image, its zones, the functions of the kernel, the form of the
/// entries of ftrace logs, if it is given, and how many lines of the newest dump a text has.
#[derive(Drop)]
pub struct Plan {
    pub(crate) params: Params,
    pub(crate) mem: u32,
    pub(crate) zones: Vec<Zone>,
    pub(crate) symbols: Symbols,
    pub(crate) entries: Option<EntryForm>,
    pub(crate) lines: usize,
    /// Whether words or a device tree give the parameters, and not the image itself.
    pub(crate) is_given: bool,
    /// Whether they say nothing of the order of the zones, which the records can then tell.
    pub(crate) is_open: bool,
    /// Whether a word gives another memory size, which was rounded down.
    pub(crate) is_rounded: bool,
    ghost laid: { layout_of params ≡ Ok zones.items },
    ghost sized: { mem ≡ params.mem },
    ghost tagged: { params.ftrace_sig < 2 ^ 32 },
}

// The parameters of the words.
fn read(words: &[String], is_as_given: bool) -> Result<Params, ParamFault>
    ensures { result ≡ read_by is_as_given words.now }
{
    if is_as_given {
        read_words_over(words, &DEFAULTS)
    } else {
        read_words(words)
    }
}

// Whether no word gives the order of the zones.
fn is_open_by(words: &[String]) -> bool
    ensures { result ≡ is_open_by words.now }
{
    given(words, "order").is_none()
}

// Whether a word gives another memory size than this one.
fn is_rounded_by(words: &[String], mem: u32) -> bool
    ensures { result ≡ is_rounded_by words.now mem }
{
    match given(words, "mem_size") {
        Some(size) => size != mem,
        None => false,
    }
}

impl Plan {
    ghost use Rattle.report_tool.specs.Plans.{IsLaid, IsPlan, IsPlanFault};

    /// The plan of these parameters.
    pub fn of_params(alloc: Global, params: Params) -> Result<Plan, LayoutError>
        ensures { MatchResult result (IsLaid params) (IsCause (layout_of params)) }
    {
        let layout = layout(alloc, &params)?;
        let mem = layout.mem();
        Ok(Plan {
            params,
            mem,
            zones: layout.into_zones(),
            symbols: Symbols::none(alloc),
            entries: None,
            lines: LINES,
            is_given: false,
            is_open: false,
            is_rounded: false,
        })
    }

    /// The bytes of an image.
    pub fn mem(&self) -> u32
        ensures { result ≡ self.now.mem }
    {
        self.mem
    }

    /// The same plan with the functions of this map.
    pub fn with_symbols(self, symbols: Symbols) -> Plan
        ensures { result ≡ record self { symbols = symbols } }
    {
        let Plan {
            params,
            mem,
            zones,
            symbols: _,
            entries,
            lines,
            is_given,
            is_open,
            is_rounded,
        } = self;
        Plan {
            params,
            mem,
            zones,
            symbols,
            entries,
            lines,
            is_given,
            is_open,
            is_rounded,
        }
    }

    /// The same plan, by which all entries of ftrace logs have this form; else their bytes show it.
    pub fn with_entries(self, form: EntryForm) -> Plan
        ensures { result ≡ record self { entries = Some form } }
    {
        let Plan {
            params,
            mem,
            zones,
            symbols,
            entries: _,
            lines,
            is_given,
            is_open,
            is_rounded,
        } = self;
        Plan {
            params,
            mem,
            zones,
            symbols,
            entries: Some(form),
            lines,
            is_given,
            is_open,
            is_rounded,
        }
    }

    /// The same plan, with at most so many lines of the newest dump in a text; else it has ten.
    pub fn with_lines(self, lines: usize) -> Plan
        ensures { result ≡ record self { lines = lines } }
    {
        let Plan {
            params,
            mem,
            zones,
            symbols,
            entries,
            lines: _,
            is_given,
            is_open,
            is_rounded,
        } = self;
        Plan {
            params,
            mem,
            zones,
            symbols,
            entries,
            lines,
            is_given,
            is_open,
            is_rounded,
        }
    }

    // The same plan, of parameters that were given, with these words, which can lack the order of the zones.
    pub(crate) fn given(self, words: &[String]) -> Plan
        ensures { result ≡ record self {
          is_given = true;
          is_open = is_open_by words.now;
          is_rounded = is_rounded_by words.now self.mem;
        } }
    {
        let Plan {
            params,
            mem,
            zones,
            symbols,
            entries,
            lines,
            is_given: _,
            is_open: _,
            is_rounded: _,
        } = self;
        Plan {
            params,
            mem,
            zones,
            symbols,
            entries,
            lines,
            is_given: true,
            is_open: is_open_by(words),
            is_rounded: is_rounded_by(words, mem),
        }
    }

    /// The plan of these words (`key=value`, as `ramoops_layout::read_words` reads them). `is_as_given` takes a memory
    /// size that is no power of two as it is, as the kernel does; else it is rounded down.
    pub fn new(alloc: Global, words: &[String], is_as_given: bool) -> Result<Plan, PlanFault>
        ensures { MatchResult result (IsPlan words.now is_as_given) (IsPlanFault words.now is_as_given) }
    {
        let params = match read(words, is_as_given) {
            Ok(params) => params,
            Err(fault) => return Err(PlanFault::Word(fault)),
        };
        match Plan::of_params(alloc, params) {
            Ok(plan) => Ok(plan.given(words)),
            Err(LayoutError::Fault(fault)) => Err(PlanFault::Layout(fault)),
            Err(LayoutError::Memory) => Err(PlanFault::Memory),
        }
    }
}
