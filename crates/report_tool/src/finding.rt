// The layout of an image, looked for where no word gives it.
ghost use Rattle.std.specs.Prelude.{◌≡◌, ◌≤◌, IfOk, IfErr, IfSome, MatchResult, take, codes, option_map};
ghost use Rattle.zone_spec.specs.Layout.{layout_of};
ghost use Rattle.zone_spec.specs.Numbers.{most_memory};
ghost use Rattle.ramoops_layout.specs.Layouts.{IsCause};
ghost use Rattle.layout_spec.specs.Laid.{params_of};
ghost use Rattle.layout_search.specs.Answers.{IsSearched};
ghost use Rattle.command_spec.specs.declared.Stop.TheVariants.{ImageFault};
ghost use Rattle.script_spec.specs.Playing.{KeptUnless};
ghost use Rattle.image_file.specs.Loading.{FrontStop};
ghost use Rattle.grammar_spec.specs.Words.{texts};
ghost use Rattle.grammar_spec.specs.ZoneWords.{given as given_by, order_at as order_of};
ghost use Rattle.grammar_spec.specs.ZoneWords.{byte_order_at as byte_order_of};
ghost use Rattle.report_tool.specs.Finding.{known_by};
ghost use Rattle.report_tool.specs.Plans.{IsLaid};

use crate::{Plan, Stop};
use image_file::load_front;
use layout_search::{Candidate, Found, Known, params, search};
use outside::Load;
use ramoops_layout::{ByteOrder, LayoutError, Order, byte_order_at, given, order_at, parity_given};
use std::alloc::Global;

/// A layout has at most so many bytes.
pub(crate) const MOST: u32 = 16_777_216;

fn size(words: &[String], key: &str) -> Option<u64>
    ensures { result ≡ given_by (texts words.now) key.now }
{
    match given(words, key) {
        Some(number) => Some(u64::from(number)),
        None => None,
    }
}

fn order(words: &[String]) -> Option<Order>
    ensures { result ≡ option_map order_of (given_by (texts words.now) (codes "order")) }
{
    match given(words, "order") {
        Some(place) => Some(order_at(place)),
        None => None,
    }
}

fn byte_order(words: &[String]) -> Option<ByteOrder>
    ensures { result ≡ option_map byte_order_of (given_by (texts words.now) (codes "byte_order")) }
{
    match given(words, "byte_order") {
        Some(place) => Some(byte_order_at(place)),
        None => None,
    }
}

/// What these words say of a layout whose memory is looked for.
pub fn known(words: &[String]) -> Known
    ensures { result ≡ known_by words.now }
{
    Known {
        mem: None,
        dump: size(words, "record_size"),
        console: size(words, "console_size"),
        ftrace: size(words, "ftrace_size"),
        pmsg: size(words, "pmsg_size"),
        parity: parity_given(words, "ecc"),
        cpus: size(words, "cpus"),
        tag: given(words, "ftrace_sig"),
        order: order(words),
        byte_order: byte_order(words),
    }
}

/// The layout that the image's first 16 MiB show, of those that agree with what is known.
pub fn find<M: Load>(alloc: Global, image: &mut M, known: &Known) -> Result<Option<Found>, Stop>
    ensures found { IfOk result (λ found. IfSome (M.holds image.old) (λ bs.
        IsSearched known.now (take most_memory bs) found)) }
    ensures err { IfErr result (λ s. FrontStop s (M.faults image.old) (M.faults image.new)) }
    ensures same { M.holds image.new ≡ M.holds image.old }
    ensures counts { KeptUnless ImageFault result (M.faults image.old) (M.faults image.new) }
    ensures later { M.faults image.old ≤ M.faults image.new }
{
    let bytes = load_front(alloc, image, MOST)?;
    let found = search(alloc, &bytes, known)?;
    Ok(found)
}

impl Plan {
    /// The plan of a layout that was found.
    pub fn of_candidate(alloc: Global, candidate: &Candidate) -> Result<Plan, LayoutError>
        ensures { MatchResult result (IsLaid (params_of candidate.now)) (IsCause (layout_of (params_of candidate.now))) }
    {
        Plan::of_params(alloc, params(candidate))
    }
}
