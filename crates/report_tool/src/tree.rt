// The plan that a board's device tree gives.
ghost use Rattle.std.specs.Prelude.{◌≡◌, ◌&&◌, codes, find, is_none, map, Ok, MatchResult};
ghost use Rattle.std.specs.Str.{bytes_eq};
ghost use Rattle.std.specs.Option.{option_copied};
ghost use Rattle.grammar_spec.specs.Words.{texts};
ghost use Rattle.grammar_spec.specs.ZoneWords.{given as given_by};
ghost use Rattle.dtb_spec.specs.Ramoops.{nodes_of};
ghost use Rattle.dtb.specs.ReaderAnswers.{shown};
ghost use Rattle.report_tool.specs.Trees.{numbers_found, only_numbers, numbers_meant, params_said, wants_cpus};
ghost use Rattle.report_tool.specs.Trees.{params_over, params_in, IsTreePlan, IsTreeFault, HasNoNodes, address_in};
ghost use Rattle.report_tool.specs.Trees.{IsNoAddress};

use crate::Plan;
use dtb::{DtbError, Fault, Node, Numbers, ramoops_nodes};
use grammar_spec::ParamFault;
use ramoops_layout::{LayoutError, given, read_words_over};
use std::alloc::Global;
use zone_spec::{ByteOrder, LayoutFault, Order, Params};

/// Why a device tree gives no plan.
#[derive(Clone, Copy, Debug, PartialEq, Eq)]
pub enum TreeFault {
    Memory,
    /// The tree, or a ramoops node of it, is broken.
    Tree(Fault),
    /// There is no ramoops node, or none at the path that is asked for.
    NoNode,
    /// There are several, and no path is asked for.
    Several,
    /// The first faulty word, counted from 0.
    Word(ParamFault),
    /// The node has an ftrace zone for each processor, and no word `cpus` gives their number.
    NoCpus,
    /// The parameters have no layout.
    Layout(LayoutFault),
}

// The numbers of the node of this path.
fn numbers_at(nodes: &[Node], path: &str) -> Result<Numbers, TreeFault>
    ensures { result ≡ numbers_found (find (λ node. bytes_eq node.path path.now) (map shown nodes.now)) }
{
    for node in nodes {
        if node.path.as_slice() == path.as_bytes() {
            return Ok(node.numbers);
        }
    }
    Err(TreeFault::NoNode)
}

// The numbers of the only node.
fn only_numbers(nodes: &[Node]) -> Result<Numbers, TreeFault>
    ensures { result ≡ only_numbers (map shown nodes.now) }
{
    match nodes {
        [] => Err(TreeFault::NoNode),
        [node] => Ok(node.numbers),
        _ => Err(TreeFault::Several),
    }
}

// The numbers of the node that is meant.
fn meant(nodes: &[Node], path: Option<&str>) -> Result<Numbers, TreeFault>
    ensures { result ≡ numbers_meant (option_copied path.entry) (map shown nodes.now) }
{
    match path {
        Some(path) => numbers_at(nodes, path),
        None => only_numbers(nodes),
    }
}

// What a node says.
fn params_said(n: &Numbers) -> Params
    ensures { result ≡ params_said n.now }
{
    let ecc = u64::from(n.ecc_size);
    Params {
        mem: n.size,
        dump: u64::from(n.record_size),
        console: u64::from(n.console_size),
        ftrace: u64::from(n.ftrace_size),
        pmsg: u64::from(n.pmsg_size),
        ecc,
        cpus: 1,
        ftrace_sig: 0,
        block: 128,
        ecc_dump: ecc,
        ecc_console: ecc,
        ecc_ftrace: ecc,
        ecc_pmsg: ecc,
        order: Order::FtracePmsg,
        byte_order: ByteOrder::Little,
    }
}

// Whether there is an ftrace zone for each processor (`RAMOOPS_FLAG_FTRACE_PER_CPU`).
fn wants_cpus(n: &Numbers) -> bool
    ensures { result ≡ wants_cpus n.now }
{
    n.flags % 2 == 1 && n.ftrace_size > 0
}

// Whether the number of processors is wanted and not given.
fn lacks_cpus(words: &[String], n: &Numbers) -> bool
    ensures { result ≡ (wants_cpus n.now && is_none (given_by (texts words.now) (codes "cpus"))) }
{
    wants_cpus(n) && given(words, "cpus").is_none()
}

// The parameters of a node and of words, which count more.
fn params_over(words: &[String], n: &Numbers) -> Result<Params, TreeFault>
    ensures { result ≡ params_over words.now (Ok n.now) }
{
    let params = match read_words_over(words, &params_said(n)) {
        Ok(params) => params,
        Err(fault) => return Err(TreeFault::Word(fault)),
    };
    if lacks_cpus(words, n) {
        return Err(TreeFault::NoCpus);
    }
    Ok(params)
}

// The ramoops nodes of a tree.
fn nodes_in(alloc: Global, tree: &[u8]) -> Result<Vec<Node>, TreeFault>
    ensures { MatchResult result (λ nodes. nodes_of tree.now ≡ Ok (map shown nodes.items)) (HasNoNodes tree.now) }
{
    match ramoops_nodes(alloc, tree) {
        Ok(nodes) => Ok(nodes),
        Err(DtbError::Memory) => Err(TreeFault::Memory),
        Err(DtbError::Broken(fault)) => Err(TreeFault::Tree(fault)),
    }
}

/// The address of the region that a board's flattened device tree names: of its only ramoops node, or of the node of
/// this path.
pub fn tree_address(alloc: Global, tree: &[u8], path: Option<&str>) -> Result<u64, TreeFault>
    ensures { MatchResult result (λ address. address_in (option_copied path.entry) (nodes_of tree.now) ≡ Ok address)
        (IsNoAddress tree.now (option_copied path.entry)) }
{
    let nodes = nodes_in(alloc, tree)?;
    let numbers = meant(&nodes, path)?;
    Ok(numbers.address)
}

// The parameters of a tree, the path of its node and words.
fn params_in(
    alloc: Global,
    tree: &[u8],
    path: Option<&str>,
    words: &[String],
) -> Result<Params, TreeFault>
    ensures { MatchResult result (λ p. params_in (option_copied path.entry) words.now (nodes_of tree.now) ≡ Ok p)
        (IsTreeFault tree.now (option_copied path.entry) words.now) }
{
    let nodes = nodes_in(alloc, tree)?;
    let numbers = meant(&nodes, path)?;
    params_over(words, &numbers)
}

impl Plan {
    /// The plan of a board's flattened device tree (`fs/pstore/ram.c`, `ramoops_parse_dt`): of its only ramoops node,
    /// or of the node of this path, as `/reserved-memory/ramoops@8f000000`. Words (`key=value`) count more than the
    /// node. If neither tells, there is 1 processor, the tag of ftrace zones is 0, and the zones are in the order of
    /// Linux 6.1, unless a record names a kernel with another.
    pub fn of_tree(
        alloc: Global,
        tree: &[u8],
        path: Option<&str>,
        words: &[String],
    ) -> Result<Plan, TreeFault>
        ensures { MatchResult result (IsTreePlan tree.now (option_copied path.entry) words.now)
            (IsTreeFault tree.now (option_copied path.entry) words.now) }
    {
        let params = params_in(alloc, tree, path, words)?;
        match Plan::of_params(alloc, params) {
            Ok(plan) => Ok(plan.given(words)),
            Err(LayoutError::Fault(fault)) => Err(TreeFault::Layout(fault)),
            Err(LayoutError::Memory) => Err(TreeFault::Memory),
        }
    }
}
