// How an image is laid out, by words and a device tree.
ghost use Rattle.std.specs.Prelude.{◌≡◌, [], length, codes, is_some, Option, Some, IfSome, MatchResult};
ghost use Rattle.std.specs.Option.{option_copied};
ghost use Rattle.grammar_spec.specs.Words.{texts};
ghost use Rattle.grammar_spec.specs.ZoneWords.{given as given_by};
ghost use Rattle.report_entry.specs.Layouts.{unsought, tree_fault, plan_fault, tree_number, IsKnown, IsNotSought};
ghost use Rattle.report_entry.specs.Layouts.{IsTreeLayout, IsNoTreeLayout, IsWordsLayout, IsNoWordsLayout};
ghost use Rattle.report_entry.specs.Layouts.{IsSoughtLayout, IsLayout, IsNoLayout, unplaced_fault, IsUnplaced};
ghost use Rattle.report_entry.specs.Layouts.{AreTreeLayouts, AreNoTreeLayouts, AreUnsizedLayouts};
ghost use Rattle.report_entry.specs.Layouts.{AreNoUnsizedLayouts, ArePlacedLayouts, AreNoPlacedLayouts};
ghost use Rattle.report_entry.specs.Layouts.{AreLayouts, AreNoLayouts};

use dtb::Fault;
use grammar_spec::ParamFault;
use ramoops_layout::{DEFAULTS, given, read_words_over};
use report_tool::{Known, Plan, PlanFault, TreeFault, known};
use std::alloc::Global;
use zone_spec::LayoutFault;

/// How an image is laid out.
#[derive(Drop)]
pub enum Layouts {
    /// By this plan.
    Given(Plan),
    /// As its own bytes show, which must agree with what is known.
    Sought(Known),
}

/// Why it is not known how an image is laid out.
#[derive(Clone, Copy, Debug, PartialEq, Eq)]
pub enum NoLayouts {
    Memory,
    /// The first faulty word, counted from 0.
    Word(ParamFault),
    /// A key that a layout which is looked for has not: its number in `block_size`, `ecc_dump`, `ecc_console`,
    /// `ecc_ftrace`, `ecc_pmsg`, from 0.
    Unsought(u8),
    /// The parameters have no layout.
    Layout(LayoutFault),
    /// The device tree says nothing: 1 to 13 are the faults of `dtb::Fault`, in order, 14 is no ramoops node, 15
    /// several, 16 that `cpus` is wanted.
    Tree(u32),
}

// The first key that no layout which is looked for has.
fn unsought(words: &[String]) -> Option<u8>
    ensures { result ≡ unsought (texts words.now) }
{
    if given(words, "block_size").is_some() {
        return Some(0);
    }
    if given(words, "ecc_dump").is_some() {
        return Some(1);
    }
    if given(words, "ecc_console").is_some() {
        return Some(2);
    }
    if given(words, "ecc_ftrace").is_some() {
        return Some(3);
    }
    if given(words, "ecc_pmsg").is_some() {
        return Some(4);
    }
    None
}

/// What words say of a layout that is looked for in so much memory, if that is known, or the first fault. The layouts
/// that are looked through have blocks of 128 bytes and one parity, so keys that say otherwise are refused.
fn sought(words: &[String], mem: Option<u64>) -> Result<Known, NoLayouts>
    ensures { MatchResult result (IsKnown words.now mem) (IsNotSought words.now) }
{
    if let Err(fault) = read_words_over(words, &DEFAULTS) {
        return Err(NoLayouts::Word(fault));
    }
    match unsought(words) {
        Some(key) => Err(NoLayouts::Unsought(key)),
        None => Ok(Known {
            mem,
            ..known(words)
        }),
    }
}

fn sought_layout(words: &[String], mem: Option<u64>) -> Result<Layouts, NoLayouts>
    ensures { MatchResult result (IsSoughtLayout words.now mem) (IsNotSought words.now) }
{
    match sought(words, mem) {
        Ok(known) => Ok(Layouts::Sought(known)),
        Err(fault) => Err(fault),
    }
}

fn plan_fault(fault: PlanFault) -> NoLayouts
    ensures { result ≡ plan_fault fault }
{
    match fault {
        PlanFault::Memory => NoLayouts::Memory,
        PlanFault::Word(fault) => NoLayouts::Word(fault),
        PlanFault::Layout(fault) => NoLayouts::Layout(fault),
    }
}

fn words_layout(alloc: Global, words: &[String], is_as_given: bool) -> Result<Layouts, NoLayouts>
    ensures { MatchResult result (IsWordsLayout words.now is_as_given) (IsNoWordsLayout words.now is_as_given) }
{
    match Plan::new(alloc, words, is_as_given) {
        Ok(plan) => Ok(Layouts::Given(plan)),
        Err(fault) => Err(plan_fault(fault)),
    }
}

fn tree_number(fault: Fault) -> u32
    ensures { result ≡ tree_number fault }
{
    match fault {
        Fault::NoMagic => 1,
        Fault::Version => 2,
        Fault::Outside => 3,
        Fault::EndMissing => 4,
        Fault::UnknownToken => 5,
        Fault::Unended => 6,
        Fault::PropertyOutside => 7,
        Fault::EndOutside => 8,
        Fault::TooDeep => 9,
        Fault::Roots => 10,
        Fault::TooShort => 11,
        Fault::TooLarge => 12,
        Fault::Reg => 13,
    }
}

/// Why a device tree gives no layout, or no address.
pub fn tree_fault(fault: TreeFault) -> NoLayouts
    ensures { result ≡ tree_fault fault }
{
    match fault {
        TreeFault::Memory => NoLayouts::Memory,
        TreeFault::Tree(fault) => NoLayouts::Tree(tree_number(fault)),
        TreeFault::NoNode => NoLayouts::Tree(14),
        TreeFault::Several => NoLayouts::Tree(15),
        TreeFault::Word(fault) => NoLayouts::Word(fault),
        TreeFault::NoCpus => NoLayouts::Tree(16),
        TreeFault::Layout(fault) => NoLayouts::Layout(fault),
    }
}

fn tree_layout(
    alloc: Global,
    words: &[String],
    tree: &[u8],
    node: Option<&str>,
) -> Result<Layouts, NoLayouts>
    ensures { MatchResult result (IsTreeLayout words.now tree.now (option_copied node.entry))
        (IsNoTreeLayout words.now tree.now (option_copied node.entry)) }
{
    match Plan::of_tree(alloc, tree, node, words) {
        Ok(plan) => Ok(Layouts::Given(plan)),
        Err(fault) => Err(tree_fault(fault)),
    }
}

/// How an image is laid out: by the only ramoops node of the tree, unless it is empty, and else by the words; words
/// without `mem_size` leave the layout to be looked for.
pub fn layout_by(alloc: Global, words: &[String], tree: &[u8]) -> Result<Layouts, NoLayouts>
    ensures { MatchResult result (IsLayout words.now tree.now) (IsNoLayout words.now tree.now) }
{
    if !tree.is_empty() {
        return tree_layout(alloc, words, tree, None);
    }
    if given(words, "mem_size").is_none() {
        return sought_layout(words, None);
    }
    words_layout(alloc, words, false)
}

/// Where the region lies in an image.
#[derive(Clone, Copy)]
pub enum Place {
    /// The image begins with it.
    Front,
    /// The image is a whole memory, and the region begins at this place of it.
    At(u64),
    /// The image is a whole memory, and no place is named.
    Anywhere,
}

/// What is said of images besides the words.
#[derive(Clone, Copy)]
pub struct Said {
    /// A memory size is taken as it is, as the kernel takes it, also if it is no power of two.
    pub is_as_given: bool,
    pub place: Place,
    /// The region's size, if it is reserved by a name.
    pub reserved: Option<u64>,
}

/// Why it is not known how images are laid out.
#[derive(Clone, Copy)]
pub enum LayoutsFault {
    /// As of an image in memory.
    NoLayouts(NoLayouts),
    /// A key, numbered as in `NoLayouts::Unsought`, that needs a place: the words give a memory size, and no place in
    /// the memory is named.
    Unplaced(u8),
    /// The memory size is to be taken as it is given, and none is given.
    AsGiven,
    /// A device tree, and no place in the memory.
    NoPlace,
}

fn tree_layouts(
    alloc: Global,
    words: &[String],
    tree: &[u8],
    node: Option<&str>,
    place: Place,
) -> Result<Layouts, LayoutsFault>
    ensures { MatchResult result (AreTreeLayouts place words.now tree.now (option_copied node.entry))
        (AreNoTreeLayouts place words.now tree.now (option_copied node.entry)) }
{
    if matches!(place, Place::Anywhere) {
        return Err(LayoutsFault::NoPlace);
    }
    match tree_layout(alloc, words, tree, node) {
        Ok(layouts) => Ok(layouts),
        Err(none) => Err(LayoutsFault::NoLayouts(none)),
    }
}

// The layout is looked for, in memory of any size or of the one that is reserved.
fn unsized_layouts(words: &[String], said: &Said) -> Result<Layouts, LayoutsFault>
    ensures { MatchResult result (AreUnsizedLayouts words.now said.now) (AreNoUnsizedLayouts words.now said.now) }
{
    if said.is_as_given {
        return Err(LayoutsFault::AsGiven);
    }
    match sought_layout(words, said.reserved) {
        Ok(layouts) => Ok(layouts),
        Err(none) => Err(LayoutsFault::NoLayouts(none)),
    }
}

fn unplaced_fault(none: NoLayouts) -> LayoutsFault
    ensures { result ≡ unplaced_fault none }
{
    match none {
        NoLayouts::Unsought(key) => LayoutsFault::Unplaced(key),
        none => LayoutsFault::NoLayouts(none),
    }
}

// The layout is looked for in a whole memory, in regions of this plan's size.
fn sized_layouts(words: &[String], plan: &Plan) -> Result<Layouts, LayoutsFault>
    ensures { MatchResult result (IsSoughtLayout words.now (Some plan.now.mem)) (IsUnplaced words.now) }
{
    match sought_layout(words, Some(u64::from(plan.mem()))) {
        Ok(layouts) => Ok(layouts),
        Err(none) => Err(unplaced_fault(none)),
    }
}

// The words give the memory's size.
fn placed_layouts(alloc: Global, words: &[String], said: &Said) -> Result<Layouts, LayoutsFault>
    ensures { MatchResult result (ArePlacedLayouts said.now.place words.now said.now.is_as_given)
        (AreNoPlacedLayouts said.now.place words.now said.now.is_as_given) }
{
    let plan = match Plan::new(alloc, words, said.is_as_given) {
        Ok(plan) => plan,
        Err(fault) => return Err(LayoutsFault::NoLayouts(plan_fault(fault))),
    };
    match said.place {
        Place::Anywhere => sized_layouts(words, &plan),
        _ => Ok(Layouts::Given(plan)),
    }
}

/// How images are laid out: by the tree's node of this path, or by its only one; else by the words. Without `mem_size`
/// the layout is looked for, and in a whole memory also with it, if no place is named.
pub fn layouts_by(
    alloc: Global,
    words: &[String],
    tree: Option<&[u8]>,
    node: Option<&str>,
    said: &Said,
) -> Result<Layouts, LayoutsFault>
    ensures { MatchResult result (AreLayouts (option_copied tree.entry) words.now (option_copied node.entry) said.now)
        (AreNoLayouts (option_copied tree.entry) words.now (option_copied node.entry) said.now) }
{
    match tree {
        Some(tree) => tree_layouts(alloc, words, tree, node, said.place),
        None if given(words, "mem_size").is_none() => unsized_layouts(words, said),
        None => placed_layouts(alloc, words, said),
    }
}
