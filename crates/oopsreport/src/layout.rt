// How the words of the command line ask for images to be read.
use anyhow::anyhow;
use clap::ArgMatches;
use dtb::ramoops_nodes;
use found_regions::{first_address, place_asked};
use grammar_spec::ParamFault;
use kernel_line::{KernelLine, LineFault, Module};
use ramoops_layout::given;
use region_report::EntryForm;
use report_entry::{
    Layouts, LayoutsFault, NoLayouts, Place, Said, layouts_by, storages_in, tree_fault,
    with_storage_words,
};
use report_run::{Logs, Storages, WholeMemory, dressed};
use report_tool::{Format, Plan, add_order, add_tag, ftrace_tag, tree_address, zone_order};
use std::alloc::{AllocError, Global};
use std::io::ErrorKind;
use std::rt::Runtime;
use std::{env, fs};

/// The keys that no layout which is looked for has, by their numbers.
const UNSOUGHT: [&str; 5] = [
    "block_size",
    "ecc_dump",
    "ecc_console",
    "ecc_ftrace",
    "ecc_pmsg",
];

/// Why there is no plan: a want of memory, or what is wrong with the words.
pub enum NoPlan {
    Memory,
    Words(anyhow::Error),
}

impl From<AllocError> for NoPlan {
    fn from(_: AllocError) -> NoPlan {
        NoPlan::Memory
    }
}

// What is wrong with a kernel's command line.
fn no_line(fault: LineFault) -> NoPlan {
    match fault {
        LineFault::Memory => NoPlan::Memory,
        LineFault::OpenQuote => {
            NoPlan::Words(anyhow!("a quote of the kernel's command line has no end"))
        }
        LineFault::NoText => {
            NoPlan::Words(anyhow!("a word of the layout in the kernel's command line is no text"))
        }
    }
}

// What a file holds.
fn read_file<R: Runtime>(rt: &R, path: &str) -> Result<Vec<u8, R::A>, NoPlan> {
    match fs::read(rt, path) {
        Ok(bytes) => Ok(bytes),
        Err(e) if e.kind() == ErrorKind::OutOfMemory => Err(NoPlan::Memory),
        Err(e) => Err(NoPlan::Words(anyhow!("{path}: {e}"))),
    }
}

// The kernel's command line, given as text or in a file; without one an empty line.
fn read_line<R: Runtime>(
    rt: &R,
    alloc: Global,
    matches: &ArgMatches<'_>,
) -> Result<KernelLine, NoPlan> {
    let read = match (matches.get_str("cmdline"), matches.get_str("cmdline-file")) {
        (Some(text), _) => KernelLine::read(alloc, text.as_bytes()),
        (None, Some(path)) => KernelLine::read(alloc, &read_file(rt, path)?),
        (None, None) => KernelLine::read(alloc, b""),
    };
    read.map_err(no_line)
}

/// The word that gives the bytes of an entry of ftrace logs. It lays nothing out.
const ENTRY: &str = "ftrace_entry=";

// The value of that word, if it is this one; a kernel's command line would have it as a word of the module.
fn entry_bytes(word: &str) -> Option<&str> {
    match word.strip_prefix("ramoops.") {
        Some(own) => own.strip_prefix(ENTRY),
        None => word.strip_prefix(ENTRY),
    }
}

// The form of the entries of ftrace logs, if a word gives it.
fn entry_form(matches: &ArgMatches<'_>) -> Result<Option<EntryForm>, NoPlan> {
    let mut form = None;
    for word in matches.get_strs("param").unwrap_or(&[]) {
        let Some(bytes) = entry_bytes(word) else {
            continue;
        };
        if form.is_some() {
            return Err(NoPlan::Words(anyhow!("{word} gives a parameter again")));
        }
        form = match bytes {
            "24" => Some(EntryForm::Long),
            "16" => Some(EntryForm::Short),
            _ => {
                let fault = anyhow!(
                    "{word} gives no size of an entry: 24, or 16 of a 32-bit kernel"
                );
                return Err(NoPlan::Words(fault));
            }
        };
    }
    Ok(form)
}

// The plan, with this form of the entries of ftrace logs.
fn with_form(plan: Plan, form: Option<EntryForm>) -> Plan {
    match form {
        Some(form) => plan.with_entries(form),
        None => plan,
    }
}

fn add_params(
    alloc: Global,
    words: &mut Vec<String>,
    matches: &ArgMatches<'_>,
) -> Result<(), NoPlan> {
    for word in matches.get_strs("param").unwrap_or(&[]) {
        if entry_bytes(word).is_some() {
            continue;
        }
        words
            .push(String::from_str(alloc, word)?)
            .map_err(AllocError::from)?;
    }
    Ok(())
}

// Adds what a kernel's version tells of its regions: the tag of ftrace zones and the order of the zones.
fn add_kernel(
    alloc: Global,
    words: &mut Vec<String>,
    matches: &ArgMatches<'_>,
) -> Result<(), NoPlan> {
    if let Some(version) = matches.get_str("kernel") {
        match ftrace_tag(version) {
            Some(tag) => add_tag(alloc, words, tag)?,
            None => {
                let fault = anyhow!("--kernel {version} is no version X.Y or X.Y.Z");
                return Err(NoPlan::Words(fault));
            }
        }
        if given(words, "order").is_none()
            && let Some(order) = zone_order(version)
        {
            add_order(alloc, words, order)?;
        }
    }
    Ok(())
}

// The map in a file, if one is named.
fn read_map<R: Runtime>(
    rt: &R,
    alloc: Global,
    matches: &ArgMatches<'_>,
) -> Result<Option<Vec<u8>>, NoPlan> {
    match matches.get_str("symbols") {
        Some(path) => Ok(Some(Vec::from_slice(alloc, &read_file(rt, path)?)?)),
        None => Ok(None),
    }
}

// How many lines of the newest dump are asked for.
fn line_count(matches: &ArgMatches<'_>) -> Result<usize, NoPlan> {
    let text = matches.get_str("lines").unwrap_or("10");
    match text.parse::<u32>() {
        Ok(lines) => Ok(lines as usize),
        Err(_) => Err(NoPlan::Words(anyhow!("--lines {text} is no number"))),
    }
}

/// An unknown key, and a value that is no number: of a region's words, and of a storage's.
const REGION_FAULTS: [&str; 2] = [
    "is no parameter of the layout",
    "gives no number below 4294967296 (a size is in bytes, without k or M)",
];

const STORAGE_FAULTS: [&str; 2] = [
    "is no parameter of a storage",
    "gives no number below 4294967296 (a size is in KiB, without k or M)",
];

// What is wrong with a word.
fn told(words: &[String], fault: ParamFault, faults: [&'static str; 2]) -> anyhow::Error {
    let (place, what) = match fault {
        ParamFault::UnknownKey(place) => (place, faults[0]),
        ParamFault::Twice(place) => (place, "gives a parameter again"),
        ParamFault::NotANumber(place) => (place, faults[1]),
    };
    match words.get(place as usize) {
        Some(word) => anyhow!("{word} {what}"),
        None => anyhow!("word {place} {what}"),
    }
}

/// What is wrong with a device tree, by the fault's number less one.
const TREE_FAULTS: [&str; 16] = [
    "it is not a flattened device tree",
    "its version is not 17, nor one that reads as 17",
    "a block lies outside it",
    "its structure breaks off",
    "its structure has an unknown token",
    "a name has no end",
    "a property stands outside a node, or after a child",
    "a node ends that did not begin",
    "its nodes are more than 64 deep",
    "it has no root, or two",
    "a number of a ramoops node has fewer than four bytes",
    "a number of a ramoops node is above 2147483647",
    "a ramoops node has no address and size that can be read",
    "no such ramoops node",
    "several ramoops nodes; choose one by --node",
    "give --param cpus=N: there is an ftrace zone for each processor",
];

/// The numbers of the faults of a device tree whose nodes' paths are told.
const NO_NODE: u32 = 14;

const SEVERAL: u32 = 15;

// The paths of the ramoops nodes, each after a space.
fn paths(alloc: Global, tree: &[u8]) -> Result<String, AllocError> {
    let mut text = String::new(alloc);
    if let Ok(nodes) = ramoops_nodes(alloc, tree) {
        for node in &nodes {
            text.push_str(" ")?;
            text.push_str(&String::from_utf8_lossy(alloc, &node.path)?)?;
        }
    }
    Ok(text)
}

// A key that no layout has which is looked for: `lack` is what the words lack.
fn told_unsought(number: u8, lack: &str) -> anyhow::Error {
    let key = UNSOUGHT.get(usize::from(number)).unwrap_or(&"it");
    anyhow!("{key} needs {lack}: a layout with it is not looked for")
}

// What is wrong with a device tree, by the fault's number.
fn told_tree(path: &str, number: u32) -> anyhow::Error {
    let what = TREE_FAULTS
        .get((number as usize).wrapping_sub(1))
        .unwrap_or(&"it");
    anyhow!("{path}: {what}")
}

// Why words, or the device tree in a file, give no layout.
fn no_layout(words: &[String], path: Option<&str>, none: NoLayouts) -> NoPlan {
    NoPlan::Words(match (none, path) {
        (NoLayouts::Memory, _) => return NoPlan::Memory,
        (NoLayouts::Word(fault), _) => told(words, fault, REGION_FAULTS),
        (NoLayouts::Unsought(number), _) => told_unsought(number, "mem_size"),
        (NoLayouts::Layout(fault), Some(path)) => {
            anyhow!("{path}: layout fault {}: {fault}", fault.number())
        }
        (NoLayouts::Layout(fault), None) => anyhow!("layout fault {}: {fault}", fault.number()),
        (NoLayouts::Tree(number), path) => told_tree(path.unwrap_or(""), number),
    })
}

// Why it is not known how the images are laid out.
fn no_layouts(words: &[String], path: Option<&str>, fault: LayoutsFault) -> NoPlan {
    match fault {
        LayoutsFault::NoLayouts(none) => no_layout(words, path, none),
        LayoutsFault::Unplaced(number) => NoPlan::Words(told_unsought(number, "--at")),
        LayoutsFault::AsGiven => NoPlan::Words(anyhow!("--mem-as-given needs mem_size")),
        LayoutsFault::NoPlace => {
            NoPlan::Words(anyhow!("--dtb in a memory needs --memory-at or --at"))
        }
    }
}

// Why a device tree and words give no layout, or no address. If a node must be named, the nodes are told first.
fn no_tree<R: Runtime>(
    rt: &R,
    alloc: Global,
    words: &[String],
    tree: &Tree<'_>,
    fault: LayoutsFault,
) -> NoPlan {
    if let LayoutsFault::NoLayouts(NoLayouts::Tree(NO_NODE | SEVERAL)) = fault {
        let Ok(paths) = paths(alloc, &tree.bytes) else {
            return NoPlan::Memory;
        };
        let _told = eprintln!(rt; "{}: ramoops nodes:{paths}", tree.path);
    }
    no_layouts(words, Some(tree.path), fault)
}

/// A whole memory, and the size of the region in it, if a command line reserves it by name.
#[derive(Clone, Copy)]
struct Memory {
    whole: WholeMemory,
    reserved: Option<u64>,
}

/// Which of the two outputs is a terminal.
#[derive(Clone, Copy)]
pub struct Terminal {
    pub is_output: bool,
    pub is_errors: bool,
}

/// How the images are read.
#[derive(Drop)]
pub struct Asked {
    pub images: report_run::Asked,
    /// The folder in which records are saved.
    pub folder: Option<String>,
    pub is_coloured: bool,
    /// Whether it is told how far a memory was read.
    pub is_watched: bool,
}

/// How a report is written.
pub fn format(matches: &ArgMatches<'_>) -> Format {
    if matches.get_flag("json") {
        return Format::Json;
    }
    if matches.get_flag("html") {
        return Format::Html;
    }
    if matches.get_flag("brief") {
        return Format::Brief;
    }
    match matches.get_str("format") {
        Some("json") => Format::Json,
        Some("html") => Format::Html,
        Some("brief") => Format::Brief,
        _ => Format::Text,
    }
}

// Whether a terminal is to show no colours: NO_COLOR is set (no-color.org), or it knows none.
fn is_plain<R: Runtime>(rt: &R) -> bool {
    let is_unwanted = match env::var(rt, "NO_COLOR") {
        Ok(value) => !value.is_empty(),
        Err(_) => false,
    };
    let is_dumb = match env::var(rt, "TERM") {
        Ok(value) => value.as_str() == "dumb",
        Err(_) => false,
    };
    is_unwanted || is_dumb
}

// Whether a text has colours: as the words say, else on a terminal that is not plain.
fn is_coloured<R: Runtime>(rt: &R, matches: &ArgMatches<'_>, is_terminal: bool) -> bool {
    match matches.get_str("color") {
        Some("always") => true,
        Some("never") => false,
        _ => is_terminal && !is_plain(rt),
    }
}

// A number, decimal or behind `0x`.
fn number_of(text: &str) -> Option<u64> {
    let number = match text.strip_prefix("0x") {
        Some(digits) => u64::from_str_radix(digits, 16),
        None => text.parse::<u64>(),
    };
    number.ok()
}

fn number(matches: &ArgMatches<'_>, option: &str) -> Result<Option<u64>, NoPlan> {
    let Some(text) = matches.get_str(option) else {
        return Ok(None);
    };
    match number_of(text) {
        Some(number) => Ok(Some(number)),
        None => Err(NoPlan::Words(anyhow!("--{option} {text} is no number"))),
    }
}

/// A board's device tree, as a file has it, and the node that is named.
#[derive(Drop)]
struct Tree<'a> {
    path: &'a str,
    bytes: Vec<u8>,
    node: Option<&'a str>,
}

// The device tree that the words name, if they do.
fn read_tree<'a, R: Runtime>(
    rt: &R,
    alloc: Global,
    matches: &'a ArgMatches<'_>,
) -> Result<Option<Tree<'a>>, NoPlan> {
    let Some(path) = matches.get_str("dtb") else {
        return Ok(None);
    };
    Ok(Some(Tree {
        path,
        bytes: Vec::from_slice(alloc, &read_file(rt, path)?)?,
        node: matches.get_str("node"),
    }))
}

// The address that a device tree gives the region.
fn address_in<R: Runtime>(rt: &R, alloc: Global, tree: &Tree<'_>) -> Result<u64, NoPlan> {
    match tree_address(alloc, &tree.bytes, tree.node) {
        Ok(address) => Ok(address),
        Err(fault) => {
            let fault = LayoutsFault::NoLayouts(tree_fault(fault));
            Err(no_tree(rt, alloc, &[], tree, fault))
        }
    }
}

// Where the words say that a memory and the region in it lie.
fn memory_by<R: Runtime>(
    rt: &R,
    alloc: Global,
    matches: &ArgMatches<'_>,
    line: &KernelLine,
    tree: &Option<Tree<'_>>,
) -> Result<Memory, NoPlan> {
    let first = number(matches, "memory-at")?;
    let at = number(matches, "at")?;
    let said = match (at, first, tree) {
        (None, Some(_), Some(tree)) => Some(address_in(rt, alloc, tree)?),
        (None, Some(_), None) => line.address(),
        _ => None,
    };
    let base = first_address(first);
    match place_asked(first, at, said) {
        Ok(place) => Ok(Memory {
            whole: WholeMemory { base, place },
            reserved: line.reserved_size(),
        }),
        Err(address) => {
            let fault = anyhow!("the region at {address:#x} lies before the memory, at {base:#x}");
            Err(NoPlan::Words(fault))
        }
    }
}

fn memory_asked<R: Runtime>(
    rt: &R,
    alloc: Global,
    matches: &ArgMatches<'_>,
    line: &KernelLine,
    tree: &Option<Tree<'_>>,
) -> Result<Option<Memory>, NoPlan> {
    match matches.get_flag("memory") {
        true => Ok(Some(memory_by(rt, alloc, matches, line, tree)?)),
        false => Ok(None),
    }
}

fn place_in(whole: WholeMemory) -> Place {
    match whole.place {
        Some(place) => Place::At(place),
        None => Place::Anywhere,
    }
}

// What the words say of the place of the region.
fn said_by(matches: &ArgMatches<'_>, memory: Option<Memory>) -> Said {
    Said {
        is_as_given: matches.get_flag("mem-as-given"),
        place: match memory {
            Some(memory) => place_in(memory.whole),
            None => Place::Front,
        },
        reserved: match memory {
            Some(memory) => memory.reserved,
            None => None,
        },
    }
}

// How the images are laid out.
fn layouts_of<R: Runtime>(
    rt: &R,
    alloc: Global,
    words: &[String],
    tree: &Option<Tree<'_>>,
    said: &Said,
) -> Result<Layouts, NoPlan> {
    let Some(tree) = tree else {
        return match layouts_by(alloc, words, None, None, said) {
            Ok(layouts) => Ok(layouts),
            Err(fault) => Err(no_layouts(words, None, fault)),
        };
    };
    match layouts_by(alloc, words, Some(&tree.bytes), tree.node, said) {
        Ok(layouts) => Ok(layouts),
        Err(fault) => Err(no_tree(rt, alloc, words, tree, fault)),
    }
}

// Which images are text logs: all, if the words say so, and those that are a text, if nothing is said of a layout.
fn logs_by(matches: &ArgMatches<'_>, is_silent: bool) -> Logs {
    if matches.get_flag("log") {
        Logs::All
    } else if is_silent && !matches.get_flag("region") {
        Logs::Texts
    } else {
        Logs::Never
    }
}

// The words of the command line and of the parameters. Words of a storage count on the command line where nothing is
// said of a region.
fn all_words(
    alloc: Global,
    matches: &ArgMatches<'_>,
    line: &KernelLine,
    takes: bool,
) -> Result<Vec<String>, NoPlan> {
    let mut words = Vec::new(alloc);
    line.add_layout_words(alloc, Module::Ramoops, &mut words)
        .map_err(no_line)?;
    add_params(alloc, &mut words, matches)?;
    if !takes {
        return Ok(words);
    }
    with_storage_words(alloc, line, words).map_err(no_line)
}

// Whether an image may be a storage, by the words that are no parameters.
fn takes_storages(matches: &ArgMatches<'_>) -> bool {
    let is_region = matches.get_flag("memory") || matches.get_flag("region");
    !is_region && !matches.get_flag("log") && matches.get_str("dtb").is_none()
}

// Which images are storages.
fn storages_asked(words: &[String], takes: bool) -> Result<Storages, NoPlan> {
    if !takes {
        return Ok(Storages::Never);
    }
    match storages_in(words, &[]) {
        Ok(storages) => Ok(storages),
        Err(fault) => Err(NoPlan::Words(told(words, fault, STORAGE_FAULTS))),
    }
}

// The words that lay a region out: those of a storage do not.
fn region_words(storages: Storages, words: &[String]) -> &[String] {
    match storages {
        Storages::All(_) => &words[..0],
        _ => words,
    }
}

// The layouts with what is asked for besides: the form of ftrace entries, the lines and the functions of a map.
fn dressed_by(
    alloc: Global,
    layouts: Layouts,
    form: Option<EntryForm>,
    lines: usize,
    map: &Option<Vec<u8>>,
) -> Result<Layouts, NoPlan> {
    match (layouts, form) {
        (Layouts::Given(plan), form) => {
            let plan = with_form(plan, form);
            Ok(Layouts::Given(dressed(alloc, plan, lines, map)?))
        }
        (Layouts::Sought(_), Some(_)) => {
            let fault = anyhow!("ftrace_entry needs mem_size: a region that is found shows it");
            Err(NoPlan::Words(fault))
        }
        (sought, None) => Ok(sought),
    }
}

// The folder in which records are saved, if one is named.
fn folder_named(alloc: Global, matches: &ArgMatches<'_>) -> Result<Option<String>, NoPlan> {
    match matches.get_str("save") {
        Some("") => Err(NoPlan::Words(anyhow!("--save names no folder"))),
        Some(folder) => Ok(Some(String::from_str(alloc, folder)?)),
        None => Ok(None),
    }
}

/// How the images are to be read.
pub fn asked_by<R: Runtime>(
    rt: &R,
    alloc: Global,
    matches: &ArgMatches<'_>,
    terminal: Terminal,
) -> Result<Asked, NoPlan> {
    let line = read_line(rt, alloc, matches)?;
    let takes = takes_storages(matches);
    let mut words = all_words(alloc, matches, &line, takes)?;
    let logs = logs_by(matches, words.is_empty() && !matches.get_flag("memory"));
    let tree = read_tree(rt, alloc, matches)?;
    let memory = memory_asked(rt, alloc, matches, &line, &tree)?;
    let storages = storages_asked(&words, takes)?;
    add_kernel(alloc, &mut words, matches)?;
    let said = said_by(matches, memory);
    let layouts = layouts_of(rt, alloc, region_words(storages, &words), &tree, &said)?;
    let lines = line_count(matches)?;
    let map = read_map(rt, alloc, matches)?;
    let layouts = dressed_by(alloc, layouts, entry_form(matches)?, lines, &map)?;
    let format = format(matches);
    let folder = folder_named(alloc, matches)?;
    Ok(Asked {
        images: report_run::Asked {
            layouts,
            format,
            lines,
            map,
            logs,
            storages,
            memory: memory.map(|memory| memory.whole),
            saves: folder.is_some(),
            counts: terminal.is_errors && !terminal.is_output,
        },
        folder,
        is_coloured: format == Format::Text && is_coloured(rt, matches, terminal.is_output),
        is_watched: terminal.is_errors,
    })
}
