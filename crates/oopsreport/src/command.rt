// The words of the command line.
use clap::{Arg, ArgAction, Command};
use std::alloc::{AllocError, Global};

const FORMATS: [&str; 4] = ["text", "json", "html", "brief"];

// What says how the images are laid out.
fn with_layout<'a>(alloc: Global, command: Command<'a>) -> Result<Command<'a>, AllocError> {
    let param = Arg::new(alloc, "param")
        .long("param")
        .value_name("KEY=VALUE")
        .action(ArgAction::Append)
        .help(
            "A parameter of the layout, such as mem_size=0x100000 or pstore_blk.kmsg_size=64; may be given again",
        );
    let as_given = Arg::new(alloc, "mem-as-given")
        .long("mem-as-given")
        .action(ArgAction::SetTrue)
        .help("Take a mem_size that is no power of two as it is, as the kernel does");
    let region = Arg::new(alloc, "region")
        .long("region")
        .action(ArgAction::SetTrue)
        .help("Take each image as a region, also where it is a text log");
    let command = with_tree(alloc, with_kernel(alloc, command.arg(param)?)?)?;
    with_log(alloc, command.arg(as_given)?.arg(region)?)
}

// That the images are text logs.
fn with_log<'a>(alloc: Global, command: Command<'a>) -> Result<Command<'a>, AllocError> {
    let log = Arg::new(alloc, "log")
        .long("log")
        .action(ArgAction::SetTrue)
        .conflicts_with("region")?
        .conflicts_with("param")?
        .conflicts_with("cmdline")?
        .conflicts_with("cmdline-file")?
        .conflicts_with("dtb")?
        .conflicts_with("memory")?
        .help("Take each image as a text log, also where bytes of it are zero");
    command.arg(log)
}

// The kernel's own words and version.
fn with_kernel<'a>(alloc: Global, command: Command<'a>) -> Result<Command<'a>, AllocError> {
    let cmdline = Arg::new(alloc, "cmdline")
        .long("cmdline")
        .value_name("TEXT")
        .conflicts_with("cmdline-file")?
        .help("A kernel's command line, whose ramoops. or pstore_blk. words are parameters");
    let command = command.arg(cmdline)?;
    let file = Arg::new(alloc, "cmdline-file")
        .long("cmdline-file")
        .value_name("FILE")
        .help("A file with a kernel's command line, such as /proc/cmdline");
    let command = command.arg(file)?;
    let kernel = Arg::new(alloc, "kernel")
        .long("kernel")
        .value_name("X.Y.Z")
        .help("The version of the kernel that wrote the ftrace zones");
    command.arg(kernel)
}

// A board's device tree.
fn with_tree<'a>(alloc: Global, command: Command<'a>) -> Result<Command<'a>, AllocError> {
    let tree = Arg::new(alloc, "dtb")
        .long("dtb")
        .value_name("FILE")
        .conflicts_with("mem-as-given")?
        .help("A board's flattened device tree, such as /sys/firmware/fdt, with a ramoops node");
    let command = command.arg(tree)?;
    let node = Arg::new(alloc, "node")
        .long("node")
        .value_name("PATH")
        .requires_arg("dtb")?
        .help("The node of the device tree, where it has several");
    command.arg(node)
}

// Whether the images are whole memories, and where a region lies in them.
fn with_memory<'a>(alloc: Global, command: Command<'a>) -> Result<Command<'a>, AllocError> {
    let memory = Arg::new(alloc, "memory")
        .long("memory")
        .action(ArgAction::SetTrue)
        .help(
            "Each image is a copy of all memory, of any size, and ramoops regions in it are looked for, no storages",
        );
    let command = command.arg(memory)?;
    let at = Arg::new(alloc, "at")
        .long("at")
        .value_name("PLACE")
        .requires_arg("memory")?
        .help("The region begins at this place of the memory");
    let command = command.arg(at)?;
    let from = Arg::new(alloc, "memory-at")
        .long("memory-at")
        .value_name("ADDRESS")
        .requires_arg("memory")?
        .help("The physical address of the memory's first byte: places are then addresses");
    command.arg(from)
}

// The formats by a word each.
fn with_formats<'a>(alloc: Global, command: Command<'a>) -> Result<Command<'a>, AllocError> {
    let json = Arg::new(alloc, "json")
        .long("json")
        .action(ArgAction::SetTrue)
        .conflicts_with("format")?
        .help("As --format json");
    let html = Arg::new(alloc, "html")
        .long("html")
        .action(ArgAction::SetTrue)
        .conflicts_with("json")?
        .conflicts_with("format")?
        .help("As --format html");
    let brief = Arg::new(alloc, "brief")
        .long("brief")
        .action(ArgAction::SetTrue)
        .conflicts_with("json")?
        .conflicts_with("html")?
        .conflicts_with("format")?
        .help("As --format brief: one line an image, with its path, time and signature");
    command.arg(json)?.arg(html)?.arg(brief)
}

// What is done with the images, and the images.
fn with_work<'a>(alloc: Global, command: Command<'a>) -> Result<Command<'a>, AllocError> {
    let format = Arg::new(alloc, "format")
        .long("format")
        .value_name("FORMAT")
        .value_parser(FORMATS.as_slice())
        .default_value("text")
        .help("How the report is written");
    let command = with_formats(alloc, command.arg(format)?)?;
    let save = Arg::new(alloc, "save").long("save").value_name("DIR").help(
        "Save each record in this folder under its pstore name; no file is overwritten",
    );
    let command = command.arg(save)?;
    let symbols = Arg::new(alloc, "symbols")
        .long("symbols")
        .value_name("FILE")
        .help("The System.map of the kernel, or its /proc/kallsyms: names the functions of ftrace");
    let images = Arg::new(alloc, "image")
        .value_name("IMAGE")
        .required(true)
        .action(ArgAction::Append)
        .num_args(1..)
        .help(
            "A file or device: a ramoops region, a kernel's text log, or one of them as gzip; a folder: each file in it; - is standard input",
        );
    let recursive = Arg::new(alloc, "recursive")
        .short('r')
        .long("recursive")
        .action(ArgAction::SetTrue)
        .help("Of a folder also the files in each folder below");
    with_text(alloc, command.arg(symbols)?)?
        .arg(recursive)?
        .arg(images)
}

// How a text is shown.
fn with_text<'a>(alloc: Global, command: Command<'a>) -> Result<Command<'a>, AllocError> {
    let lines = Arg::new(alloc, "lines")
        .long("lines")
        .value_name("N")
        .default_value("10")
        .help("How many of the newest dump's last lines a text shows");
    let command = command.arg(lines)?;
    let color = Arg::new(alloc, "color")
        .long("color")
        .value_name("WHEN")
        .value_parser(["auto", "always", "never"].as_slice())
        .default_value("auto")
        .help(
            "Whether a text has colours; auto is on a terminal, unless NO_COLOR is set or TERM is dumb",
        );
    command.arg(color)
}

/// The command, with its help.
pub fn command<'a>(alloc: Global) -> Result<Command<'a>, AllocError> {
    let command = Command::new(alloc, "oopsreport")
        .version("0.1")
        .about("Shows what images of ramoops regions hold. No image is written.")
        .after_help(
            "Status: 0 done, 1 an image was not reported or a record not saved, 2 wrong words.",
        );
    with_work(alloc, with_memory(alloc, with_layout(alloc, command)?)?)
}
