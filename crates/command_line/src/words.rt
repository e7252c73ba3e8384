// The words of the command line.
ghost use Rattle.std.specs.Prelude.{◌≡◌, ◌<◌, position, string_bytes, [], ◌∷◌, MatchResult, MatchOption, None, Some};
ghost use Rattle.std.specs.Prelude.{Ok, IfOk, IfErr};
ghost use Rattle.command_spec.specs.Commands.{OnRam, BlkRun, Move, is_to, with_to, asked, asked_by, with_name};
ghost use Rattle.command_spec.specs.Commands.{with_number, with_place, with_first_layout, laid_out, plan_of, Extract};
ghost use Rattle.command_spec.specs.Commands.{Erase, SharedRun};
ghost use Rattle.zone_spec.specs.Layout.{layout_of};
ghost use Rattle.command_line.specs.Words.{asked_seen, plan_seen, ram_command_seen, command_seen, texts, PlanStop};
ghost use Rattle.command_line.specs.Words.{IsLaid, IsNoFault};

use crate::Stop;
use crate::asked::{Asked, Command};
use ramoops_layout::types::Layout;
use ramoops_layout::{LayoutError, Params, ZoneName, layout, read_words};
use std::alloc::Global;
use zone_blk::{BlkLayout, blk_layout, read_blk_words};

/// A command on an image of the ram store, or on a memory dump that may hold its rings.
#[derive(Clone, Copy, Debug, PartialEq, Eq)]
pub enum RamCommand<'a> {
    /// A script on an image.
    Run,
    ListRecords,
    /// The content of the record of this name.
    Extract(&'a str),
    /// The erasure of the record of this name.
    Erase(&'a str),
    ShowLayout,
    Blank,
    /// The generated session of this number.
    Make(u32),
    /// The rings of a memory dump.
    Salvage,
    /// The log of the ring at this place, read as this zone.
    Rescue(u32, ZoneName),
}

/// What the words ask for.
#[derive(Drop)]
pub enum Plan<'a> {
    /// A command on an image of this layout.
    Ram(RamCommand<'a>, Layout),
    /// A script on a block store of this layout.
    Blk(BlkLayout),
    /// A move from an image of the first layout to one of the second.
    Move(Layout, Layout),
    /// A script on a shared zone of an image of this layout, once for the boot and once for the zone.
    Share(Layout, Layout),
}

// A command that only parameters follow.
fn plain<'a>(command: Command<'a>, params: &'a [String]) -> Asked<'a>
    ensures { asked_seen result ≡ record {
      command = command_seen command.entry;
      before = 2;
      params = texts params.now;
    } }
{
    Asked {
        command,
        before: 2,
        params,
    }
}

// The name after a command, and the parameters after it.
fn split_name(words: &[String]) -> Option<(&str, &[String])>
    ensures { MatchOption result (texts words.now ≡ []) (λ parts. texts words.now ≡ parts.0.now ∷ texts parts.1.now) }
{
    match words {
        [name, params @ ..] => Some((name.as_str(), params)),
        [] => None,
    }
}

fn extract(words: &[String]) -> Option<Asked<'_>>
    ensures { MatchOption result (with_name Extract (texts words.now) ≡ None)
        (λ a. with_name Extract (texts words.now) ≡ Some (asked_seen a)) }
{
    let (name, params) = split_name(words)?;
    Some(Asked {
        command: Command::OnRam(RamCommand::Extract(name)),
        before: 3,
        params,
    })
}

fn erase(words: &[String]) -> Option<Asked<'_>>
    ensures { MatchOption result (with_name Erase (texts words.now) ≡ None)
        (λ a. with_name Erase (texts words.now) ≡ Some (asked_seen a)) }
{
    let (name, params) = split_name(words)?;
    Some(Asked {
        command: Command::OnRam(RamCommand::Erase(name)),
        before: 3,
        params,
    })
}

fn make(words: &[String]) -> Option<Asked<'_>>
    ensures { MatchOption result (with_number (texts words.now) ≡ None)
        (λ a. with_number (texts words.now) ≡ Some (asked_seen a)) }
{
    let (number, params) = split_name(words)?;
    let number = script::number(number.as_bytes())?;
    Some(Asked {
        command: Command::OnRam(RamCommand::Make(number)),
        before: 3,
        params,
    })
}

fn rescue(words: &[String]) -> Option<Asked<'_>>
    ensures { MatchOption result (with_place (texts words.now) ≡ None)
        (λ a. with_place (texts words.now) ≡ Some (asked_seen a)) }
{
    let (at, words) = split_name(words)?;
    let (name, params) = split_name(words)?;
    let at = script::number(at.as_bytes())?;
    let name = script::zone(name.as_bytes())?;
    Some(Asked {
        command: Command::OnRam(RamCommand::Rescue(at, name)),
        before: 4,
        params,
    })
}

// The place of the first word `to`.
fn find_to(words: &[String]) -> Option<usize>
    ensures { result ≡ position (λ word. is_to (string_bytes word)) words.now }
{
    words.iter().position(|word| word.as_str() == "to")
}

// The parameters before the only word `to`, and those after it.
fn move_image(words: &[String]) -> Option<Asked<'_>>
    ensures { MatchOption result (with_to (texts words.now) ≡ None)
        (λ a. with_to (texts words.now) ≡ Some (asked_seen a)) }
{
    let place = find_to(words)?;
    let to = &words[place + 1..];
    if find_to(to).is_some() {
        return None;
    }
    Some(plain(Command::Move(to), &words[..place]))
}

// The command that a word names, with the words after it.
fn asked_by<'a>(word: &str, words: &'a [String]) -> Option<Asked<'a>>
    ensures { MatchOption result (asked_by word.now (texts words.now) ≡ None)
        (λ a. asked_by word.now (texts words.now) ≡ Some (asked_seen a)) }
{
    match word {
        "run" => Some(plain(Command::OnRam(RamCommand::Run), words)),
        "list" => Some(plain(Command::OnRam(RamCommand::ListRecords), words)),
        "extract" => extract(words),
        "erase" => erase(words),
        "layout" => Some(plain(Command::OnRam(RamCommand::ShowLayout), words)),
        "blank" => Some(plain(Command::OnRam(RamCommand::Blank), words)),
        "make" => make(words),
        "blk-run" => Some(plain(Command::BlkRun, words)),
        "move" => move_image(words),
        "shared-run" => Some(plain(Command::SharedRun, words)),
        "salvage" => Some(plain(Command::OnRam(RamCommand::Salvage), words)),
        "rescue" => rescue(words),
        _ => None,
    }
}

fn read_command(words: &[String]) -> Option<Asked<'_>>
    ensures { MatchOption result (asked (texts words.now) ≡ None) (λ a. asked (texts words.now) ≡ Some (asked_seen a)) }
{
    match words {
        [_, word, rest @ ..] => asked_by(word.as_str(), rest),
        _ => None,
    }
}

// A command on an image of these parameters, which stand after so many words.
#[tactic(auto, using(crate::proofs::SharedZoneWord::shares_none))]
fn lay_image<'a>(
    alloc: Global,
    command: RamCommand<'a>,
    before: u32,
    params: &[String],
) -> Result<Plan<'a>, Stop>
    ensures plan { let wanted = laid_out (OnRam (ram_command_seen command.entry)) before (texts params.now) in
        MatchResult result (λ plan. wanted ≡ Ok (plan_seen plan)) (λ stop. PlanStop stop wanted) }
    ensures laid { IfOk result IsLaid }
    ensures stops { IfErr result IsNoFault }
{
    let params = match read_words(params) {
        Ok(params) => params,
        Err(fault) => return Err(Stop::Param { fault, before }),
    };
    match layout(alloc, &params) {
        Ok(layout) => Ok(Plan::Ram(command, layout)),
        Err(LayoutError::Fault(fault)) => Err(Stop::Layout(fault)),
        Err(LayoutError::Memory) => Err(Stop::Memory),
    }
}

// A script on a shared zone of an image of these parameters. That the zone is missing comes before want of memory.
fn lay_shared<'a>(alloc: Global, before: u32, params: &[String]) -> Result<Plan<'a>, Stop>
    ensures plan { let wanted = laid_out (OnRam SharedRun) before (texts params.now) in
        MatchResult result (λ plan. wanted ≡ Ok (plan_seen plan)) (λ stop. PlanStop stop wanted) }
    ensures laid { IfOk result IsLaid }
    ensures stops { IfErr result IsNoFault }
{
    let params = match read_words(params) {
        Ok(params) => params,
        Err(fault) => return Err(Stop::Param { fault, before }),
    };
    let booted = match layout(alloc, &params) {
        Err(LayoutError::Fault(fault)) => return Err(Stop::Layout(fault)),
        booted => booted,
    };
    if params.ftrace == 0 || params.ecc_ftrace > 0 {
        return Err(Stop::NoSharedZone);
    }
    match (booted, layout(alloc, &params)) {
        (Ok(booted), Ok(shared)) => Ok(Plan::Share(booted, shared)),
        _ => Err(Stop::Memory),
    }
}

// A script on a block store of these parameters, which stand after so many words.
fn lay_blk<'a>(before: u32, params: &[String]) -> Result<Plan<'a>, Stop>
    ensures plan { let wanted = laid_out BlkRun before (texts params.now) in
        MatchResult result (λ plan. wanted ≡ Ok (plan_seen plan)) (λ stop. PlanStop stop wanted) }
    ensures laid { IfOk result IsLaid }
    ensures stops { IfErr result IsNoFault }
{
    let params = match read_blk_words(params) {
        Ok(params) => params,
        Err(fault) => return Err(Stop::Param { fault, before }),
    };
    match blk_layout(&params) {
        Ok(layout) => Ok(Plan::Blk(layout)),
        Err(fault) => Err(Stop::Layout(fault)),
    }
}

// The layouts of both parameters. The second one's fault comes before want of memory for the first.
fn lay_both<'a>(alloc: Global, from: &Params, to: &Params) -> Result<Plan<'a>, Stop>
    ensures plan { let wanted = with_first_layout from.now to.now (layout_of from.now) in
        MatchResult result (λ plan. wanted ≡ Ok (plan_seen plan)) (λ stop. PlanStop stop wanted) }
    ensures laid { IfOk result IsLaid }
    ensures stops { IfErr result IsNoFault }
{
    let from = match layout(alloc, from) {
        Err(LayoutError::Fault(fault)) => return Err(Stop::Layout(fault)),
        from => from,
    };
    let to = match layout(alloc, to) {
        Err(LayoutError::Fault(fault)) => return Err(Stop::Layout(fault)),
        to => to,
    };
    match (from, to) {
        (Ok(from), Ok(to)) => Ok(Plan::Move(from, to)),
        _ => Err(Stop::Memory),
    }
}

// A move between images of these parameters, the first of which stand after so many words.
fn lay_move<'a>(
    alloc: Global,
    before: u32,
    params: &[String],
    to: &[String],
) -> Result<Plan<'a>, Stop>
    requires { before < 5 }
    ensures plan { let wanted = laid_out (Move (texts to.now)) before (texts params.now) in
        MatchResult result (λ plan. wanted ≡ Ok (plan_seen plan)) (λ stop. PlanStop stop wanted) }
    ensures laid { IfOk result IsLaid }
    ensures stops { IfErr result IsNoFault }
{
    let from = match read_words(params) {
        Ok(from) => from,
        Err(fault) => return Err(Stop::Param { fault, before }),
    };
    let second = before + params.len() as u32 + 1;
    match read_words(to) {
        Ok(to) => lay_both(alloc, &from, &to),
        Err(fault) => Err(Stop::Param {
            fault,
            before: second,
        }),
    }
}

/// What the arguments ask for: a command and the layout of its parameters. It allocates only after all checks have
/// passed.
pub fn read_plan(alloc: Global, words: &[String]) -> Result<Plan<'_>, Stop>
    ensures plan { MatchResult result (λ plan. plan_of (texts words.now) ≡ Ok (plan_seen plan))
        (λ stop. PlanStop stop (plan_of (texts words.now))) }
    ensures laid { IfOk result IsLaid }
    ensures stops { IfErr result IsNoFault }
{
    let Some(asked) = read_command(words) else {
        return Err(Stop::Usage);
    };
    match asked.command {
        Command::OnRam(command) => lay_image(alloc, command, asked.before, asked.params),
        Command::BlkRun => lay_blk(asked.before, asked.params),
        Command::SharedRun => lay_shared(alloc, asked.before, asked.params),
        Command::Move(to) => lay_move(alloc, asked.before, asked.params, to),
    }
}
