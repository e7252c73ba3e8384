// The headers that stand in an image at multiples of 512, read in pieces.
ghost use Rattle.std.specs.Prelude.{◌≡◌, ℕ, ◌+◌, ◌<◌, ◌≤◌, ◌^◌, ◌++◌, Bool, true, List, [], length, take, drop};
ghost use Rattle.std.specs.Prelude.{◌↔◌, IsTrue, None, Option, IfOk, IfErr, OnOk, IfSome};
ghost use Rattle.psz_spec.specs.Marks.{as_marks, order_in, marks_in};
ghost use Rattle.storage_spec.specs.Found.{machine_of};
ghost use Rattle.outside.specs.Outside.{HasCause};
ghost use Rattle.storage_report.specs.Scans.{order_more as order_with, mark_more as mark_with, shown_by as shown_with};
ghost use Rattle.storage_report.specs.Scans.{machine_more as machine_with, machine_by, is_decided};
ghost use Rattle.storage_report.specs.Faults.{IsUnread};
ghost use Rattle.storage_report.specs.Pieces.{IsPieceOf, HasBlock};

use command_spec::Stop;
use outside::{Failed, Load};
use psz_read::{data_of, machine_shown, mark_at, order_at};
use psz_spec::{Kind, Machine, Mark};
use std::alloc::{AllocError, Global};
use zone_spec::ByteOrder;

/// How many bytes are read at once.
const PIECE: u32 = 65_536;

fn order_more(order: Option<ByteOrder>, total: u32, at: u32, block: &[u8]) -> Option<ByteOrder>
    ensures { result ≡ order_with order total at block.now }
{
    match order {
        Some(order) => Some(order),
        None => order_at(total, at, block),
    }
}

fn mark_more(order: Option<ByteOrder>, total: u32, at: u32, block: &[u8]) -> Option<Mark>
    ensures { result ≡ mark_with order total at block.now }
{
    match order {
        Some(order) => mark_at(order, total, at, block),
        None => None,
    }
}

fn shown_by(mark: Option<Mark>, block: &[u8]) -> Option<Machine>
    ensures { result ≡ shown_with mark block.now }
{
    match mark?.kind {
        Kind::Dump => machine_shown(data_of(block)),
        Kind::Pmsg | Kind::Console | Kind::Ftrace => None,
    }
}

fn machine_more(machine: Option<Machine>, mark: Option<Mark>, block: &[u8]) -> Option<Machine>
    ensures { result ≡ machine_with machine mark block.now }
{
    match machine {
        Some(machine) => Some(machine),
        None => shown_by(mark, block),
    }
}

fn add(marks: &mut Vec<Mark>, mark: Option<Mark>) -> Result<(), AllocError>
    ensures { OnOk result (marks.new.items ≡ marks.old.items ++ as_marks mark) }
{
    if let Some(mark) = mark {
        marks.push(mark)?;
    }
    Ok(())
}

/// What the headers so far show.
#[derive(Drop)]
pub(crate) struct Seen {
    /// The order of bytes of the first of them.
    pub order: Option<ByteOrder>,
    /// The machine by the first dump that shows a little-endian one.
    pub shown: Option<Machine>,
    /// Those in this order.
    pub marks: Vec<Mark>,
}

impl Seen {
    fn none(alloc: Global) -> Seen
        ensures order { result.order ≡ None }
        ensures shown { result.shown ≡ None }
        ensures marks { result.marks.items ≡ [] }
    {
        Seen {
            order: None,
            shown: None,
            marks: Vec::new(alloc),
        }
    }

    // The header at a place, by the bytes from there on.
    fn add(&mut self, total: u32, at: u32, block: &[u8]) -> Result<(), AllocError>
        ensures order { OnOk result (self.new.order ≡ order_with self.old.order total at block.now) }
        ensures shown { OnOk result (self.new.shown
            ≡ machine_with self.old.shown (mark_with self.new.order total at block.now) block.now) }
        ensures marks { OnOk result (self.new.marks.items
            ≡ self.old.marks.items ++ as_marks (mark_with self.new.order total at block.now)) }
    {
        self.order = order_more(self.order, total, at, block);
        let mark = mark_more(self.order, total, at, block);
        self.shown = machine_more(self.shown, mark, block);
        add(&mut self.marks, mark)
    }

    // Whether no later header changes the machine.
    fn is_decided(&self) -> bool
        ensures { result ≡ is_decided self.now.order self.now.shown }
    {
        match self.order {
            None => false,
            Some(ByteOrder::Big) => true,
            Some(ByteOrder::Little) => self.shown.is_some(),
        }
    }

    /// The machine that wrote.
    pub(crate) fn machine(&self) -> Machine
        ensures { result ≡ machine_by self.now.order self.now.shown }
    {
        match self.order {
            Some(ByteOrder::Big) => Machine::BigEndian,
            Some(ByteOrder::Little) | None => self.shown.unwrap_or(Machine::Aligned),
        }
    }
}

// Reads so many bytes from a place on to the front of these.
fn read_front<M: Load>(image: &mut M, at: u32, bytes: &mut [u8], count: usize) -> Result<(), Failed>
    requires fits { count ≤ length bytes.old }
    requires inside { IfSome (M.holds image.old) (λ bs. at + count ≤ length bs) }
    ensures read { OnOk result (IfSome (M.holds image.old) (λ bs. take count bytes.new ≡ take count (drop at bs))) }
    ensures same { M.holds image.new ≡ M.holds image.old }
    ensures cause { HasCause (M.faults image.old) (M.faults image.new) result }
{
    image.read_at(u64::from(at), &mut bytes[..count])
}

/// A piece of an image: so many bytes from a place on.
#[derive(Drop)]
struct Piece {
    from: u32,
    len: u32,
    bytes: Vec<u8>,
}

impl Piece {
    fn none(alloc: Global) -> Result<Piece, AllocError>
        ensures { IfOk result (λ p. (holds : Option (List ℕ)) → IsPieceOf holds p) }
    {
        Ok(Piece {
            from: 0,
            len: 0,
            bytes: vec![in alloc; 0u8; PIECE as usize]?,
        })
    }

    // Whether the 512 bytes from a place on stand in it.
    fn has(&self, at: u32) -> bool
        ensures { IsTrue result ↔ HasBlock at self.now }
    {
        self.from <= at && u64::from(at) + 512 <= u64::from(self.from) + u64::from(self.len)
    }

    // Reads the piece from a place on, if the 512 bytes there do not stand in it.
    fn reach<M: Load>(&mut self, image: &mut M, total: u32, at: u32) -> Result<(), Stop>
        requires block { at + 512 ≤ total }
        requires inside { IfSome (M.holds image.old) (λ bs. total ≤ length bs) }
        requires piece { IsPieceOf (M.holds image.old) self.old }
        ensures has { OnOk result (HasBlock at self.new) }
        ensures piece { OnOk result (IsPieceOf (M.holds image.old) self.new) }
        ensures err { IfErr result (λ s. IsUnread s (M.faults image.old) (M.faults image.new)) }
        ensures done { OnOk result (M.faults image.new ≡ M.faults image.old) }
        ensures same { M.holds image.new ≡ M.holds image.old }
        ensures later { M.faults image.old ≤ M.faults image.new }
    {
        if self.has(at) {
            return Ok(());
        }
        let count = PIECE.min(total - at);
        match read_front(image, at, &mut self.bytes, count as usize) {
            Ok(()) => {
                self.from = at;
                self.len = count;
                Ok(())
            }
            Err(Failed) => Err(Stop::ImageFault),
        }
    }

    // These bytes.
    fn block(&self, at: u32) -> &[u8]
        requires has { HasBlock at self.now }
        requires full { self.now.len ≤ length self.now.bytes.items }
        ensures { (holds : Option (List ℕ)) → IsPieceOf holds self.now
            → IfSome holds (λ image. result.now ≡ take 512 (drop at image)) }
    {
        let at = (at - self.from) as usize;
        &self.bytes[at..at + 512]
    }
}

/// Reads the headers in the first `total` bytes of an image: all of them, or only as many as decide the machine.
pub(crate) fn scan<M: Load>(
    alloc: Global,
    image: &mut M,
    total: u32,
    whole: bool,
) -> Result<Seen, Stop>
    requires { IfSome (M.holds image.old) (λ bs. total ≤ length bs) }
    ensures machine { IfOk result (λ s. IfSome (M.holds image.old)
        (λ bs. machine_by s.order s.shown ≡ machine_of (take total bs))) }
    ensures marks { whole ≡ true → IfOk result (λ s. IfSome (M.holds image.old)
        (λ bs. s.marks.items ≡ marks_in (order_in (take total bs)) (take total bs))) }
    ensures err { IfErr result (λ s. IsUnread s (M.faults image.old) (M.faults image.new)) }
    ensures done { OnOk result (M.faults image.new ≡ M.faults image.old) }
    ensures same { M.holds image.new ≡ M.holds image.old }
    ensures later { M.faults image.old ≤ M.faults image.new }
{
    let mut seen = Seen::none(alloc);
    let mut piece = Piece::none(alloc)?;
    for block in 0..total / 512 {
        let at = block * 512;
        piece.reach(image, total, at)?;
        seen.add(total, at, piece.block(at))?;
        if !whole && seen.is_decided() {
            return Ok(seen);
        }
    }
    Ok(seen)
}
