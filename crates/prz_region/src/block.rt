// The one block: a `Vec` taken apart and put together, a row of places cut, glued and lent, and each store into it.
ghost use Rattle.std.specs.Prelude.{◌≡◌, ℕ, ◌+◌, ◌-◌, ◌*◌, ◌^◌, ◌<◌, ◌≤◌, ◌++◌, ◌∷◌, [], List, length, take, drop};
ghost use base.Fml.{ftrue};
ghost use denote.RawPtr.{◌+ₚ◌};
ghost use Rattle.std.specs.Vec.{vec_ptr, vec_len};
ghost use Rattle.core.specs.Mem.Slots.{slots_items, slots_ptr, slots_len, IsFull, SamePlaces};
ghost use Rattle.core.specs.Mem.Slots.Ownership.{bytes_of};
ghost use Rattle.std.specs.Prelude.{map};
ghost use Rattle.prz_region.specs.Made.{Write, run_writes};
ghost use Rattle.prz_region.specs.Chain.{piece_bytes};

use crate::pieces::Piece;
use crate::spans::Span;
use core::slots::Slots;
use std::alloc::Allocator;
use std::marker::{Model, Move, Owns, PhantomData};

/// A `Vec` whose elements have gone to a row of slots: its own words, the room after the elements, and the right to
/// free the block.
pub struct Shell<T, A: Allocator> {
    vec: Vec<T, A>,
}

impl<T, A: Allocator> Owns for Shell<T, A> {
    ghost use Rattle.std_alloc.specs.declared.vec.Vec.{Vec};
    ghost use base.Fml.{ftrue};

    ghost Value = { Vec T A };

    ghost shr_at = { λ _ _ _. ftrue };
}

impl<T, A: Allocator> Move for Shell<T, A> {
    ghost use Rattle.prz_region.specs.Shell.{shell_owns};

    ghost own_val = { shell_owns T.row A.row A.Allocator };
}

/// The stores made into a block, the first one first, each with the number of its span. The list is for proofs alone:
/// it takes no room and no time, and only `store_array` and `store_run` add to it.
#[derive(Drop)]
pub struct Stores<T> {
    marker: PhantomData<T>,
    pub ghost made: { List (Write T) },
}

impl<T> Model for Stores<T> {
    ghost also_owns = { λ _. ftrue };
}

impl<T> Stores<T> {
    fn none() -> Stores<T>
        ensures { result.made ≡ [] }
    {
        Stores {
            marker: PhantomData,
        }
    }
}

/// Stores an array over the values from `at` of a row on, in one store, and adds this store to the list. The row begins
/// at `base`, and is that of the span with this number. The prover sees what the bytes become; that the list gets one
/// entry for the one write is to be read here.
pub(crate) fn store_array<T, const N: usize>(
    row: &mut Slots<T>,
    base: *mut T,
    at: usize,
    values: [T; N],
    span: u32,
    stores: &mut Stores<T>,
)
    requires { (slots_ptr row.old ≡ base) × (at + N ≤ slots_len row.old) × IsFull row.old }
    ensures items { slots_items row.new ≡ take at (slots_items row.old) ++ values ++ drop (at + N) (slots_items row.old) }
    ensures full { IsFull row.new }
    ensures places { SamePlaces row.old row.new }
    ensures made { stores.new.made ≡ stores.old.made ++ record { span = span; place = at; values = values } ∷ [] }
    ensures sized { length values ≡ N }
{
    let _ = span;
    let _ = stores;
    unsafe { (base.add(at) as *mut [T; N]).write(values) }
}

/// Stores an array over the values from `at` of a row on, rising, in a store for each value, and adds these stores to the
/// list. The row begins at `base`, and is that of the span with this number. The prover sees what the bytes become; that
/// the list gets an entry for each value is to be read here.
pub(crate) fn store_run<T, const N: usize>(
    row: &mut Slots<T>,
    base: *mut T,
    at: usize,
    values: [T; N],
    span: u32,
    stores: &mut Stores<T>,
)
    requires { (slots_ptr row.old ≡ base) × (at + N ≤ slots_len row.old) × IsFull row.old }
    ensures items { slots_items row.new ≡ take at (slots_items row.old) ++ values ++ drop (at + N) (slots_items row.old) }
    ensures full { IsFull row.new }
    ensures places { SamePlaces row.old row.new }
    ensures made { stores.new.made ≡ stores.old.made ++ run_writes span at values }
    ensures sized { length values ≡ N }
{
    let _ = span;
    let _ = stores;
    unsafe { (base.add(at) as *mut [T; N]).write(values) }
}

/// Takes the elements out of the `Vec`, as a row of places in its block, with the stores made into it so far.
pub(crate) fn open<T, A: Allocator>(
    vec: Vec<T, A>,
    ptr: *mut T,
    len: usize,
) -> (Slots<T>, Shell<T, A>, Stores<T>)
    requires { (ptr ≡ vec_ptr vec) × (len ≡ vec_len vec) }
    ensures row { (slots_items result.0 ≡ vec.items) × IsFull result.0 × (slots_ptr result.0 ≡ vec_ptr vec)
        × (slots_len result.0 ≡ vec_len vec) }
    ensures shell { result.1 ≡ vec }
    ensures stores { result.2.made ≡ [] }
{
    let (row, shell) = take_apart(vec, ptr, len);
    (row, shell, Stores::none())
}

fn take_apart<T, A: Allocator>(vec: Vec<T, A>, ptr: *mut T, len: usize) -> (Slots<T>, Shell<T, A>)
    requires { (ptr ≡ vec_ptr vec) × (len ≡ vec_len vec) }
    ensures row { (slots_items result.0 ≡ vec.items) × IsFull result.0 × (slots_ptr result.0 ≡ vec_ptr vec)
        × (slots_len result.0 ≡ vec_len vec) }
    ensures shell { result.1 ≡ vec }
{
    let shell = Shell { vec };
    (unsafe { Slots::from_raw_parts(ptr, len) }, shell)
}

/// Puts the elements back, and gives the `Vec` again.
pub(crate) fn close<T, A: Allocator>(row: Slots<T>, shell: Shell<T, A>) -> Vec<T, A>
    requires { (slots_ptr row ≡ vec_ptr shell) × (slots_len row ≡ vec_len shell) × IsFull row }
    ensures { result.items ≡ slots_items row }
{
    let _parts = unsafe { row.into_raw_parts() };
    let Shell { vec } = shell;
    vec
}

/// Cuts a row in two, after its first `count` places.
pub(crate) fn split<T>(row: Slots<T>, count: usize) -> (Slots<T>, Slots<T>)
    requires { (count ≤ slots_len row) × IsFull row }
    ensures low { (slots_items result.0 ≡ take count (slots_items row)) × IsFull result.0
        × (slots_ptr result.0 ≡ slots_ptr row) × (slots_len result.0 ≡ count) }
    ensures high { (slots_items result.1 ≡ drop count (slots_items row)) × IsFull result.1
        × (slots_ptr result.1 ≡ slots_ptr row +ₚ (count * bytes_of T.row))
        × (slots_len result.1 ≡ slots_len row - count) }
{
    unsafe {
        let (ptr, len) = row.into_raw_parts();
        let low = Slots::from_raw_parts(ptr, count);
        let high = Slots::from_raw_parts(ptr.add(count), len - count);
        (low, high)
    }
}

/// Makes one row of two, of which the second begins where the first ends.
pub(crate) fn glue<T>(low: Slots<T>, high: Slots<T>) -> Slots<T>
    requires { (slots_ptr high ≡ slots_ptr low +ₚ (slots_len low * bytes_of T.row)) × IsFull low × IsFull high
        × ((slots_len low + slots_len high) * bytes_of T.row < 2 ^ 63) × (slots_len low + slots_len high < 2 ^ 64) }
    ensures { (slots_items result ≡ slots_items low ++ slots_items high) × IsFull result
        × (slots_ptr result ≡ slots_ptr low) × (slots_len result ≡ slots_len low + slots_len high) }
{
    unsafe {
        let (ptr, count) = low.into_raw_parts();
        let (_, more) = high.into_raw_parts();
        Slots::from_raw_parts(ptr, count + more)
    }
}

/// A row with the place at which it begins.
pub(crate) fn based<T>(row: Slots<T>) -> (Slots<T>, *mut T)
    requires { IsFull row }
    ensures row { (slots_items result.0 ≡ slots_items row) × IsFull result.0 × (slots_ptr result.0 ≡ slots_ptr row)
        × (slots_len result.0 ≡ slots_len row) }
    ensures base { result.1 ≡ slots_ptr row }
{
    unsafe {
        let (ptr, len) = row.into_raw_parts();
        let same = Slots::from_raw_parts(ptr, len);
        (same, ptr)
    }
}

/// The values of a row that begins at `base` and has `len` places, as a slice.
pub(crate) fn lend<T>(row: &Slots<T>, base: *mut T, len: usize) -> &[T]
    requires { (0 < len) × (slots_ptr row.now ≡ base) × (slots_len row.now ≡ len) × IsFull row.now }
    ensures { result.now ≡ slots_items row.now }
{
    unsafe { std::slice::from_raw_parts(base, len) }
}

/// The pieces, seen as the lists of bytes that they hold.
pub(crate) fn as_spans(pieces: &[Piece]) -> &[Span]
    ensures { result.now ≡ map piece_bytes pieces.now }
{
    let len = pieces.len();
    unsafe { std::slice::from_raw_parts(pieces.as_ptr() as *const Span, len) }
}
