// The functions of a map by their addresses.
ghost use Rattle.std.specs.Prelude.{◌≡◌, ℕ, ◌<◌, ◌≤◌, [], length, slice_index_or, All, IfOk};
ghost use Rattle.symbol_spec.specs.declared.Symbol.{Symbol as SymbolValue};
ghost use Rattle.std.specs.List.Sorted.{IsNonDecreasingBy, IsPermutation};
ghost use Rattle.symbol_spec.specs.Maps.{symbols_of};
ghost use Rattle.symbol_spec.specs.Functions.{function_in};
ghost use Rattle.symbols.specs.Ranks.{IsInside, IsRanked, rank as rank_of};

use crate::map::symbols;
use std::alloc::{AllocError, Global};
use std::marker::Model;
use symbol_spec::Symbol;

/// The functions of a map, in the order of their addresses.
#[derive(Drop)]
pub struct Table {
    items: Vec<Symbol>,
}

impl Model for Table {
    ghost use Rattle.std.specs.Prelude.{List};
    ghost use Rattle.symbol_spec.specs.declared.Symbol.{Symbol as SymbolValue};
    ghost use Rattle.symbols.specs.Ranks.{IsRanked};

    ghost Value = { List SymbolValue };

    ghost view = { λ t. t.items.items };

    ghost invariant = { λ t. IsRanked t.items.items };
}

fn rank(symbol: &Symbol) -> u128
    ensures { result ≡ rank_of symbol.now }
{
    let later = u64::MAX - symbol.name as u64;
    (u128::from(symbol.address) << 64) + u128::from(later)
}

fn rank_all(all: &mut Vec<Symbol>)
    ensures same { IsPermutation all.old.items all.new.items }
    ensures ranked { IsNonDecreasingBy rank_of all.new.items }
{
    all.sort_unstable_by_key(|symbol| rank(symbol));
}

/// How many of the ranked functions stand at or below an address.
fn count_below(ranked: &[Symbol], address: u64) -> usize
    requires { IsRanked ranked.now }
    ensures within { result ≤ length ranked.now }
    ensures below { (k : ℕ) (d : SymbolValue) → k < result → (slice_index_or ranked.now k d).address ≤ address }
    ensures above { (k : ℕ) (d : SymbolValue) → result ≤ k → k < length ranked.now
        → address < (slice_index_or ranked.now k d).address }
{
    ranked.partition_point(|symbol| symbol.address <= address)
}

/// The last function at or below an address.
fn nearest(ranked: &[Symbol], address: u64) -> Option<Symbol>
    requires { IsRanked ranked.now }
    ensures { result ≡ function_in ranked.now address }
{
    let count = count_below(ranked, address);
    if count == 0 {
        None
    } else {
        Some(ranked[count - 1])
    }
}

/// The functions of a map, sorted. Takes n log n steps.
pub fn symbol_table(alloc: Global, map: &[u8]) -> Result<Table, AllocError>
    ensures { IfOk result (λ table. (address : ℕ) → function_in table address ≡ function_in (symbols_of map.now) address) }
{
    let mut items = symbols(alloc, map)?;
    rank_all(&mut items);
    Ok(Table { items })
}

/// The table of a map without a function.
pub fn no_table(alloc: Global) -> Table
    ensures { result ≡ [] }
{
    Table {
        items: Vec::new(alloc),
    }
}

impl Table {
    /// The function that an address is of: the last one at or below it; `None` if all are above it.
    pub fn function_at(&self, address: u64) -> Option<Symbol>
        ensures { result ≡ function_in self.now address }
    {
        nearest(&self.items, address)
    }
}
