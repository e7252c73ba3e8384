// A map, and its functions by their addresses.
ghost use Rattle.std.specs.Prelude.{◌≡◌, ℕ, [], IfOk};
ghost use Rattle.symbol_spec.specs.Maps.{name_at as name_of, module_at as module_of, symbols_of};
ghost use Rattle.symbol_spec.specs.Functions.{function_in, function_of, unless_far};
ghost use Rattle.symbol_spec.specs.Shifts.{shift_of, function_above};

use crate::map::{module_at, name_at};
use crate::shifts::{begins_at, from_of, is_shift, number_at};
use crate::table::{Table, no_table, symbol_table};
use std::alloc::{AllocError, Global};
use std::marker::Model;
use symbol_spec::Symbol;

/// The functions of a kernel: System.map, or what /proc/kallsyms shows, of which a contract sees the bytes.
#[derive(Drop)]
pub struct Symbols {
    map: Vec<u8>,
    table: Table,
}

impl Model for Symbols {
    ghost use Rattle.std.specs.Prelude.{ℕ, List, ◌≡◌};
    ghost use Rattle.symbol_spec.specs.Functions.{function_in};
    ghost use Rattle.symbol_spec.specs.Maps.{symbols_of};

    ghost Value = { List ℕ };

    ghost view = { λ s. s.map.items };

    ghost invariant = { λ s. (address : ℕ) → function_in s.table address
        ≡ function_in (symbols_of s.map.items) address };
}

// No function of a kernel has so many bytes.
const FAR: u64 = 1 << 20;

fn unless_far(address: u64, last: Option<Symbol>) -> Option<Symbol>
    ensures { result ≡ unless_far address last }
{
    match last {
        Some(symbol) if address.saturating_sub(symbol.address) < FAR => Some(symbol),
        _ => None,
    }
}

impl Symbols {
    /// Reads a map, sorted or not. Takes n log n steps.
    pub fn read(alloc: Global, map: Vec<u8>) -> Result<Symbols, AllocError>
        ensures { IfOk result (λ symbols. symbols ≡ map.items) }
    {
        let table = symbol_table(alloc, &map)?;
        Ok(Symbols { map, table })
    }

    /// The map without a function.
    pub fn none(alloc: Global) -> Symbols
        ensures { result ≡ [] }
    {
        Symbols {
            map: Vec::new(alloc),
            table: no_table(alloc),
        }
    }

    /// The function that an address is of: the last one at or below it; `None` if all are above it or 1 MiB below, or
    /// the map hides its addresses.
    pub fn function_at(&self, address: u64) -> Option<Symbol>
        ensures { result ≡ function_of self.now address }
    {
        unless_far(address, self.table.function_at(address))
    }

    /// How far above the map a kernel runs that says this after `Kernel Offset: `; 0 if it says not how far from where,
    /// or no function of the map begins there.
    #[tactic(auto, unfolding(symbol_spec::specs::Shifts::shift_of))]
    pub fn shift(&self, said: &[u8]) -> u64
        ensures { result ≡ shift_of self.now said.now }
    {
        let from = from_of(said);
        if is_shift(said) && begins_at(from, self.function_at(from)) {
            number_at(said)
        } else {
            0
        }
    }

    /// The function of an address of a kernel that runs so far above the map.
    #[tactic(auto, unfolding(symbol_spec::specs::Shifts::function_above))]
    pub fn function_above(&self, shift: u64, address: u64) -> Option<Symbol>
        ensures { result ≡ function_above self.now shift address }
    {
        if address < shift {
            None
        } else {
            self.function_at(address - shift)
        }
    }

    /// The name of a function of the map.
    pub fn name(&self, symbol: Symbol) -> &[u8]
        ensures { result.now ≡ name_of self.now symbol.name }
    {
        name_at(&self.map, symbol.name)
    }

    /// The module that a function of the map is of, in brackets; nothing for a function of the kernel itself.
    pub fn module(&self, symbol: Symbol) -> &[u8]
        ensures { result.now ≡ module_of self.now symbol.name }
    {
        module_at(&self.map, symbol.name)
    }
}
