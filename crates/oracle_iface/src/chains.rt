// Lists of chains.
ghost use Rattle.std.specs.Prelude.{◌≡◌, [], ◌∷◌, ◌++◌, length, slice_get, OnOk, OnErr};
ghost use Rattle.std.specs.Option.{option_copied};

use chain_core::Chain;
use std::alloc::{AllocError, Global};
use std::marker::Model;
use term_lang::Cell;

/// A list of chains of cells.
#[derive(Debug, Drop)]
pub struct ChainList {
    chains: Vec<Chain<Cell>>,
}

impl Model for ChainList {
    ghost use Rattle.std.specs.Prelude.{List};
    ghost use Rattle.chain_core.specs.Formal.{Formal};
    ghost use Rattle.cells.specs.declared.cells.Cell.{Cell};
    ghost use Rattle.std.specs.Coded.{codes};
    ghost use Rattle.cells.specs.contracts.cells.Cell as cell;

    ghost Value = { List (Formal Cell) };

    ghost coded = { Prim.hlevel (codes, cell.the_row.coded) };

    ghost view = { λ l. l.chains.items };
}

impl ChainList {
    /// The empty list.
    pub fn new(alloc: Global) -> ChainList
        ensures { result ≡ [] }
    {
        ChainList {
            chains: Vec::new(alloc),
        }
    }

    /// The number of chains.
    pub fn len(&self) -> usize
        ensures { result ≡ length self.now }
    {
        self.chains.len()
    }

    /// The chain at a place, or None exactly where the place is not below the length.
    pub fn get(&self, i: usize) -> Option<&Chain<Cell>>
        ensures { option_copied result ≡ slice_get self.now i }
    {
        self.chains.get(i)
    }

    /// The chains in order.
    pub fn as_slice(&self) -> &[Chain<Cell>]
        ensures { result.now ≡ self.now }
    {
        &self.chains
    }

    /// Puts a chain at the end.
    pub fn push(&mut self, chain: Chain<Cell>) -> Result<(), AllocError>
        ensures ok { OnOk result (self.new ≡ self.old ++ chain ∷ []) }
        ensures err { OnErr result (self.new ≡ self.old) }
    {
        self.chains.push(chain)?;
        Ok(())
    }
}
