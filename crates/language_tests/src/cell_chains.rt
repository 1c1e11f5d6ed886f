// Cells and chains, made part by part.
ghost use Rattle.std.specs.Prelude.{◌<◌};
ghost use Rattle.fp_field.specs.Field.{number};

use chain_core::Chain;
use fp_field::{Fp, Prime};
use oracle_iface::ChainList;
use seqs::{Box, new_seq};
use simp_ops::Degens;
use std::alloc::{AllocError, Global};
use term_lang::{Cell, IntList, Letter, LetterList, Simplex};

pub(crate) const ONE: Fp = Fp { value: 1 };

pub(crate) const TWO: Fp = Fp { value: 2 };

const NONE: Degens = Degens { mask: 0 };

const S0: Degens = Degens { mask: 1 };

const S1: Degens = Degens { mask: 2 };

const S2: Degens = Degens { mask: 4 };

const S1_S0: Degens = Degens { mask: 3 };

pub(crate) fn ints(alloc: Global, items: &[i64]) -> Result<IntList, AllocError> {
    let mut list = new_seq(alloc);
    for k in items {
        list.push(*k)?;
    }
    Ok(list)
}

fn pair(alloc: Global, left: Degens, x: Cell, right: Degens, y: Cell) -> Result<Cell, AllocError> {
    let left = Box::new(
        alloc,
        Simplex {
            degens: left,
            cell: x,
        },
    )?;
    let right = Box::new(
        alloc,
        Simplex {
            degens: right,
            cell: y,
        },
    )?;
    Ok(Cell::Pair(left, right))
}

// The pair of two degeneracies of the cell of the circle.
fn pair_of_edges(alloc: Global, left: Degens, right: Degens) -> Result<Cell, AllocError> {
    pair(alloc, left, Cell::Top(1), right, Cell::Top(1))
}

// s_1 s_0 of the empty list of integers over the cell of the base.
fn over_the_cell(alloc: Global) -> Result<Cell, AllocError> {
    pair(
        alloc,
        NONE,
        Cell::Row(2, 1),
        S1_S0,
        Cell::Ints(ints(alloc, &[])?),
    )
}

// Two integers over s_1 s_0 of the vertex of the base.
fn over_the_vertex(alloc: Global) -> Result<Cell, AllocError> {
    pair(
        alloc,
        S1_S0,
        Cell::Row(0, 0),
        NONE,
        Cell::Ints(ints(alloc, &[1, -12])?),
    )
}

// The word of one letter.
fn word(
    alloc: Global,
    inverse: bool,
    degens: Degens,
    cell: Cell,
) -> Result<LetterList, AllocError> {
    let mut letters = new_seq(alloc);
    letters.push(Letter {
        inverse,
        simplex: Simplex { degens, cell },
    })?;
    Ok(letters)
}

// The word of two degeneracies of the cell of the 2-sphere.
fn two_letters(alloc: Global, first: Degens, second: Degens) -> Result<Cell, AllocError> {
    let mut letters = word(alloc, false, first, Cell::Top(2))?;
    letters.push(Letter {
        inverse: false,
        simplex: Simplex {
            degens: second,
            cell: Cell::Top(2),
        },
    })?;
    Ok(Cell::Word(letters))
}

/// s_0 of the vertex, and the inverse of the letter of the suspended cell of the circle.
pub(crate) fn inverse_letter(alloc: Global) -> Result<Cell, AllocError> {
    let up = Cell::Up(Box::new(alloc, Cell::Top(1))?);
    let letters = word(alloc, true, NONE, up)?;
    pair(alloc, S0, Cell::Base, NONE, Cell::Word(letters))
}

// The chain of two cells, the second once.
fn two_terms(
    alloc: Global,
    p: Prime,
    c: Fp,
    first: Result<Cell, AllocError>,
    second: Result<Cell, AllocError>,
) -> Result<Chain<Cell>, AllocError>
    requires { c.value < number p }
{
    let mut chain = one_term(alloc, p, c, first)?;
    chain.add_term(second?, ONE)?;
    Ok(chain)
}

fn one_term(
    alloc: Global,
    p: Prime,
    c: Fp,
    cell: Result<Cell, AllocError>,
) -> Result<Chain<Cell>, AllocError>
    requires { c.value < number p }
{
    let mut chain = Chain::new(alloc, p);
    chain.add_term(cell?, c)?;
    Ok(chain)
}

/// The surface of the torus, over F_3.
pub(crate) fn surface(alloc: Global) -> Result<Chain<Cell>, AllocError> {
    two_terms(
        alloc,
        Prime::Three,
        TWO,
        pair_of_edges(alloc, S0, S1),
        pair_of_edges(alloc, S1, S0),
    )
}

/// A chain of words of the cell of the 2-sphere, over F_3.
pub(crate) fn words(alloc: Global) -> Result<Chain<Cell>, AllocError> {
    two_terms(
        alloc,
        Prime::Three,
        TWO,
        two_letters(alloc, S1, S2),
        two_letters(alloc, S2, S1),
    )
}

/// A chain of a circle bundle over the 2-sphere, over F_2.
pub(crate) fn in_the_bundle(alloc: Global) -> Result<Chain<Cell>, AllocError> {
    two_terms(
        alloc,
        Prime::Two,
        ONE,
        over_the_cell(alloc),
        over_the_vertex(alloc),
    )
}

pub(crate) fn one_cycle(
    alloc: Global,
    cycle: Result<Chain<Cell>, AllocError>,
) -> Result<ChainList, AllocError> {
    let mut cycles = ChainList::new(alloc);
    cycles.push(cycle?)?;
    Ok(cycles)
}

/// The two circles of the torus, over F_3.
pub(crate) fn circles(alloc: Global) -> Result<ChainList, AllocError> {
    let first = pair(alloc, S0, Cell::Base, NONE, Cell::Top(1));
    let mut cycles = one_cycle(alloc, one_term(alloc, Prime::Three, ONE, first))?;
    let second = pair(alloc, NONE, Cell::Top(1), S0, Cell::Base);
    cycles.push(one_term(alloc, Prime::Three, ONE, second)?)?;
    Ok(cycles)
}
