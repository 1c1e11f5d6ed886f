// Copies of cells, letters, simplices and small cells. Each equals its source.
ghost use Rattle.std.specs.Prelude.{◌≡◌, IfOk};

use crate::cells::{Cell, Letter, LetterList, Simplex, SmallCell, SmallList};
use seqs::{Box, new_seq};
use std::alloc::{AllocError, Global};

/// A copy of a cell.
#[cycle(copies)]
pub fn copy_cell(alloc: Global, c: &Cell) -> Result<Cell, AllocError>
    ensures { IfOk result (λ copy. copy ≡ c.now) }
{
    match c {
        Cell::Row(dim, row) => Ok(Cell::Row(*dim, *row)),
        Cell::Base => Ok(Cell::Base),
        Cell::Top(n) => Ok(Cell::Top(*n)),
        Cell::Pair(a, b) => {
            let left = Box::new(alloc, copy_simplex(alloc, a.get())?)?;
            let right = Box::new(alloc, copy_simplex(alloc, b.get())?)?;
            Ok(Cell::Pair(left, right))
        }
        Cell::Up(below) => Ok(Cell::Up(Box::new(alloc, copy_cell(alloc, below.get())?)?)),
        Cell::Ints(list) => Ok(Cell::Ints(list.copied(alloc)?)),
        Cell::Word(letters) => Ok(Cell::Word(copy_letters(alloc, letters)?)),
    }
}

/// A copy of a simplex.
#[cycle(copies)]
pub fn copy_simplex(alloc: Global, x: &Simplex) -> Result<Simplex, AllocError>
    ensures { IfOk result (λ copy. copy ≡ x.now) }
{
    let cell = copy_cell(alloc, &x.cell)?;
    Ok(Simplex {
        degens: x.degens,
        cell,
    })
}

/// A copy of the letters of a word.
#[cycle(copies)]
pub fn copy_letters(alloc: Global, letters: &LetterList) -> Result<LetterList, AllocError>
    ensures { IfOk result (λ copy. copy ≡ letters.now) }
{
    let mut copy = new_seq(alloc);
    for letter in letters.as_slice() {
        let copied = Letter {
            inverse: letter.inverse,
            simplex: copy_simplex(alloc, &letter.simplex)?,
        };
        copy.push(copied)?;
    }
    Ok(copy)
}

/// A copy of a small cell.
#[cycle(small_copies)]
pub fn copy_small(alloc: Global, c: &SmallCell) -> Result<SmallCell, AllocError>
    ensures { IfOk result (λ copy. copy ≡ c.now) }
{
    match c {
        SmallCell::One(cell) => Ok(SmallCell::One(copy_cell(alloc, cell)?)),
        SmallCell::Pair(a, b) => {
            let left = Box::new(alloc, copy_small(alloc, a.get())?)?;
            let right = Box::new(alloc, copy_small(alloc, b.get())?)?;
            Ok(SmallCell::Pair(left, right))
        }
        SmallCell::Up(below) => Ok(SmallCell::Up(Box::new(
            alloc,
            copy_small(alloc, below.get())?,
        )?)),
        SmallCell::Word(letters) => Ok(SmallCell::Word(copy_small_letters(alloc, letters)?)),
    }
}

#[cycle(small_copies)]
fn copy_small_letters(alloc: Global, letters: &SmallList) -> Result<SmallList, AllocError>
    ensures { IfOk result (λ copy. copy ≡ letters.now) }
{
    let mut copy = new_seq(alloc);
    for letter in letters.as_slice() {
        copy.push(copy_small(alloc, letter)?)?;
    }
    Ok(copy)
}

// A clone takes memory from where its source has it.
impl Clone for Cell {
    ghost is_clone = { λ source clone. clone ≡ source };

    fn clone(&self) -> Result<Cell, AllocError> {
        match self {
            Cell::Row(dim, row) => Ok(Cell::Row(*dim, *row)),
            Cell::Base => Ok(Cell::Base),
            Cell::Top(n) => Ok(Cell::Top(*n)),
            Cell::Pair(a, _) => copy_cell(a.allocator(), self),
            Cell::Up(below) => copy_cell(below.allocator(), self),
            Cell::Ints(list) => copy_cell(list.allocator(), self),
            Cell::Word(letters) => copy_cell(letters.allocator(), self),
        }
    }
}

impl Clone for Simplex {
    ghost is_clone = { λ source clone. clone ≡ source };

    fn clone(&self) -> Result<Simplex, AllocError> {
        let cell = self.cell.clone()?;
        Ok(Simplex {
            degens: self.degens,
            cell,
        })
    }
}

impl Clone for Letter {
    ghost is_clone = { λ source clone. clone ≡ source };

    fn clone(&self) -> Result<Letter, AllocError> {
        let simplex = self.simplex.clone()?;
        Ok(Letter {
            inverse: self.inverse,
            simplex,
        })
    }
}

impl Clone for SmallCell {
    ghost is_clone = { λ source clone. clone ≡ source };

    fn clone(&self) -> Result<SmallCell, AllocError> {
        match self {
            SmallCell::One(cell) => Ok(SmallCell::One(cell.clone()?)),
            SmallCell::Pair(a, _) => copy_small(a.allocator(), self),
            SmallCell::Up(below) => copy_small(below.allocator(), self),
            SmallCell::Word(letters) => copy_small(letters.allocator(), self),
        }
    }
}
