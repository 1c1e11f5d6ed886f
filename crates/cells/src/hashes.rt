// Hashes of cells, letters, simplices and small cells. Equal ones hash alike.
ghost use Rattle.std.specs.Prelude.{◌≡◌, fold};
ghost use Rattle.std.specs.List.{flat_map};
ghost use Rattle.cells.specs.Hashes.{fed_cell, fed_simplex, fed_letter, fed_small};

use crate::cells::{Cell, Letter, Simplex, SmallCell};
use std::hash::{Hash, Hasher};

// The kind comes first, as the place of the variant in the order of the enum.
#[cycle(hash)]
fn hash_cell<H: Hasher>(c: &Cell, state: &mut H)
    ensures { state.new ≡ fold H.write state.old (fed_cell c.now) }
{
    match c {
        Cell::Row(dim, row) => {
            state.write_u8(0);
            state.write_u64(*dim as u64);
            state.write_u64(*row as u64);
        }
        Cell::Base => state.write_u8(1),
        Cell::Top(n) => {
            state.write_u8(2);
            state.write_u64(*n as u64);
        }
        Cell::Pair(a, b) => {
            state.write_u8(3);
            hash_simplex(a.get(), state);
            hash_simplex(b.get(), state);
        }
        Cell::Up(below) => {
            state.write_u8(4);
            hash_cell(below.get(), state);
        }
        Cell::Ints(list) => {
            state.write_u8(5);
            list.hash(state);
        }
        Cell::Word(letters) => {
            state.write_u8(6);
            state.write_usize(letters.len());
            hash_letters(letters.as_slice(), state);
        }
    }
}

#[cycle(hash)]
fn hash_simplex<H: Hasher>(x: &Simplex, state: &mut H)
    ensures { state.new ≡ fold H.write state.old (fed_simplex x.now) }
{
    state.write_u64(x.degens.mask);
    hash_cell(&x.cell, state);
}

#[cycle(hash)]
fn hash_letter<H: Hasher>(l: &Letter, state: &mut H)
    ensures { state.new ≡ fold H.write state.old (fed_letter l.now) }
{
    state.write_u64(l.inverse as u64);
    hash_simplex(&l.simplex, state);
}

#[cycle(hash)]
fn hash_letters<H: Hasher>(letters: &[Letter], state: &mut H)
    ensures { state.new ≡ fold H.write state.old (flat_map fed_letter letters.now) }
{
    for i in 0..letters.len() {
        hash_letter(&letters[i], state);
    }
}

// A word of small cells feeds its letters alone.
#[cycle(hash_small)]
fn hash_small<H: Hasher>(c: &SmallCell, state: &mut H)
    ensures { state.new ≡ fold H.write state.old (fed_small c.now) }
{
    match c {
        SmallCell::One(cell) => {
            state.write_u8(0);
            hash_cell(cell, state);
        }
        SmallCell::Pair(a, b) => {
            state.write_u8(1);
            hash_small(a.get(), state);
            hash_small(b.get(), state);
        }
        SmallCell::Up(below) => {
            state.write_u8(2);
            hash_small(below.get(), state);
        }
        SmallCell::Word(letters) => {
            state.write_u8(3);
            hash_smalls(letters.as_slice(), state);
        }
    }
}

#[cycle(hash_small)]
fn hash_smalls<H: Hasher>(letters: &[SmallCell], state: &mut H)
    ensures { state.new ≡ fold H.write state.old (flat_map fed_small letters.now) }
{
    for i in 0..letters.len() {
        hash_small(&letters[i], state);
    }
}

impl Hash for Cell {
    ghost use Rattle.cells.specs.Hashes.{cell_fed};

    ghost hash_input = { fed_cell };

    ghost respects_eq = { cell_fed };

    fn hash<H: Hasher>(&self, state: &mut H) {
        hash_cell(self, state);
    }
}

impl Hash for Simplex {
    ghost use Rattle.cells.specs.Hashes.{simplex_fed};

    ghost hash_input = { fed_simplex };

    ghost respects_eq = { simplex_fed };

    fn hash<H: Hasher>(&self, state: &mut H) {
        hash_simplex(self, state);
    }
}

impl Hash for Letter {
    ghost use Rattle.cells.specs.Hashes.{letter_fed};

    ghost hash_input = { fed_letter };

    ghost respects_eq = { letter_fed };

    fn hash<H: Hasher>(&self, state: &mut H) {
        hash_letter(self, state);
    }
}

impl Hash for SmallCell {
    ghost use Rattle.cells.specs.Hashes.{small_fed};

    ghost hash_input = { fed_small };

    ghost respects_eq = { small_fed };

    fn hash<H: Hasher>(&self, state: &mut H) {
        hash_small(self, state);
    }
}
