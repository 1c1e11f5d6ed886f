// Equality of cells, letters, simplices and small cells, by what they are made of: no degree is counted. It is the
// equality of their orders.
ghost use Rattle.std.specs.Prelude.{◌≡◌, ◌&&◌, nat_eq};
ghost use Rattle.std.specs.Ordering.{eq_by_cmp};
ghost use Rattle.std.specs.Cmp.Lexicographic.{pointwise};
ghost use Rattle.cells.specs.Order.{cell_cmp, simplex_cmp, letter_cmp};
ghost use Rattle.cells.specs.Small.{small_cmp};

use crate::cells::{Cell, Letter, Simplex, SmallCell};

// Whether two pairs of simplices have the same masks.
fn same_masks(a: &Simplex, x: &Simplex, b: &Simplex, y: &Simplex) -> bool
    ensures { result ≡ nat_eq a.now.degens.mask b.now.degens.mask && nat_eq x.now.degens.mask y.now.degens.mask }
{
    a.degens.mask == b.degens.mask && x.degens.mask == y.degens.mask
}

#[cycle(equal)]
fn same_cells(c: &Cell, d: &Cell) -> bool
    ensures { result ≡ eq_by_cmp cell_cmp c.now d.now }
{
    match (c, d) {
        (Cell::Row(d, a), Cell::Row(e, b)) => d == e && a == b,
        (Cell::Base, Cell::Base) => true,
        (Cell::Top(m), Cell::Top(n)) => m == n,
        (Cell::Pair(a, x), Cell::Pair(b, y)) => {
            // The masks come first, as the cells may go deep.
            if !same_masks(a.get(), x.get(), b.get(), y.get()) {
                return false;
            }
            same_simplices(a.get(), b.get()) && same_simplices(x.get(), y.get())
        }
        (Cell::Up(c), Cell::Up(d)) => same_cells(c.get(), d.get()),
        (Cell::Ints(a), Cell::Ints(b)) => a == b,
        (Cell::Word(a), Cell::Word(b)) => same_words(a.as_slice(), b.as_slice()),
        _ => false,
    }
}

#[cycle(equal)]
fn same_simplices(x: &Simplex, y: &Simplex) -> bool
    ensures { result ≡ eq_by_cmp simplex_cmp x.now y.now }
{
    if x.degens.mask != y.degens.mask {
        return false;
    }
    same_cells(&x.cell, &y.cell)
}

#[cycle(equal)]
fn same_letters(l: &Letter, m: &Letter) -> bool
    ensures { result ≡ eq_by_cmp letter_cmp l.now m.now }
{
    if l.inverse != m.inverse {
        return false;
    }
    same_simplices(&l.simplex, &m.simplex)
}

// Words, letter by letter.
#[cycle(equal)]
fn same_words(v: &[Letter], w: &[Letter]) -> bool
    ensures { result ≡ pointwise (eq_by_cmp letter_cmp) v.now w.now }
{
    if v.len() != w.len() {
        return false;
    }
    for i in 0..v.len() {
        if !same_letters(&v[i], &w[i]) {
            return false;
        }
    }
    true
}

#[cycle(equal_small)]
fn same_small(c: &SmallCell, d: &SmallCell) -> bool
    ensures { result ≡ eq_by_cmp small_cmp c.now d.now }
{
    match (c, d) {
        (SmallCell::One(x), SmallCell::One(y)) => x == y,
        (SmallCell::Pair(a, x), SmallCell::Pair(b, y)) => {
            same_small(a.get(), b.get()) && same_small(x.get(), y.get())
        }
        (SmallCell::Up(x), SmallCell::Up(y)) => same_small(x.get(), y.get()),
        (SmallCell::Word(v), SmallCell::Word(w)) => same_smalls(v.as_slice(), w.as_slice()),
        _ => false,
    }
}

// Words of small cells, letter by letter.
#[cycle(equal_small)]
fn same_smalls(v: &[SmallCell], w: &[SmallCell]) -> bool
    ensures { result ≡ pointwise (eq_by_cmp small_cmp) v.now w.now }
{
    if v.len() != w.len() {
        return false;
    }
    for i in 0..v.len() {
        if !same_small(&v[i], &w[i]) {
            return false;
        }
    }
    true
}

impl PartialEq for Cell {
    ghost use Rattle.cells.specs.Laws.{cell_per};

    ghost eq = { eq_by_cmp cell_cmp };

    ghost laws = { cell_per };

    fn eq(&self, other: &Cell) -> bool {
        same_cells(self, other)
    }
}

impl Eq for Cell {
    ghost use Rattle.cells.specs.Laws.{cell_equiv};

    ghost laws = { cell_equiv };
}

impl PartialEq for Simplex {
    ghost use Rattle.cells.specs.Laws.{simplex_per};

    ghost eq = { eq_by_cmp simplex_cmp };

    ghost laws = { simplex_per };

    fn eq(&self, other: &Simplex) -> bool {
        same_simplices(self, other)
    }
}

impl Eq for Simplex {
    ghost use Rattle.cells.specs.Laws.{simplex_equiv};

    ghost laws = { simplex_equiv };
}

impl PartialEq for Letter {
    ghost use Rattle.cells.specs.Laws.{letter_per};

    ghost eq = { eq_by_cmp letter_cmp };

    ghost laws = { letter_per };

    fn eq(&self, other: &Letter) -> bool {
        same_letters(self, other)
    }
}

impl Eq for Letter {
    ghost use Rattle.cells.specs.Laws.{letter_equiv};

    ghost laws = { letter_equiv };
}

impl PartialEq for SmallCell {
    ghost use Rattle.cells.specs.Laws.{small_per};

    ghost eq = { eq_by_cmp small_cmp };

    ghost laws = { small_per };

    fn eq(&self, other: &SmallCell) -> bool {
        same_small(self, other)
    }
}

impl Eq for SmallCell {
    ghost use Rattle.cells.specs.Laws.{small_equiv};

    ghost laws = { small_equiv };
}
