// The orders of cells, letters and simplices: by dimension, kind and contents. Of two cells of one
// kind the dimensions are counted only where they decide: what is compared after them tells cells
// of different dimensions apart in the same way, unless masks or lengths come before it.
ghost use Rattle.std.specs.Prelude.{◌≡◌, length, IsTrue};
ghost use Rattle.std.specs.Ordering.{nat_cmp, int_cmp, ordering_then};
ghost use Rattle.std.specs.Cmp.Lexicographic.{slice_cmp};
ghost use Rattle.cells.specs.declared.cells.Cell.TheVariants.{Word};
ghost use Rattle.cells.specs.Dim.{degree_of};
ghost use Rattle.cells.specs.Order.{kind_of, kinds_cmp, cell_cmp, simplex_cmp, letter_cmp};

use crate::cells::{Cell, IntList, Letter, LetterList, Simplex};
use crate::dims::{degree, dim};
use std::cmp::Ordering;

// The place of a cell's variant in the order of the enum.
fn kind(c: &Cell) -> u8
    ensures { result ≡ kind_of c.now }
{
    match c {
        Cell::Row(_, _) => 0,
        Cell::Base => 1,
        Cell::Top(_) => 2,
        Cell::Pair(_, _) => 3,
        Cell::Up(_) => 4,
        Cell::Ints(_) => 5,
        Cell::Word(_) => 6,
    }
}

// By dimension, then by kind.
fn cmp_kinds(c: &Cell, d: &Cell) -> Ordering
    ensures { result ≡ kinds_cmp c.now d.now }
{
    match dim(c).cmp(&dim(d)) {
        Ordering::Equal => kind(c).cmp(&kind(d)),
        unequal => unequal,
    }
}

// By length, then by the first different integer.
fn cmp_ints(a: &IntList, b: &IntList) -> Ordering
    ensures { result ≡ ordering_then (nat_cmp (length a.now) (length b.now)) (slice_cmp int_cmp a.now b.now) }
{
    match a.len().cmp(&b.len()) {
        Ordering::Equal => a.cmp(b),
        unequal => unequal,
    }
}

// Whether letters differ in their cells at most.
fn alike(l: &Letter, m: &Letter) -> bool
    ensures inverse { IsTrue result → l.now.inverse ≡ m.now.inverse }
    ensures mask { IsTrue result → l.now.simplex.degens.mask ≡ m.now.simplex.degens.mask }
{
    l.inverse == m.inverse && l.simplex.degens.mask == m.simplex.degens.mask
}

// Whether words of one length begin with letters that differ in their cells at most.
fn begin_alike(a: &LetterList, b: &LetterList) -> bool
    ensures { IsTrue result → cell_cmp (Word a.now) (Word b.now)
        ≡ ordering_then (nat_cmp (length a.now) (length b.now)) (slice_cmp letter_cmp a.now b.now) }
{
    if a.len() != b.len() {
        return false;
    }
    match (a.get(0), b.get(0)) {
        (Some(l), Some(m)) => alike(l, m),
        _ => false,
    }
}

// Of two words: by dimension, where what they begin with does not do without it.
fn cmp_word_dims(c: &Cell, d: &Cell, a: &LetterList, b: &LetterList) -> Ordering
    requires first { c.now ≡ Word a.now }
    requires second { d.now ≡ Word b.now }
    ensures { cell_cmp c.now d.now
        ≡ ordering_then result (ordering_then (nat_cmp (length a.now) (length b.now)) (slice_cmp letter_cmp a.now b.now)) }
{
    if begin_alike(a, b) {
        return Ordering::Equal;
    }
    dim(c).cmp(&dim(d))
}

// Words by length, then letter by letter.
#[cycle(order)]
fn cmp_words(a: &[Letter], b: &[Letter]) -> Ordering
    ensures { result ≡ ordering_then (nat_cmp (length a.now) (length b.now)) (slice_cmp letter_cmp a.now b.now) }
{
    match a.len().cmp(&b.len()) {
        Ordering::Equal => cmp_letters(a, b),
        unequal => unequal,
    }
}

// Words of one length, letter by letter.
#[cycle(order)]
fn cmp_letters(a: &[Letter], b: &[Letter]) -> Ordering
    requires { length a.now ≡ length b.now }
    ensures { result ≡ slice_cmp letter_cmp a.now b.now }
{
    for i in 0..a.len() {
        match a[i].cmp(&b[i]) {
            Ordering::Equal => {}
            unequal => return unequal,
        }
    }
    Ordering::Equal
}

// By degree, then in the order of simplices. Of simplices with one mask the cells decide as the
// degrees do.
#[cycle(order)]
fn cmp_lefts(a: &Simplex, b: &Simplex) -> Ordering
    ensures { result ≡ ordering_then (nat_cmp (degree_of a.now) (degree_of b.now)) (simplex_cmp a.now b.now) }
{
    match a.degens.cmp(&b.degens) {
        Ordering::Equal => a.cell.cmp(&b.cell),
        by_mask => match degree(a).cmp(&degree(b)) {
            Ordering::Equal => by_mask,
            by_degree => by_degree,
        },
    }
}

impl Ord for Cell {
    ghost use Rattle.cells.specs.Order.{cell_cmp};
    ghost use Rattle.cells.specs.Laws.{cell_total, cell_agrees, cell_ties};

    ghost cmp = { cell_cmp };

    ghost total = { cell_total };

    ghost matches_partial_cmp = { cell_agrees };

    ghost matches_eq = { cell_ties };

    #[cycle(order)]
    fn cmp(&self, other: &Cell) -> Ordering {
        match (self, other) {
            (Cell::Row(d, a), Cell::Row(e, b)) => d.cmp(e).then(a.cmp(b)),
            (Cell::Base, Cell::Base) => Ordering::Equal,
            (Cell::Top(m), Cell::Top(n)) => m.cmp(n),
            (Cell::Pair(a, x), Cell::Pair(b, y)) => match cmp_lefts(a.get(), b.get()) {
                Ordering::Equal => x.get().cmp(y.get()),
                unequal => unequal,
            },
            (Cell::Up(c), Cell::Up(d)) => c.get().cmp(d.get()),
            (Cell::Ints(a), Cell::Ints(b)) => cmp_ints(a, b),
            (Cell::Word(a), Cell::Word(b)) => match cmp_word_dims(self, other, a, b) {
                Ordering::Equal => cmp_words(a.as_slice(), b.as_slice()),
                unequal => unequal,
            },
            _ => cmp_kinds(self, other),
        }
    }
}

impl Ord for Simplex {
    ghost use Rattle.cells.specs.Order.{simplex_cmp};
    ghost use Rattle.cells.specs.Laws.{simplex_total, simplex_agrees, simplex_ties};

    ghost cmp = { simplex_cmp };

    ghost total = { simplex_total };

    ghost matches_partial_cmp = { simplex_agrees };

    ghost matches_eq = { simplex_ties };

    #[cycle(order)]
    fn cmp(&self, other: &Simplex) -> Ordering {
        match self.degens.cmp(&other.degens) {
            Ordering::Equal => self.cell.cmp(&other.cell),
            unequal => unequal,
        }
    }
}

impl Ord for Letter {
    ghost use Rattle.cells.specs.Order.{letter_cmp};
    ghost use Rattle.cells.specs.Laws.{letter_total, letter_agrees, letter_ties};

    ghost cmp = { letter_cmp };

    ghost total = { letter_total };

    ghost matches_partial_cmp = { letter_agrees };

    ghost matches_eq = { letter_ties };

    #[cycle(order)]
    fn cmp(&self, other: &Letter) -> Ordering {
        match self.inverse.cmp(&other.inverse) {
            Ordering::Equal => self.simplex.cmp(&other.simplex),
            unequal => unequal,
        }
    }
}

impl PartialOrd for Cell {
    ghost use Rattle.cells.specs.Order.{cell_cmp};
    ghost use Rattle.cells.specs.Laws.{cell_po};
    ghost use Rattle.std.specs.Ordering.{as_partial_cmp};

    ghost partial_cmp = { as_partial_cmp cell_cmp };

    ghost laws = { cell_po };

    fn partial_cmp(&self, other: &Cell) -> Option<Ordering> {
        Some(self.cmp(other))
    }
}

impl PartialOrd for Simplex {
    ghost use Rattle.cells.specs.Order.{simplex_cmp};
    ghost use Rattle.cells.specs.Laws.{simplex_po};
    ghost use Rattle.std.specs.Ordering.{as_partial_cmp};

    ghost partial_cmp = { as_partial_cmp simplex_cmp };

    ghost laws = { simplex_po };

    fn partial_cmp(&self, other: &Simplex) -> Option<Ordering> {
        Some(self.cmp(other))
    }
}

impl PartialOrd for Letter {
    ghost use Rattle.cells.specs.Order.{letter_cmp};
    ghost use Rattle.cells.specs.Laws.{letter_po};
    ghost use Rattle.std.specs.Ordering.{as_partial_cmp};

    ghost partial_cmp = { as_partial_cmp letter_cmp };

    ghost laws = { letter_po };

    fn partial_cmp(&self, other: &Letter) -> Option<Ordering> {
        Some(self.cmp(other))
    }
}
