// The degree and the order of small cells.
ghost use Rattle.std.specs.Prelude.{◌≡◌, ◌<◌};
ghost use Rattle.std.specs.Cmp.Lexicographic.{slice_cmp};
ghost use Rattle.cells.specs.Small.{degree_of_small, small_kind_of, small_kinds_cmp, small_cmp};

use crate::cells::SmallCell;
use crate::dims::dim;
use std::cmp::Ordering;

/// The degree of a small cell, or 4,294,967,295 where it is larger, at each level on the way up:
/// the sum over a pair, one more above a suspended cell, and over a word the sum of one less than
/// the degree of each letter, where a letter of degree 0 adds 0.
pub fn small_degree(c: &SmallCell) -> u32
    ensures { result ≡ degree_of_small c.now }
{
    match c {
        SmallCell::One(c) => dim(c),
        SmallCell::Pair(a, b) => small_degree(a.get()).saturating_add(small_degree(b.get())),
        SmallCell::Up(c) => small_degree(c.get()).saturating_add(1),
        SmallCell::Word(letters) => {
            let mut degree = 0u32;
            for letter in letters.as_slice() {
                degree = degree.saturating_add(small_degree(letter).saturating_sub(1));
            }
            degree
        }
    }
}

// The place of a small cell's variant in the order of the enum.
fn kind(c: &SmallCell) -> u8
    ensures { result ≡ small_kind_of c.now }
{
    match c {
        SmallCell::One(_) => 0,
        SmallCell::Pair(_, _) => 1,
        SmallCell::Up(_) => 2,
        SmallCell::Word(_) => 3,
    }
}

// By degree, then by kind.
fn cmp_kinds(c: &SmallCell, d: &SmallCell) -> Ordering
    ensures { result ≡ small_kinds_cmp c.now d.now }
{
    match small_degree(c).cmp(&small_degree(d)) {
        Ordering::Equal => kind(c).cmp(&kind(d)),
        unequal => unequal,
    }
}

// Degrees are counted only where no part tells: of pairs with one left part the right ones decide.
#[cycle(small)]
fn cmp_small(c: &SmallCell, d: &SmallCell) -> Ordering
    ensures { result ≡ small_cmp c.now d.now }
{
    match (c, d) {
        (SmallCell::One(x), SmallCell::One(y)) => x.cmp(y),
        (SmallCell::Pair(a, x), SmallCell::Pair(b, y)) => {
            if a.get() == b.get() {
                return cmp_small(x.get(), y.get());
            }
            let m = small_degree(a.get());
            let n = small_degree(b.get());
            let first = m.saturating_add(small_degree(x.get()));
            match first.cmp(&n.saturating_add(small_degree(y.get()))) {
                Ordering::Equal => cmp_counted(a.get(), b.get(), m, n),
                unequal => unequal,
            }
        }
        (SmallCell::Up(x), SmallCell::Up(y)) => cmp_small(x.get(), y.get()),
        (SmallCell::Word(v), SmallCell::Word(w)) => match small_degree(c).cmp(&small_degree(d)) {
            Ordering::Equal => cmp_words(v.as_slice(), w.as_slice()),
            unequal => unequal,
        },
        _ => cmp_kinds(c, d),
    }
}

// Small cells whose degrees m and n are counted.
#[cycle(small)]
fn cmp_counted(c: &SmallCell, d: &SmallCell, m: u32, n: u32) -> Ordering
    ensures { m ≡ degree_of_small c.now → n ≡ degree_of_small d.now → result ≡ small_cmp c.now d.now }
{
    match m.cmp(&n) {
        Ordering::Equal => {
            if m == u32::MAX {
                return cmp_small(c, d);
            }
            cmp_level(c, d)
        }
        unequal => unequal,
    }
}

// Small cells of one degree, which is below the greatest number: so are the parts that are left when
// parts of one degree are taken away.
#[cycle(small)]
fn cmp_level(c: &SmallCell, d: &SmallCell) -> Ordering
    ensures { degree_of_small c.now ≡ degree_of_small d.now → degree_of_small c.now < 4294967295
        → result ≡ small_cmp c.now d.now }
{
    match (c, d) {
        (SmallCell::One(x), SmallCell::One(y)) => x.cmp(y),
        (SmallCell::Pair(a, x), SmallCell::Pair(b, y)) => {
            if a.get() == b.get() {
                return cmp_level(x.get(), y.get());
            }
            let m = small_degree(a.get());
            cmp_counted(a.get(), b.get(), m, small_degree(b.get()))
        }
        (SmallCell::Up(x), SmallCell::Up(y)) => cmp_level(x.get(), y.get()),
        (SmallCell::Word(v), SmallCell::Word(w)) => cmp_words(v.as_slice(), w.as_slice()),
        _ => kind(c).cmp(&kind(d)),
    }
}

// Words letter by letter; of two of which one begins the other the shorter is less.
#[cycle(small)]
fn cmp_words(a: &[SmallCell], b: &[SmallCell]) -> Ordering
    ensures { result ≡ slice_cmp small_cmp a.now b.now }
{
    for i in 0..a.len().min(b.len()) {
        match cmp_small(&a[i], &b[i]) {
            Ordering::Equal => {}
            unequal => return unequal,
        }
    }
    a.len().cmp(&b.len())
}

impl Ord for SmallCell {
    ghost use Rattle.cells.specs.Small.{small_cmp};
    ghost use Rattle.cells.specs.Laws.{small_total, small_agrees, small_ties};

    ghost cmp = { small_cmp };

    ghost total = { small_total };

    ghost matches_partial_cmp = { small_agrees };

    ghost matches_eq = { small_ties };

    fn cmp(&self, other: &SmallCell) -> Ordering {
        cmp_small(self, other)
    }
}

impl PartialOrd for SmallCell {
    ghost use Rattle.cells.specs.Small.{small_cmp};
    ghost use Rattle.cells.specs.Laws.{small_po};
    ghost use Rattle.std.specs.Ordering.{as_partial_cmp};

    ghost partial_cmp = { as_partial_cmp small_cmp };

    ghost laws = { small_po };

    fn partial_cmp(&self, other: &SmallCell) -> Option<Ordering> {
        Some(self.cmp(other))
    }
}
