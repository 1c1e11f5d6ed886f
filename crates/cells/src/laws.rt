// What holds of the orders beside the laws of `Ord`.
ghost use Rattle.std.specs.declared.cmp.Ordering.TheVariants.{Equal};
ghost use Rattle.std.specs.Ordering.{ordering_then, nat_cmp, bool_cmp};
ghost use Rattle.std.specs.Prelude.{◌≡◌};
ghost use Rattle.cells.specs.Order.{cell_cmp, simplex_cmp, letter_cmp, kinds_cmp, within_cmp};
ghost use Rattle.cells.specs.Small.{small_cmp, small_kinds_cmp, small_within_cmp};

use crate::cells::{Cell, Letter, Simplex, SmallCell};

/// Cells, simplices, letters and small cells that compare as equal are the same.
pub fn one_key(c: &Cell, x: &Simplex, l: &Letter, s: &SmallCell)
    ensures cell { (d : Cell) → cell_cmp c.now d ≡ Equal → c.now ≡ d }
    ensures simplex { (y : Simplex) → simplex_cmp x.now y ≡ Equal → x.now ≡ y }
    ensures letter { (m : Letter) → letter_cmp l.now m ≡ Equal → l.now ≡ m }
    ensures small { (t : SmallCell) → small_cmp s.now t ≡ Equal → s.now ≡ t }
{}

/// Cells and small cells are compared by degree, then by kind, then within the kind; simplices by
/// mask and then by cell; letters with a letter before an inverse and then by simplex.
pub fn order_in_words(c: &Cell, x: &Simplex, l: &Letter, s: &SmallCell)
    ensures cell { (d : Cell) → cell_cmp c.now d ≡ ordering_then (kinds_cmp c.now d) (within_cmp c.now d) }
    ensures simplex { (y : Simplex) → simplex_cmp x.now y
        ≡ ordering_then (nat_cmp x.now.degens.mask y.degens.mask) (cell_cmp x.now.cell y.cell) }
    ensures letter { (m : Letter) → letter_cmp l.now m
        ≡ ordering_then (bool_cmp l.now.inverse m.inverse) (simplex_cmp l.now.simplex m.simplex) }
    ensures small { (t : SmallCell) → small_cmp s.now t
        ≡ ordering_then (small_kinds_cmp s.now t) (small_within_cmp s.now t) }
{}
