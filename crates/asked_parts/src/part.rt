// The reduction of a space, whose maps ask.
ghost use Rattle.std.specs.Prelude.{◌≡◌, ◌<◌, ◌^◌, refl};
ghost use Rattle.cells.specs.Dim.{dim_of};
ghost use Rattle.cells.proofs.OneKey.{one_cell};
ghost use Rattle.cells.proofs.OneSmall.{one_small};
ghost use Rattle.cells.specs.Small.{degree_of_small};
ghost use Rattle.term_lang.specs.SpaceOf.{space_of};
ghost use Rattle.space_faces.specs.Boundaries.{IsLowCell};
ghost use Rattle.space_faces.specs.Built.{IsAllowedBuilt};
ghost use Rattle.asked_parts.specs.PartMaps.{part_maps, part_lists, IsOwnBig, IsOwn};

use crate::asked::{asked_big, asked_small};
use crate::boundaries::cell_boundary;
use crate::stops::AskStop;
use cells::dim;
use chain_core::{Chain, Source};
use fp_field as field;
use fp_field::Prime;
use oracle_iface::{Asking, Forcer, Key, Op, Place};
use reduct_laws::Reduction;
use seqs::Arc;
use std::alloc::Global;
use term_lang::{Cell, SmallCell, Term, copy_cell, copy_small};

/// The reduction of the space of a term over a prime, each map of which is one question; the big differential is the boundary, and asks
/// nothing (Rubio and Sergeraert, Constructive Homological Algebra and Applications, on effective homology).
///
/// A cell may be asked where it stands for a cell of the space, which is allowed and built, of degree up to 32 and with integers of
/// magnitude at most 2^40. A small cell may be asked where it stands for one of the space.
#[derive(Drop)]
pub struct AskedPart {
    pub term: Arc<Term>,
    pub p: Prime,
}

impl<'a, F: Forcer> Reduction<Asking<'a, F>> for AskedPart {
    type Big = Cell;

    type Small = SmallCell;

    type Stop = AskStop;

    ghost prime_of = { λ r. r.p };

    ghost maps = { λ r. part_maps r.p r.term ⟦<Cell as Ord>⟧.cmp ⟦<SmallCell as Ord>⟧.cmp };

    ghost degree_of = { λ r x. dim_of x };

    ghost small_degree_of = { λ r y. degree_of_small y };

    ghost may_ask_degree = { λ r x. dim_of x < 2 ^ 32 };

    ghost may_ask_small_degree = { λ r y. IsOwn r.p r.term y × (degree_of_small y < 2 ^ 32) };

    ghost may_ask_big = { λ r x. (dim_of x < 2 ^ 32) × IsOwnBig r.p r.term x × IsAllowedBuilt (space_of r.term) × IsLowCell (space_of r.term) x };

    ghost may_ask_small = { λ r y. IsOwn r.p r.term y × (degree_of_small y < 2 ^ 32) };

    ghost lists = { λ r. part_lists r.p r.term };

    fn prime(&self) -> field::Prime {
        self.p
    }

    fn degree(&self, x: &Cell) -> u32 {
        dim(x)
    }

    fn small_degree(&self, y: &SmallCell) -> u32 {
        cells::small_degree(y)
    }

    fn big_d(
        &self,
        alloc: Global,
        source: &mut Asking<'a, F>,
        x: &Cell,
    ) -> Result<Chain<Cell>, AskStop> {
        let _ = source;
        Ok(cell_boundary(alloc, self.term.get(), self.p, x)?)
    }

    fn small_d(
        &self,
        alloc: Global,
        source: &mut Asking<'a, F>,
        y: &SmallCell,
    ) -> Result<Chain<SmallCell>, AskStop> {
        let key = Key {
            op: Op::SmallD,
            prime: self.p,
            place: Place::Small(copy_small(alloc, y)?),
            term: self.term.clone()?,
        };
        asked_small(alloc, source, key)
    }

    fn f(
        &self,
        alloc: Global,
        source: &mut Asking<'a, F>,
        x: &Cell,
    ) -> Result<Chain<SmallCell>, AskStop> {
        let key = Key {
            op: Op::F,
            prime: self.p,
            place: Place::Big(copy_cell(alloc, x)?),
            term: self.term.clone()?,
        };
        asked_small(alloc, source, key)
    }

    fn g(
        &self,
        alloc: Global,
        source: &mut Asking<'a, F>,
        y: &SmallCell,
    ) -> Result<Chain<Cell>, AskStop> {
        let key = Key {
            op: Op::G,
            prime: self.p,
            place: Place::Small(copy_small(alloc, y)?),
            term: self.term.clone()?,
        };
        asked_big(alloc, source, key)
    }

    fn h(
        &self,
        alloc: Global,
        source: &mut Asking<'a, F>,
        x: &Cell,
    ) -> Result<Chain<Cell>, AskStop> {
        let key = Key {
            op: Op::H,
            prime: self.p,
            place: Place::Big(copy_cell(alloc, x)?),
            term: self.term.clone()?,
        };
        asked_big(alloc, source, key)
    }

    ghost one_big = { one_cell };

    ghost one_small = { one_small };

    ghost same_big = { λ r x y. refl };

    ghost same_small = { λ r x y. refl };

    ghost graded_big = { λ r n x g. g.0 };

    ghost graded_small = { λ r n y g. g.0 };

    ghost degree_below = { λ r x h. h };

    ghost small_degree_below = { λ r y h. h.1 };

    ghost degree_asked = { λ r x h. h.0 };

    ghost small_degree_asked = { λ r y h. h };
}
