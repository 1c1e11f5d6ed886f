// A reduction with its degrees shifted by one.
ghost use Rattle.std.specs.Prelude.{◌≡◌, ◌<◌, ◌^◌};
ghost use Rattle.fp_field.specs.Field.{number};
ghost use Rattle.reduct_laws.specs.Shifts.{is_last, shifted, shifted_degree, shifted_lists, HasShift};
ghost use Rattle.reduct_laws.specs.ShiftGrades.{shift_graded};

use crate::chains::negated;
use crate::reduction::Reduction;
use chain_core::{Chain, Source};
use fp_field as field;
use std::alloc::Global;

/// A reduction whose degrees are shifted by one, up or down: f, g and -h, with the differentials -d.
///
/// A shift down has the generators of degree at least 1, and its differentials are 0 on those that had degree 1.
#[derive(Drop)]
pub struct Shifted<A> {
    pub of: A,
    pub up: bool,
}

impl<S: Source, A: Reduction<S>> Reduction<S> for Shifted<A>
where
    A::Big: Drop,
    A::Small: Drop,
{
    type Big = A::Big;

    type Small = A::Small;

    type Stop = A::Stop;

    ghost prime_of = { λ s. A.prime_of s.of };

    ghost maps = { λ s. shifted (number (A.prime_of s.of)) s.up (A.degree_of s.of) (A.small_degree_of s.of) (A.maps s.of) };

    ghost degree_of = { λ s x. shifted_degree s.up (A.degree_of s.of x) };

    ghost small_degree_of = { λ s y. shifted_degree s.up (A.small_degree_of s.of y) };

    ghost may_ask_degree = { λ s x. A.may_ask_degree s.of x × HasShift s.up (A.degree_of s.of x) × (shifted_degree s.up (A.degree_of s.of x) < 2 ^ 32) };

    ghost may_ask_small_degree = { λ s y. A.may_ask_small_degree s.of y × HasShift s.up (A.small_degree_of s.of y) × (shifted_degree s.up (A.small_degree_of s.of y) < 2 ^ 32) };

    ghost may_ask_big = { λ s x. A.may_ask_big s.of x × HasShift s.up (A.degree_of s.of x) × (shifted_degree s.up (A.degree_of s.of x) < 2 ^ 32) };

    ghost may_ask_small = { λ s y. A.may_ask_small s.of y × HasShift s.up (A.small_degree_of s.of y) × (shifted_degree s.up (A.small_degree_of s.of y) < 2 ^ 32) };

    ghost lists = { λ s. shifted_lists s.up (A.degree_of s.of) (A.small_degree_of s.of) (A.lists s.of) };

    fn prime(&self) -> field::Prime {
        self.of.prime()
    }

    fn degree(&self, x: &A::Big) -> u32 {
        shift(self.up, self.of.degree(x))
    }

    fn small_degree(&self, y: &A::Small) -> u32 {
        shift(self.up, self.of.small_degree(y))
    }

    fn big_d(&self, alloc: Global, source: &mut S, x: &A::Big) -> Result<Chain<A::Big>, A::Stop> {
        if ends(self.up, self.of.degree(x)) {
            return Ok(Chain::new(alloc, self.of.prime()));
        }
        Ok(negated(self.of.big_d(alloc, source, x)?))
    }

    fn small_d(
        &self,
        alloc: Global,
        source: &mut S,
        y: &A::Small,
    ) -> Result<Chain<A::Small>, A::Stop> {
        if ends(self.up, self.of.small_degree(y)) {
            return Ok(Chain::new(alloc, self.of.prime()));
        }
        Ok(negated(self.of.small_d(alloc, source, y)?))
    }

    fn f(&self, alloc: Global, source: &mut S, x: &A::Big) -> Result<Chain<A::Small>, A::Stop> {
        self.of.f(alloc, source, x)
    }

    fn g(&self, alloc: Global, source: &mut S, y: &A::Small) -> Result<Chain<A::Big>, A::Stop> {
        self.of.g(alloc, source, y)
    }

    fn h(&self, alloc: Global, source: &mut S, x: &A::Big) -> Result<Chain<A::Big>, A::Stop> {
        Ok(negated(self.of.h(alloc, source, x)?))
    }

    ghost one_big = { A.one_big };

    ghost one_small = { A.one_small };

    ghost same_big = { λ s x y. A.same_big s.of x y };

    ghost same_small = { λ s x y. A.same_small s.of x y };

    ghost graded_big = { λ s n x g. shift_graded s.up (A.maps s.of).big.generator (A.degree_of s.of) (A.graded_big s.of) n x g };

    ghost graded_small = { λ s n y g. shift_graded s.up (A.maps s.of).small.generator (A.small_degree_of s.of) (A.graded_small s.of) n y g };

    ghost degree_below = { λ s x h. h.2 };

    ghost small_degree_below = { λ s y h. h.2 };

    ghost degree_asked = { λ s x h. (A.degree_asked s.of x h.0, h.1, h.2) };

    ghost small_degree_asked = { λ s y h. (A.small_degree_asked s.of y h.0, h.1, h.2) };
}

/// The degree after the shift.
fn shift(up: bool, degree: u32) -> u32
    requires has { HasShift up degree }
    requires below { shifted_degree up degree < 2 ^ 32 }
    ensures { result ≡ shifted_degree up degree }
{
    if up { degree + 1 } else { degree - 1 }
}

/// Whether a generator of this degree has degree 0 after a shift down.
fn ends(up: bool, degree: u32) -> bool
    ensures { result ≡ is_last up degree }
{
    !up && degree == 1
}
