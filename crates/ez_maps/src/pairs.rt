// The maps on pairs as a reduction.
ghost use Rattle.std.specs.Prelude.{◌≡◌, ℕ, suc, ◌+◌, ◌≤◌, refl};
ghost use Rattle.fp_field.specs.Field.{number};
ghost use Rattle.spaces.specs.Orders.{ordered};
ghost use Rattle.cells.specs.Dim.{dim_of};
ghost use Rattle.cells.proofs.OneKey.{one_cell};
ghost use Rattle.ez_flow.specs.Parts.{left_of, left_in, IsPairOf};
ghost use Rattle.ez_flow.specs.CodeMaps.{pair_degree};
ghost use Rattle.ez_maps.specs.Tensors.{IsTensorOf};
ghost use Rattle.ez_maps.specs.TensorOrder.{one_tensor};
ghost use Rattle.ez_maps.specs.PairMaps.{pair_maps, no_lists};
ghost use Rattle.ez_maps.specs.PairDegrees.{pair_graded, pair_low, low_degree, less_one};

use crate::fronts::aw;
use crate::pair_faces::pair_boundary;
use crate::shuffles::eml;
use crate::tensor_faces::tensor_boundary;
use cells::{Cell, dim};
use chain_core::{Chain, Source};
use ez_flow::{FlowFaces, flow, parts};
use fp_field as field;
use fp_field::Prime;
use reduct_laws::Reduction;
use std::alloc::{AllocError, Global};
use tensor_red::Tensor;

/// The reduction of the complex of pairs of left and right simplices to the tensor complex, by
/// Alexander-Whitney, Eilenberg-Mac Lane and the flow of the vector field (Eilenberg and Mac Lane 1953;
/// Romero and Sergeraert, Discrete Vector Fields). It asks nothing of its source.
///
/// A pair, or a tensor of two cells, may be asked where its degree is below the bound of the faces.
#[derive(Drop)]
pub struct Pairs<X> {
    pub faces: X,
    pub p: Prime,
}

impl<S: Source, X: FlowFaces> Reduction<S> for Pairs<X> {
    type Big = Cell;

    type Small = Tensor<Cell, Cell>;

    type Stop = AllocError;

    ghost prime_of = { λ r. r.p };

    ghost maps = { λ r. pair_maps (number r.p) (X.bound r.faces) (left_of (X.has_letters r.faces) (number r.p) (X.left_space r.faces)) (left_in (X.has_letters r.faces) (X.left_space r.faces)) (ordered (X.right_space r.faces)) (X.is_left r.faces) (X.left_form r.faces) (X.left_simplex r.faces) (X.is_right r.faces) (X.right_form r.faces) (X.right_simplex r.faces) (X.left_degree_of r.faces) };

    ghost degree_of = { λ r c. pair_degree (X.left_degree_of r.faces) c };

    ghost small_degree_of = { λ r t. X.left_degree_of r.faces t.left + dim_of t.right };

    ghost may_ask_degree = { λ r c. (n : ℕ) × IsPairOf (X.is_left r.faces) (X.is_right r.faces) n c × (n ≤ X.bound r.faces) };

    ghost may_ask_small_degree = { λ r t. (n : ℕ) × IsTensorOf (X.is_left r.faces) (X.is_right r.faces) (X.left_degree_of r.faces) n t × (n ≤ X.bound r.faces) };

    ghost may_ask_big = { λ r c. (n : ℕ) × IsPairOf (X.is_left r.faces) (X.is_right r.faces) n c × (suc n ≤ X.bound r.faces) };

    ghost may_ask_small = { λ r t. (n : ℕ) × IsTensorOf (X.is_left r.faces) (X.is_right r.faces) (X.left_degree_of r.faces) n t × (suc n ≤ X.bound r.faces) };

    ghost lists = { λ r. no_lists };

    fn prime(&self) -> field::Prime {
        self.p
    }

    fn degree(&self, x: &Cell) -> u32 {
        let (a, _) = parts(x);
        a.degens.mask.count_ones() + self.faces.left_degree(&a.cell)
    }

    fn small_degree(&self, y: &Tensor<Cell, Cell>) -> u32 {
        self.faces.left_degree(&y.left) + dim(&y.right)
    }

    fn big_d(&self, alloc: Global, source: &mut S, x: &Cell) -> Result<Chain<Cell>, AllocError> {
        let _ = source;
        Ok(pair_boundary(alloc, &self.faces, self.p, x)?)
    }

    fn small_d(
        &self,
        alloc: Global,
        source: &mut S,
        y: &Tensor<Cell, Cell>,
    ) -> Result<Chain<Tensor<Cell, Cell>>, AllocError> {
        let _ = source;
        Ok(tensor_boundary(alloc, &self.faces, self.p, y)?)
    }

    fn f(
        &self,
        alloc: Global,
        source: &mut S,
        x: &Cell,
    ) -> Result<Chain<Tensor<Cell, Cell>>, AllocError> {
        let _ = source;
        Ok(aw(alloc, &self.faces, self.p, x)?)
    }

    fn g(
        &self,
        alloc: Global,
        source: &mut S,
        y: &Tensor<Cell, Cell>,
    ) -> Result<Chain<Cell>, AllocError> {
        let _ = source;
        Ok(eml(alloc, &self.faces, self.p, y)?)
    }

    fn h(&self, alloc: Global, source: &mut S, x: &Cell) -> Result<Chain<Cell>, AllocError> {
        let _ = source;
        Ok(flow(alloc, &self.faces, self.p, x)?)
    }

    ghost one_big = { one_cell };

    ghost one_small = { one_tensor };

    ghost same_big = { λ r x y. refl };

    ghost same_small = { λ r x y. refl };

    ghost graded_big = { λ r n x g. pair_graded (X.is_left r.faces) (X.is_right r.faces) (X.left_degree_of r.faces) (X.graded r.faces) n x g.0 };

    ghost graded_small = { λ r n y g. g.0.2 };

    ghost degree_below = { λ r x h. pair_low (X.is_left r.faces) (X.is_right r.faces) (X.left_degree_of r.faces) (X.graded r.faces) (X.bound r.faces) (X.short r.faces) h.0 x h.1 h.2 };

    ghost small_degree_below = { λ r y h. low_degree (X.bound r.faces) h.0 (X.left_degree_of r.faces y.left + dim_of y.right) (X.short r.faces) h.1.2 h.2 };

    ghost degree_asked = { λ r x h. (h.0, h.1, less_one h.0 (X.bound r.faces) h.2) };

    ghost small_degree_asked = { λ r y h. (h.0, h.1, less_one h.0 (X.bound r.faces) h.2) };
}
