// The maps of the first perturbation as linear maps, which ask nothing.
ghost use Rattle.std.specs.Prelude.{◌≡◌, [], IfOk, Some};
ghost use Rattle.std.specs.Option.{option_copied};
ghost use Rattle.fp_field.specs.Field.{number};
ghost use Rattle.fp_field.specs.Normal.{normal};
ghost use Rattle.cells.specs.Order.{cell_cmp};
ghost use Rattle.cells.proofs.OneKey.{one_cell};
ghost use Rattle.ez_maps.specs.TensorOrder.{one_tensor};
ghost use Rattle.term_lang.specs.SpaceOf.{space_of};
ghost use Rattle.twist_chains.specs.Fibred.{AreTwistValues, flow_on, front_on, shuffle_on, turn_on, MayFlow, MayFront, MayShuffle, MayTurn};

use crate::twists::bundle_twist;
use cells::{Cell, IntList};
use chain_core::{Chain, LinearMap};
use ez_flow::flow;
use ez_maps::{Tensor, aw, eml};
use fp_field::Prime;
use space_pairs::SpacePair;
use std::alloc::{AllocError, Global};
use term_lang::Term;

/// The flow on the pairs of two spaces.
#[derive(Drop)]
pub struct FlowMap<'a> {
    pub pair: &'a SpacePair<'a>,
    pub p: Prime,
}

impl<'a> LinearMap<(), Cell, Cell> for FlowMap<'a> {
    type Stop = AllocError;

    ghost prime = { λ m. m.p };

    ghost may_be_asked = { λ m c. MayFlow (space_of m.pair.now.left.term.now) (space_of m.pair.now.right.term.now) m.pair.now.most c };

    ghost image_of = { λ m c. flow_on (space_of m.pair.now.left.term.now) (space_of m.pair.now.right.term.now) (number m.p) c };

    ghost asks = { λ m c. [] };

    fn image(&self, alloc: Global, source: &mut (), c: &Cell) -> Result<Chain<Cell>, AllocError> {
        let _ = source;
        Ok(flow(alloc, self.pair, self.p, c)?)
    }

    ghost one_key = { one_cell };
}

/// Alexander-Whitney on the pairs of two spaces.
#[derive(Drop)]
pub struct FrontMap<'a> {
    pub pair: &'a SpacePair<'a>,
    pub p: Prime,
}

impl<'a> LinearMap<(), Cell, Tensor<Cell, Cell>> for FrontMap<'a> {
    type Stop = AllocError;

    ghost prime = { λ m. m.p };

    ghost may_be_asked = { λ m c. MayFront (space_of m.pair.now.left.term.now) (space_of m.pair.now.right.term.now) m.pair.now.most c };

    ghost image_of = { λ m c. front_on (space_of m.pair.now.left.term.now) (space_of m.pair.now.right.term.now) (number m.p) c };

    ghost asks = { λ m c. [] };

    fn image(
        &self,
        alloc: Global,
        source: &mut (),
        c: &Cell,
    ) -> Result<Chain<Tensor<Cell, Cell>>, AllocError> {
        let _ = source;
        Ok(aw(alloc, self.pair, self.p, c)?)
    }

    ghost one_key = { one_tensor };
}

/// Eilenberg-Mac Lane on the tensors of the cells of two spaces.
#[derive(Drop)]
pub struct ShuffleMap<'a> {
    pub pair: &'a SpacePair<'a>,
    pub p: Prime,
}

impl<'a> LinearMap<(), Tensor<Cell, Cell>, Cell> for ShuffleMap<'a> {
    type Stop = AllocError;

    ghost prime = { λ m. m.p };

    ghost may_be_asked = { λ m t. MayShuffle (space_of m.pair.now.left.term.now) (space_of m.pair.now.right.term.now) m.pair.now.most t };

    ghost image_of = { λ m t. shuffle_on (space_of m.pair.now.left.term.now) (space_of m.pair.now.right.term.now) (number m.p) t };

    ghost asks = { λ m t. [] };

    fn image(
        &self,
        alloc: Global,
        source: &mut (),
        t: &Tensor<Cell, Cell>,
    ) -> Result<Chain<Cell>, AllocError> {
        let _ = source;
        Ok(eml(alloc, self.pair, self.p, t)?)
    }

    ghost one_key = { one_cell };
}

/// The twist of a product, which is 0, or of a circle bundle.
#[derive(Drop)]
pub struct TwistMap<'a> {
    pub pair: &'a SpacePair<'a>,
    pub values: Option<&'a IntList>,
    pub p: Prime,
}

impl<'a> LinearMap<(), Cell, Cell> for TwistMap<'a> {
    type Stop = AllocError;

    ghost prime = { λ m. m.p };

    ghost may_be_asked = { λ m c. MayTurn (space_of m.pair.now.left.term.now) (space_of m.pair.now.right.term.now) (option_copied m.values) m.pair.now.most c };

    ghost image_of = { λ m c. turn_on (space_of m.pair.now.left.term.now) (space_of m.pair.now.right.term.now) (option_copied m.values) (number m.p) c };

    ghost asks = { λ m c. [] };

    fn image(&self, alloc: Global, source: &mut (), c: &Cell) -> Result<Chain<Cell>, AllocError> {
        let _ = source;
        match self.values {
            None => Ok(Chain::new(alloc, self.p)),
            Some(values) => {
                let twist = twist_with(alloc, self.pair, values, self.p, c)?;
                Ok(twist)
            }
        }
    }

    ghost one_key = { one_cell };
}

/// The twist of the bundle of these values, on the table that the left space is.
fn twist_with(
    alloc: Global,
    pair: &SpacePair,
    values: &IntList,
    p: Prime,
    c: &Cell,
) -> Result<Chain<Cell>, AllocError>
    requires values { AreTwistValues (Some values.now) (space_of pair.now.left.term.now) (space_of pair.now.right.term.now) }
    requires pair { MayFront (space_of pair.now.left.term.now) (space_of pair.now.right.term.now) pair.now.most c.now }
    ensures prime { IfOk result (λ r. r.prime ≡ p) }
    ensures terms { IfOk result (λ r. r.terms ≡ normal cell_cmp (number p) (turn_on (space_of pair.now.left.term.now) (space_of pair.now.right.term.now) (Some values.now) (number p) c.now)) }
{
    match pair.left.term {
        Term::Table(base) => match pair.right.term {
            Term::KZ1 => bundle_twist(alloc, base, values, p, c),
            _ => unreachable!(),
        },
        _ => unreachable!(),
    }
}
