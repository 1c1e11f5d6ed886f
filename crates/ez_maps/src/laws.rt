// The maps on pairs meet the equations of a reduction. The law has an empty body, and its clause quotes the maps themselves.
ghost use Rattle.std.specs.Prelude.{ℕ, suc, ◌≤◌};
ghost use Rattle.fp_field.specs.Field.{number};
ghost use Rattle.fp_field.specs.Reduction.{IsReductionTo};

use crate::pairs::Pairs;
use chain_core::Source;
use ez_flow::FlowFaces;
use reduct_laws::Reduction;

/// Alexander-Whitney, Eilenberg-Mac Lane and the flow are a reduction of the complex of pairs to the
/// tensor complex as far as each degree below the bound of the faces (Eilenberg and Mac Lane 1953; Romero
/// and Sergeraert, Discrete Vector Fields).
pub fn pairs_meet<S: Source, X: FlowFaces>(whole: &Pairs<X>)
    ensures { (N : ℕ) → suc N ≤ X.bound whole.now.faces → IsReductionTo (number whole.now.p) N (⟦<Pairs<X> as Reduction<S>>⟧.maps whole.now) }
{}
