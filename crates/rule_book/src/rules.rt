// The rules of the spaces that sessions answer for.
ghost use Rattle.std.specs.Prelude.{◌≡◌, IfOk};
ghost use Rattle.oracle_iface.specs.Stands.{IsOutcome};
ghost use Rattle.oracle_iface.specs.Forcing.{MayForceNeeds, AsksNeeds};
ghost use Rattle.oracle_iface.specs.declared.keys.Op.TheVariants.{Cycles as CyclesOp};
ghost use Rattle.susp_rules.specs.Treated.{IsTreated};
ghost use Rattle.rule_book.specs.Lower.{treated-valid, needs-lower, needs-back};

use crate::outcomes::{direct_outcome, within_limits};
use oracle_iface::{Forcer, Key, Op, Outcome, RuleSet};
use std::alloc::{AllocError, Global};
use term_lang::Term;

/// The rules: what each valid key comes to that is about a table, a sphere, K(Z,1), a circle bundle, or
/// what products and suspensions make of these. The cycles of a degree are found by asking for small cells,
/// their small differentials, and G. Every other key about a product or a bundle is answered by asking for
/// keys of its base and its fibre; one about a suspension by asking for one key of what is suspended, or
/// none; one about a table, a sphere or K(Z,1) is answered at once (Rubio and Sergeraert, Constructive
/// Homological Algebra and Applications, on effective homology, on suspensions and chapter 3; Shih 1962;
/// Eilenberg and Mac Lane, On the groups H(Pi,n), I).
#[derive(Clone, Copy, Debug)]
pub struct Rules;

impl RuleSet for Rules {
    ghost treats = { λ s k. IsTreated k };

    ghost valid = { λ s k is. treated-valid k is };

    ghost lower = { λ s k q is needed. needs-lower k q is needed };

    ghost back = { λ s k q is needed. needs-back k q is needed };

    fn rule<F: Forcer>(
        &self,
        alloc: Global,
        key: &Key,
        forcer: &mut F,
    ) -> Result<Outcome, AllocError> {
        match key.op {
            Op::Cycles => cycles_outcome(alloc, key, forcer),
            _ => single_outcome(alloc, key, forcer),
        }
    }
}

/// The outcome of a key of cycles.
fn cycles_outcome<F: Forcer>(
    alloc: Global,
    key: &Key,
    forcer: &mut F,
) -> Result<Outcome, AllocError>
    requires key { IsTreated key.now }
    requires op { key.now.op ≡ CyclesOp }
    requires forcer { MayForceNeeds F.may_force F.forces key.now forcer.old }
    ensures outcome { IfOk result (λ o. IsOutcome key.now o) }
    ensures asked { AsksNeeds F.forces key.now forcer.old forcer.new result }
{
    let found = homology_rules::rule(alloc, key, forcer)?;
    within_limits(alloc, key, found)
}

/// The outcome of any other key, by the rule of its space.
fn single_outcome<F: Forcer>(
    alloc: Global,
    key: &Key,
    forcer: &mut F,
) -> Result<Outcome, AllocError>
    requires key { IsTreated key.now }
    requires op { key.now.op ≡ CyclesOp → ⊥ }
    requires forcer { MayForceNeeds F.may_force F.forces key.now forcer.old }
    ensures outcome { IfOk result (λ o. IsOutcome key.now o) }
    ensures asked { AsksNeeds F.forces key.now forcer.old forcer.new result }
{
    match key.term.get() {
        Term::Table(_) => direct_outcome(alloc, key),
        Term::Sphere(_) => direct_outcome(alloc, key),
        Term::KZ1 => kz1_rules::rule(alloc, key, forcer),
        Term::Suspension(_) => susp_rules::rule(alloc, key, forcer),
        Term::Product(_, _) => twist_rules::rule(alloc, key, forcer),
        Term::Bundle(_, _) => twist_rules::rule(alloc, key, forcer),
        _ => unreachable!(),
    }
}
