// The values of keys about K(Z,1), which need no other keys.
ghost use Rattle.std.specs.Prelude.{◌≡◌, ◌≤◌, IfOk};
ghost use Rattle.fp_field.specs.Field.{number};
ghost use Rattle.spaces.specs.Spaces.{kz1};
ghost use Rattle.term_lang.specs.SpaceOf.{space_of};
ghost use Rattle.values.specs.Values.{value};
ghost use Rattle.oracle_iface.specs.Keys.{question_of, quote_body, IsValidKey};
ghost use Rattle.oracle_iface.specs.declared.keys.Op.TheVariants.{Cycles};
ghost use Rattle.kz1_rules.specs.Lists.{integer_at};

use crate::homotopy::homotopy;
use crate::maps::{circle_cells, from_circle, to_circle};
use crate::places::{degree_at, list_at, small_at};
use chain_core::Chain;
use oracle_iface::{Body, Key, Op};
use std::alloc::{AllocError, Global};

/// The value of a key about K(Z,1), other than that of cycles, where no integer of its own list is
/// above 100,000 in magnitude: the vertex and the edge of the circle in degrees 0 and 1, no small
/// differential, F and G between lists and the circle, and the homotopy H (Eilenberg and Mac Lane, On
/// the groups H(Pi,n), I).
pub fn integers_value(alloc: Global, key: &Key) -> Result<Body, AllocError>
    requires valid { IsValidKey key.now }
    requires space { space_of key.now.term ≡ kz1 }
    requires op { key.now.op ≡ Cycles → ⊥ }
    requires integers { integer_at key.now.place ≤ 100000 }
    ensures { IfOk result (λ b. b ≡ quote_body key.now.prime (question_of key.now) (value (number key.now.prime) (question_of key.now))) }
{
    match key.op {
        Op::Basis => Ok(Body::Cells(circle_cells(alloc, degree_at(&key.place))?)),
        Op::SmallD => Ok(Body::Small(Chain::new(alloc, key.prime))),
        Op::F => Ok(Body::Small(to_circle(alloc, key.prime, list_at(&key.place))?)),
        Op::G => Ok(Body::Big(from_circle(alloc, key.prime, small_at(&key.place))?)),
        Op::H => Ok(Body::Big(homotopy(alloc, key.prime, list_at(&key.place))?)),
        Op::Cycles => unreachable!(),
    }
}
