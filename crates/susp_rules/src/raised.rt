// The value of a key from that of the key of the part.
ghost use Rattle.std.specs.Prelude.{◌≡◌, IfOk};
ghost use Rattle.susp_rules.specs.Bodies.{raised_body, IsBodyOf};

use crate::ups::{minus_up_big, minus_up_small, up_big, up_list, up_small};
use fp_field::Prime;
use oracle_iface::{Body, Op};
use std::alloc::{AllocError, Global};

/// A value of the part under Up, with the sign -1 at the small differential and at H.
pub(crate) fn raised(alloc: Global, p: Prime, op: Op, body: &Body) -> Result<Body, AllocError>
    requires { IsBodyOf p op body.now }
    ensures { IfOk result (λ b. b ≡ raised_body p op body.now) }
{
    match (op, body) {
        (Op::Basis, Body::Cells(cells)) => Ok(Body::Cells(up_list(alloc, cells.as_slice())?)),
        (Op::SmallD, Body::Small(chain)) => Ok(Body::Small(minus_up_small(alloc, chain)?)),
        (Op::F, Body::Small(chain)) => Ok(Body::Small(up_small(alloc, chain)?)),
        (Op::G, Body::Big(chain)) => Ok(Body::Big(up_big(alloc, chain)?)),
        (Op::H, Body::Big(chain)) => Ok(Body::Big(minus_up_big(alloc, chain)?)),
        _ => unreachable!(),
    }
}
