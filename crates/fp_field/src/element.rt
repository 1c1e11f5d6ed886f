// Elements of F_p and the operations on them.
ghost use Rattle.std.specs.Prelude.{◌≡◌, ◌<◌};
ghost use Rattle.fp_field.specs.Field.{plus, times, minus, residue, number};

use crate::{Prime, value};

/// An element of F_p where its value is below p.
#[derive(Clone, Copy, Debug, PartialEq, Eq, PartialOrd, Ord)]
pub struct Fp {
    pub value: u8,
}

/// The residue of an integer: the element of F_p that it is equal to modulo p.
pub fn reduce(p: Prime, n: i64) -> Fp
    ensures { result.value ≡ residue (number p) n }
{
    let size = value(p) as u64;
    let magnitude = n.unsigned_abs() % size;
    let residue = if n < 0 {
        (size - 1) * magnitude % size
    } else {
        magnitude
    };
    Fp {
        value: residue as u8,
    }
}

/// The sum of two elements of F_p.
pub fn add(p: Prime, a: Fp, b: Fp) -> Fp
    requires a_in { a.value < number p }
    requires b_in { b.value < number p }
    ensures { result.value ≡ plus (number p) a.value b.value }
{
    Fp {
        value: (a.value + b.value) % value(p),
    }
}

/// The product of two elements of F_p.
pub fn mul(p: Prime, a: Fp, b: Fp) -> Fp
    requires a_in { a.value < number p }
    requires b_in { b.value < number p }
    ensures { result.value ≡ times (number p) a.value b.value }
{
    let product = a.value as u16 * b.value as u16 % value(p) as u16;
    Fp {
        value: product as u8,
    }
}

/// The negative of an element of F_p.
pub fn neg(p: Prime, a: Fp) -> Fp
    requires { a.value < number p }
    ensures { result.value ≡ minus (number p) a.value }
{
    Fp {
        value: (value(p) - a.value) % value(p),
    }
}

/// The inverse of an element of F_p that is not 0.
pub fn inv(p: Prime, a: Fp) -> Fp
    requires element { a.value < number p }
    requires nonzero { 0 < a.value }
    ensures element { result.value < number p }
    ensures inverse { times (number p) a.value result.value ≡ 1 }
{
    let mut b = 1;
    while mul(p, a, Fp { value: b }).value != 1 {
        b += 1;
    }
    Fp { value: b }
}
