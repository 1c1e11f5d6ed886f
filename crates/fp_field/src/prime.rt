// The eight primes.
ghost use Rattle.std.specs.Prelude.{◌≡◌, ◌↔◌, IsSome, IfSome, Contains};
ghost use Rattle.fp_field.specs.Field.{number, primes};

/// One of the eight primes 2, 3, 5, 7, 11, 13, 17 and 19.
#[derive(Clone, Copy, Debug, PartialEq, Eq, PartialOrd, Ord, Hash)]
pub enum Prime {
    Two,
    Three,
    Five,
    Seven,
    Eleven,
    Thirteen,
    Seventeen,
    Nineteen,
}

/// The prime with this value. None exactly where the number is none of the eight primes.
pub fn prime_of(n: u64) -> Option<Prime>
    ensures some { IsSome result ↔ Contains primes n }
    ensures value { IfSome result (λ p. number p ≡ n) }
{
    match n {
        2 => Some(Prime::Two),
        3 => Some(Prime::Three),
        5 => Some(Prime::Five),
        7 => Some(Prime::Seven),
        11 => Some(Prime::Eleven),
        13 => Some(Prime::Thirteen),
        17 => Some(Prime::Seventeen),
        19 => Some(Prime::Nineteen),
        _ => None,
    }
}

/// The prime as a number.
pub fn value(p: Prime) -> u8
    ensures { result ≡ number p }
{
    match p {
        Prime::Two => 2,
        Prime::Three => 3,
        Prime::Five => 5,
        Prime::Seven => 7,
        Prime::Eleven => 11,
        Prime::Thirteen => 13,
        Prime::Seventeen => 17,
        Prime::Nineteen => 19,
    }
}
