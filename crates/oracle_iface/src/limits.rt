// The limits on values.
ghost use Rattle.std.specs.Prelude.{◌≡◌, IfOk};
ghost use Rattle.values.specs.Sizes.{Size as SizeOf};
ghost use Rattle.oracle_iface.specs.CodeSizes.{body_size};
ghost use Rattle.oracle_iface.specs.Limits.{kind_past, limited_body, LimitsAgree};

use crate::bodies::{Body, Kind, Outcome, Over};
use crate::keys::{Key, copy_key};
use crate::sizes::{Size, size_of};
use std::alloc::{AllocError, Global};

/// The greatest number of letters of one word in a value.
pub const LETTERS: u64 = 64;

/// The greatest magnitude of an integer in a value.
pub const INTEGER: u64 = 100_000;

/// The greatest number of terms of a chain, or of cells of a basis.
pub const TERMS: u64 = 50_000;

/// The first kind whose limit a size is past, in the order letters, integer, terms, with the size in
/// this kind. None exactly where it is past none.
pub fn past(size: &Size) -> Option<(Kind, u64)>
    ensures { result ≡ kind_past (record { letters = size.now.letters; integer = size.now.integer; terms = size.now.terms }) }
{
    if size.letters > LETTERS {
        return Some((Kind::Letters, size.letters));
    }
    if size.integer > INTEGER {
        return Some((Kind::Integer, size.integer));
    }
    if size.terms > TERMS {
        return Some((Kind::Terms, size.terms));
    }
    None
}

/// The outcome of a key whose value is this one: the value, unless it is past a limit.
pub fn limited(alloc: Global, key: &Key, body: Body) -> Result<Outcome, AllocError>
    ensures { IfOk result (λ o. o ≡ limited_body key.now body) }
{
    match past(&size_of(&body)) {
        Some((kind, size)) => Ok(Outcome::Over(Over {
            key: copy_key(alloc, key)?,
            kind,
            size,
        })),
        None => Ok(Outcome::Value(body)),
    }
}

/// The limits on the values of the code are those of the definitions: for the key of a question and the
/// code's value of an answer, what `limited` gives is the limited outcome of that answer.
pub fn limits_agree()
    ensures { LimitsAgree }
{}
