// The laws of the field F_p.
ghost use Rattle.fp_field.specs.Field.{IsField, number};

use crate::Prime;

/// The numbers below p are a field, with sum and product modulo p.
pub fn field_laws(p: Prime)
    ensures { IsField (number p) }
{
    let _ = p;
}
