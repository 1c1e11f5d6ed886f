// The values of questions about K(Z,1), in the words of the code.
ghost use Rattle.fp_field.specs.Field.{number};
ghost use Rattle.spaces.specs.Spaces.{kz1};
ghost use Rattle.oracle_iface.specs.KeyLaws.{HasCells};
ghost use Rattle.homology_rules.specs.Shown.{HasShownValues};

use fp_field::Prime;

/// The values of valid questions about K(Z,1) have only cells that the code has, where the cells of the
/// code are those of K(Z,1) in the degrees that masks of the code reach. It does nothing; its clause is
/// the law.
pub fn shown_laws(p: Prime)
    ensures { HasCells kz1 → HasShownValues (number p) kz1 }
{
    let _ = p;
}
