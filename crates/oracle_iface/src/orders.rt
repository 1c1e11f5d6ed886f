// What the order of keys has to do with their contents. The function does nothing; its clause is the law.
ghost use Rattle.oracle_iface.specs.KeyOrder.{key_cmp};
ghost use Rattle.std.specs.Prelude.{◌≡◌};
ghost use Rattle.std.specs.declared.cmp.Ordering.TheVariants.{Equal};

use crate::keys::Key;

/// Keys that compare as equal are the same.
pub fn one_key(k: &Key)
    ensures { (other : Key) → key_cmp k.now other ≡ Equal → k.now ≡ other }
{}
