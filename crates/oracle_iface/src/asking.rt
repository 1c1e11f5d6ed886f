// A forcer as the source that the maps of a reduction draw on.
ghost use Rattle.std.specs.Prelude.{refl};
ghost use Rattle.oracle_iface.specs.Stands.{refusal_of};
ghost use Rattle.oracle_iface.specs.Forcing.{Asked, asked-both};

use crate::bodies::Over;
use crate::forcer::Forcer;
use crate::keys::Key;
use chain_core::Source;

/// A forcer that is lent to the maps of a reduction. Its asks are keys, and the refusal that a key
/// meets is that of its outcome.
pub struct Asking<'a, F> {
    pub forcer: &'a mut F,
}

impl<'a, F: Forcer> Source for Asking<'a, F> {
    type Ask = Key;

    type Refusal = Over;

    ghost can_ask = { λ s k. F.may_force s.forcer.now k };

    ghost refusal = { refusal_of };

    ghost runs = { λ s ks t. Asked F.forces s.forcer.now ks t.forcer.now };

    ghost runs_none = { λ s. refl };

    ghost runs_both = { λ s t u a b h g. asked-both F.forces s.forcer.now t.forcer.now u.forcer.now a b h g };
}
