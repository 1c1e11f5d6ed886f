// What holds of every allowed space.
ghost use Rattle.spaces.specs.Allowed.{IsAllowed};
ghost use Rattle.spaces.specs.Simplicial.{IsSimplicial};
ghost use Rattle.spaces.specs.Spaces.{Space, set_of};

/// The simplicial set of each allowed space satisfies the simplicial identities (May, Simplicial
/// Objects, chapter I, 1).
pub fn space_laws()
    ensures { (a : Space) → IsAllowed a → IsSimplicial (set_of a) }
{}
