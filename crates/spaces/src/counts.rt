// The number of vertices of each space, and its lowest edge.
ghost use Rattle.spaces.specs.Allowed.{Admits, HasOneVertex, HasNoEdge};
ghost use Rattle.spaces.specs.Counts.{vertex_count, low_of, HasVertices, IsLow};
ghost use Rattle.spaces.specs.Spaces.{Space, set_of};
ghost use Rattle.std.specs.Prelude.{◌≡◌, ◌↔◌, Some};

/// An allowed space has as many vertices as its count says, and its low is the lowest positive
/// degree with a simplex that is not degenerate. So it has exactly one vertex where the count is 1,
/// and no edge but degenerate ones where the low is not 1, and only there.
pub fn count_laws()
    ensures vertices { (a : Space) → Admits a → HasVertices (set_of a) (vertex_count a) }
    ensures low { (a : Space) → Admits a → IsLow (set_of a) (low_of a) }
    ensures one_vertex { (a : Space) → Admits a → HasOneVertex (set_of a) ↔ (vertex_count a ≡ 1) }
    ensures no_edge { (a : Space) → Admits a → HasNoEdge (set_of a) ↔ (low_of a ≡ Some 1 → ⊥) }
{}
