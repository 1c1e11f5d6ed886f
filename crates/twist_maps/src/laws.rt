// Laws of the definitions. Each function does nothing; its clauses are the law.
ghost use Rattle.std.specs.Prelude.{◌≡◌, ℕ, ℤ, List, length, pos, None};
ghost use Rattle.spaces.specs.Allowed.{IsCocycle};
ghost use Rattle.spaces.specs.Nerves.{integers};
ghost use Rattle.spaces.specs.Tables.{Table, entry, row_at};
ghost use Rattle.twist_maps.specs.Values.{first_open};

/// Values on the rows of a table, 0 on the rows that are not of dimension 2, are a cocycle where no row of
/// dimension 3 is found open, and only there.
pub fn closed_laws()
    ensures closed { (t : Table) (c : List ℤ) → length c ≡ length t → ((r : ℕ) → ((row_at t r).dim ≡ 2 → ⊥) → entry (pos 0) c r ≡ pos 0)
        → first_open t c ≡ None → IsCocycle integers t c }
    ensures none_open { (t : Table) (c : List ℤ) → IsCocycle integers t c → first_open t c ≡ None }
{}
