// What the definitions say of calls one after the other. Each function does nothing; its clauses are the law.
ghost use Rattle.force_engine.specs.Fronts.{Told};
ghost use Rattle.force_engine.specs.Settled.{IsSettled};
ghost use Rattle.force_engine.specs.Ways.{IsSettledAt, Went};
ghost use Rattle.oracle_iface.specs.Histories.{entry};
ghost use Rattle.oracle_iface.specs.declared.entries.Act.TheVariants.{Claims, Releases};
ghost use Rattle.oracle_iface.specs.declared.keys.Key.{Key};
ghost use Rattle.std.specs.Prelude.{ℕ, [], ◌++◌};

use oracle_iface::Key;

/// What a call of the engine does is done by no call too, and by calls one after the other; what is settled stays so on longer ways.
pub fn way_laws()
    ensures none { (seat : ℕ) (shard : Key → ℕ) (h : Told) → Went seat shard h h }
    ensures both { (seat : ℕ) (shard : Key → ℕ) (h m n : Told) → Went seat shard h m → Went seat shard m n → Went seat shard h n }
    ensures earlier { (seat : ℕ) (shard : Key → ℕ) (key : Key) (h m n : Told) → Went seat shard h m → IsSettledAt seat shard key m n → IsSettledAt seat shard key h n }
    ensures later { (seat : ℕ) (shard : Key → ℕ) (key : Key) (h m n : Told) → IsSettledAt seat shard key h m → Went seat shard m n → IsSettledAt seat shard key h n }
{}

/// Where seat 1 has claimed a key and given it back, the key is settled for seat 0, and not for seat 1.
pub fn settled_for_another(key: &Key)
    ensures another { IsSettled 0 key.now [] (entry Claims 1 key.now ++ entry Releases 1 key.now) }
    ensures own { IsSettled 1 key.now [] (entry Claims 1 key.now ++ entry Releases 1 key.now) → ⊥ }
{}
