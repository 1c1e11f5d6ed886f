// The board.
use std::collections::BTreeMap;
use std::marker::Model;

/// How a key stands that is not unclaimed.
#[derive(Clone, Copy, Debug, PartialEq, Eq)]
pub enum State {
    /// The seat holds it.
    Held(u32),
    /// What it comes to is there for all.
    Published,
}

/// How each key stands: a finite map from the numbers of the keys that are held or published to
/// their states. Every other key is unclaimed.
#[derive(Drop)]
pub struct Board {
    pub(crate) states: BTreeMap<u64, State>,
}

impl Model for Board {
    ghost use Rattle.std.specs.Ordering.{nat_cmp};
    ghost use Rattle.std.specs.Coded.{coded_ℕ};
    ghost use Rattle.std.specs.FinMap as map;
    ghost use Rattle.core_board.specs.declared.board.State.{State};
    ghost use Rattle.core_board.specs.contracts.board.State as state;

    ghost Value = { map.FinMap nat_cmp State };

    ghost coded = { map.code coded_ℕ state.the_row.coded };

    ghost view = { λ b. map.from_entries b.states.entries };
}
