// The steps of a board, and replays.
ghost use Rattle.std.specs.Prelude.{◌≡◌, ℕ, Bool, List, None, IfOk, OnOk, OnErr, map as list_map, option_map, if◌then◌else◌, ◌==◌};
ghost use Rattle.std.specs.FinMap as map;
ghost use Rattle.oracle_iface.specs.Board as rules;
ghost use Rattle.core_board.specs.Boards.{board_of, event_of, key_of, state_after, StepIs};

use crate::board::{Board, State};
use crate::events::{Event, EventList};
use std::alloc::{AllocError, Global};
use std::collections::BTreeMap;

/// What an event comes to.
#[derive(Clone, Copy, Debug, PartialEq, Eq)]
pub enum Stepped {
    /// It was legal, and the board has changed by it.
    Done,
    /// It was not legal, and the board is as it was.
    Illegal,
}

impl Event {
    /// The key that it speaks of.
    pub fn key(&self) -> u64
        ensures { result ≡ key_of self.now }
    {
        match *self {
            Event::Claim { key, .. } => key,
            Event::Publish { key, .. } => key,
            Event::Release { key, .. } => key,
        }
    }

    // How the key stands after it.
    fn state_after(&self) -> Option<State>
        ensures { result ≡ state_after self.now }
    {
        match *self {
            Event::Claim { seat, .. } => Some(State::Held(seat)),
            Event::Publish { .. } => Some(State::Published),
            Event::Release { .. } => None,
        }
    }
}

impl Board {
    /// The board on which every key is unclaimed.
    pub fn new(alloc: Global) -> Board
        ensures { result ≡ map.empty }
    {
        Board {
            states: BTreeMap::new(alloc),
        }
    }

    /// How a key stands, or None exactly where it is unclaimed.
    pub fn state(&self, key: u64) -> Option<State>
        ensures { result ≡ map.get self.now key }
    {
        self.states.get(&key).copied()
    }

    /// Whether an event is legal.
    pub fn allows(&self, event: &Event) -> bool
        ensures { result ≡ rules.is_legal (board_of self.now) (event_of event.now) }
    {
        let state = self.state(event.key());
        match *event {
            Event::Claim { .. } => state.is_none(),
            Event::Publish { seat, .. } => state == Some(State::Held(seat)),
            Event::Release { seat, .. } => state == Some(State::Held(seat)),
        }
    }

    // Puts a key into a state.
    fn set(&mut self, key: u64, state: Option<State>) -> Result<(), AllocError>
        ensures ok { OnOk result ((k : ℕ) → map.get self.new k ≡ (if k == key then state else map.get self.old k)) }
        ensures err { OnErr result (self.new ≡ self.old) }
    {
        match state {
            Some(state) => {
                self.states.insert(key, state)?;
            }
            None => {
                self.states.remove(&key);
            }
        }
        Ok(())
    }
}

/// Lets an event happen: Done exactly where it is legal on the board, which is then that after the event, and Illegal exactly where it
/// is not legal, and then the board stays as it was. The only error is want of memory, after which the board is as it was too.
pub fn step(board: &mut Board, event: &Event) -> Result<Stepped, AllocError>
    ensures ok { IfOk result (StepIs board.old board.new event.now) }
    ensures err { OnErr result (board.new ≡ board.old) }
{
    if !board.allows(event) {
        return Ok(Stepped::Illegal);
    }
    board.set(event.key(), event.state_after())?;
    Ok(Stepped::Done)
}

/// The board that a list of events leaves, or None exactly where one of them is not legal after those before it. The only error is want of
/// memory.
pub fn replay(alloc: Global, events: &EventList) -> Result<Option<Board>, AllocError>
    ensures { IfOk result (λ board. option_map board_of board ≡ rules.replay (list_map event_of events.now)) }
{
    let mut board = Board::new(alloc);
    for event in events.as_slice() {
        match step(&mut board, event)? {
            Stepped::Done => {}
            Stepped::Illegal => return Ok(None),
        }
    }
    Ok(Some(board))
}
