// Boards: events one after the other, and replays of lists of them.
use core_board::{Board, Event, EventList, State, Stepped, replay, step};
use std::alloc::{AllocError, Global};
use std::test::Fail;

const CLAIM: Event = Event::Claim { seat: 0, key: 0 };

const PUBLISH: Event = Event::Publish { seat: 0, key: 0 };

const RELEASE: Event = Event::Release { seat: 0, key: 0 };

const OTHER_CLAIM: Event = Event::Claim { seat: 1, key: 0 };

const OTHER_PUBLISH: Event = Event::Publish { seat: 1, key: 0 };

// An event, what it comes to, and how its key stands then.
type Step = (Event, Stepped, Option<State>);

const PUBLICATION_BY_ANOTHER_SEAT: [Step; 2] = [
    (CLAIM, Stepped::Done, Some(State::Held(0))),
    (OTHER_PUBLISH, Stepped::Illegal, Some(State::Held(0))),
];

const RELEASE_AND_CLAIM_BY_ANOTHER_SEAT: [Step; 4] = [
    (CLAIM, Stepped::Done, Some(State::Held(0))),
    (OTHER_CLAIM, Stepped::Illegal, Some(State::Held(0))),
    (RELEASE, Stepped::Done, None),
    (OTHER_CLAIM, Stepped::Done, Some(State::Held(1))),
];

// The place of the first of the steps that goes otherwise.
fn first_wrong(alloc: Global, steps: &[Step]) -> Result<Option<usize>, AllocError> {
    let mut board = Board::new(alloc);
    for (i, (event, wanted, state)) in steps.iter().enumerate() {
        let told = step(&mut board, event)?;
        if told != *wanted || board.state(event.key()) != *state {
            return Ok(Some(i));
        }
    }
    Ok(None)
}

fn list_of(alloc: Global, events: &[Event]) -> Result<EventList, AllocError> {
    let mut list = EventList::new(alloc);
    for event in events {
        list.push(*event)?;
    }
    Ok(list)
}

// How a key stands after the events, or None where one of them is not legal.
fn replayed(
    alloc: Global,
    events: &[Event],
    key: u64,
) -> Result<Option<Option<State>>, AllocError> {
    let list = list_of(alloc, events)?;
    match replay(alloc, &list)? {
        Some(board) => Ok(Some(board.state(key))),
        None => Ok(None),
    }
}

// Whether a list of events has their number and the first of them.
fn is_listed(alloc: Global, events: &[Event]) -> Result<bool, AllocError> {
    let list = list_of(alloc, events)?;
    Ok(list.len() == events.len() && list.get(0) == events.first())
}

#[test]
fn steps(rt: HostRuntime) -> Result<(), Fail> {
    assert_eq!(rt;
        first_wrong(rt.alloc(), &PUBLICATION_BY_ANOTHER_SEAT)?,
        None
    );
    assert_eq!(rt;
        first_wrong(rt.alloc(), &RELEASE_AND_CLAIM_BY_ANOTHER_SEAT)?,
        None
    );
    Ok(())
}

#[test]
fn replays(rt: HostRuntime) -> Result<(), Fail> {
    let alloc = rt.alloc();
    assert_eq!(rt; is_listed(alloc, &[CLAIM, PUBLISH])?, true);
    assert_eq!(rt;
        replayed(alloc, &[CLAIM, PUBLISH], 0)?,
        Some(Some(State::Published))
    );
    assert_eq!(rt; replayed(alloc, &[CLAIM, OTHER_PUBLISH], 0)?, None);
    assert_eq!(rt; replayed(alloc, &[], 7)?, Some(None));
    Ok(())
}
