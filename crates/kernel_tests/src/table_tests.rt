// Sessions over a table of results.
ghost use Rattle.memo_book.specs.Histories.{front};
ghost use Rattle.kernel_run.specs.Settled.{HoldsNone};
ghost use Rattle.std.specs.Prelude.{◌≤◌};

use crate::sides::{Side, port_of, says, well};
use fp_field::Prime;
use kernel_run::{End, SessionReport, run_session};
use memo_book::{Book, new_book};
use oracle_iface::{Key, Op, Place};
use seqs::Arc;
use std::alloc::{AllocError, Global};
use std::test::Fail;
use term_lang::{Cell, SmallCell, Term};

const CIRCLE: &[u8] = b"(betti (sphere 1) 0 1)\n";

const CIRCLE_ANSWER: &[u8] = b"betti 1 1\n";

// The circle bundle of the value 2 over the 2-sphere.
const BUNDLE: &[u8] =
    b"(setf b (bundle (sphere 2) (S2 2)))\n(homology b 2)\n(express b 1 (1 <0:*,|2|>))\n";

// The small differential is 0 at S2 and |, so that G there is listed; F at the cell is 0, and H there is printed.
const BUNDLE_ANSWERS: &[u8] =
    b"defined b\nhomology 1\n(1 <S2,1-0:|>) (1 <1-0:*,|1|1|>)\ncoefficients 0\nchain (1 <1-0:*,|1|1|>)\n";

// A key of the circle over the field of two elements.
#[derive(Clone, Copy)]
enum Asked {
    Basis(u32),
    Cycles(u32),
    AtBase,
    AtTop,
}

// Whether a session over the circle publishes the key.
const KEYS: [(Asked, bool); 7] = [
    (Asked::Basis(0), true),
    (Asked::Basis(1), true),
    (Asked::Basis(2), true),
    (Asked::Basis(3), false),
    (Asked::AtBase, true),
    (Asked::AtTop, true),
    (Asked::Cycles(1), false),
];

impl Asked {
    fn op(self) -> Op {
        match self {
            Asked::Basis(_) => Op::Basis,
            Asked::Cycles(_) => Op::Cycles,
            Asked::AtBase | Asked::AtTop => Op::SmallD,
        }
    }

    fn place(self) -> Place {
        match self {
            Asked::Basis(degree) | Asked::Cycles(degree) => Place::Degree(degree),
            Asked::AtBase => Place::Small(SmallCell::One(Cell::Base)),
            Asked::AtTop => Place::Small(SmallCell::One(Cell::Top(1))),
        }
    }
}

fn key_of(alloc: Global, asked: Asked) -> Result<Arc<Key>, AllocError> {
    let key = Key {
        term: Arc::new(alloc, Term::Sphere(1))?,
        prime: Prime::Two,
        op: asked.op(),
        place: asked.place(),
    };
    Arc::new(alloc, key)
}

fn is_published(alloc: Global, book: &Book, asked: Asked) -> Result<bool, AllocError> {
    let key = key_of(alloc, asked)?;
    Ok(book.look(&key)?.is_some())
}

// Which of the keys differs from the list above.
fn first_other_key(alloc: Global, book: &Book) -> Result<Option<usize>, AllocError> {
    for i in 0..KEYS.len() {
        let (asked, published) = KEYS[i];
        if is_published(alloc, book, asked)? != published {
            return Ok(Some(i));
        }
    }
    Ok(None)
}

// Whether a session ended well, after a number of replies.
fn ended_well(report: SessionReport, replies: u64) -> bool {
    report.end == End::Finished && report.replies == replies
}

// Whether a session over a table ends well, after a number of replies, and writes what its side says.
fn answers(alloc: Global, book: &mut Book, side: &Side, replies: u64) -> Result<bool, AllocError>
    requires { HoldsNone 0 (λ k. 0) (front book.old) }
    ensures { HoldsNone 0 (λ k. 0) (front book.new) }
{
    let mut port = port_of(alloc, side, 16)?;
    let report = run_session(alloc, &mut port, book);
    let is_written = says(&port, side.output);
    Ok(ended_well(report, replies) & is_written)
}

// How many keys and how many steps a table has.
fn size(book: &Book) -> (usize, usize) {
    (book.keys().len(), book.journal().len())
}

// How a session over a table of its own ends.
fn report_of(alloc: Global, side: &Side, piece: usize) -> Result<SessionReport, AllocError>
    requires { 1 ≤ piece }
{
    let mut port = port_of(alloc, side, piece)?;
    let mut book = new_book(alloc);
    Ok(run_session(alloc, &mut port, &mut book))
}

// Whether a session over 10,000 empty lines, one of whose reads fails, ends so.
fn lines_end(alloc: Global, bad_read: u64, end: End) -> Result<bool, AllocError> {
    let mut input = Vec::new(alloc);
    input.resize(10_000, b'\n')?;
    let lines = Side {
        input: &input,
        bad_read,
        bad_write: 0,
        output: b"",
    };
    Ok(report_of(alloc, &lines, 1_000_000)?.end == end)
}

// Whether a session with an empty line and a refusal ends well after two replies, one of them an error.
fn counts_replies(alloc: Global) -> Result<bool, AllocError> {
    let script = well(b"(names)\n\n(field 4)\n", b"");
    let report = report_of(alloc, &script, 16)?;
    Ok(ended_well(report, 2) & (report.errors == 1))
}

#[test]
fn reports(rt: HostRuntime) -> Result<(), Fail> {
    assert!(rt; counts_replies(rt.alloc())?, "at replies and errors");
    // Reads have a buffer of 4096 bytes: 4096, 4096, 1808 and 0 bytes are four reads, and there is no fifth.
    assert!(rt;
        lines_end(rt.alloc(), 4, End::ReadFault)?,
        "at the fourth read"
    );
    assert!(rt;
        lines_end(rt.alloc(), 5, End::Finished)?,
        "at no fifth read"
    );
    Ok(())
}

#[test]
fn two_sessions_over_one_table(rt: HostRuntime) -> Result<(), Fail> {
    let alloc = rt.alloc();
    let circle = well(CIRCLE, CIRCLE_ANSWER);
    let mut book = new_book(alloc);
    let first = answers(alloc, &mut book, &circle, 1)?;
    let second = answers(alloc, &mut book, &circle, 1)?;
    assert_eq!(rt; (first, second), (true, true));
    assert_eq!(rt; first_other_key(alloc, &book)?, None);
    // Five keys, each claimed once and published once.
    assert_eq!(rt; size(&book), (5, 10));
    Ok(())
}

#[test]
fn a_second_session_adds_no_step(rt: HostRuntime) -> Result<(), Fail> {
    let alloc = rt.alloc();
    let bundle = well(BUNDLE, BUNDLE_ANSWERS);
    let mut book = new_book(alloc);
    let first = answers(alloc, &mut book, &bundle, 3)?;
    let (keys, steps) = size(&book);
    let second = answers(alloc, &mut book, &bundle, 3)?;
    assert_eq!(rt; (first, second), (true, true));
    // Each key was claimed once and published once.
    assert_eq!(rt; (steps / 2, steps % 2), (keys, 0));
    assert_eq!(rt; size(&book), (keys, steps));
    Ok(())
}
