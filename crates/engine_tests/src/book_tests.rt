ghost use Rattle.std.specs.Prelude.{◌≡◌, ℕ, IfOk};
ghost use Rattle.oracle_iface.specs.declared.keys.Key.{Key};
ghost use Rattle.oracle_iface.specs.declared.memo.Claim.TheVariants.{Granted};
ghost use Rattle.memo_book.specs.Worked.{sphere_key};

use crate::keys::key_in;
use core_board::Event;
use memo_book::{Book, new_book};
use oracle_iface::{Body, CellValue, Claim, Key, Memo, Op, Outcome, Place, Ticket};
use seqs::{Arc, new_seq};
use std::alloc::{AllocError, Global};
use std::process::Abort;
use term_lang::Term;

// The cell of the key of degree 5, where there is no small cell.
fn empty_cell(alloc: Global) -> Result<Arc<CellValue>, AllocError>
    ensures { IfOk result (λ v. v.key ≡ sphere_key 5) }
{
    let key = key_in(alloc, 5)?;
    let outcome = Outcome::Value(Body::Cells(new_seq(alloc)));
    Arc::new(alloc, CellValue { key, outcome })
}

fn some_cell(rt: &impl Abort, alloc: Global) -> Arc<CellValue>
    ensures { result.key ≡ sphere_key 5 }
{
    empty_cell(alloc).expect(rt, "memory")
}

fn some_key(rt: &impl Abort, alloc: Global, degree: u32) -> Arc<Key>
    ensures { result ≡ sphere_key degree }
{
    key_in(alloc, degree).expect(rt, "memory")
}

fn ticket_of(rt: &impl Abort, claim: Claim) -> Ticket
    ensures { claim ≡ Granted result }
{
    match claim {
        Claim::Granted(ticket) => ticket,
        Claim::Present(_) => panic!(rt; "the key is published"),
        Claim::Busy(_) => panic!(rt; "the key is held"),
        Claim::Full(_) => panic!(rt; "the book is full"),
    }
}

// Claims the key of a degree for a seat, which is to have it.
fn taken(rt: &impl Abort, alloc: Global, book: &mut Book, degree: u32, seat: u32) -> Ticket
    ensures { result.key ≡ sphere_key degree }
{
    let key = some_key(rt, alloc, degree);
    let claim = book.claim(&key, seat).expect(rt, "memory");
    ticket_of(rt, claim)
}

// How a book answers, where a ticket is given back: what it says, and the seat or the number of keys that it names.
fn spent(book: &mut Book, claim: Claim) -> (&'static str, u32) {
    match claim {
        Claim::Granted(ticket) => {
            book.release(ticket);
            ("granted", 0)
        }
        Claim::Present(_) => ("present", 0),
        Claim::Busy(seat) => ("busy", seat),
        Claim::Full(keys) => ("full", keys),
    }
}

// How a book answers the claim of the key of a degree.
fn asked(
    rt: &impl Abort,
    alloc: Global,
    book: &mut Book,
    degree: u32,
    seat: u32,
) -> (&'static str, u32) {
    let key = some_key(rt, alloc, degree);
    let claim = book.claim(&key, seat).expect(rt, "memory");
    spent(book, claim)
}

// Whether a book has the cell of the key of degree 5.
fn is_found(rt: &impl Abort, alloc: Global, book: &Book) -> bool {
    let key = some_key(rt, alloc, 5);
    book.look(&key).expect(rt, "memory").is_some()
}

// Whether the first key of a book is that of a degree.
fn is_first(rt: &impl Abort, alloc: Global, book: &Book, degree: u32) -> bool {
    match book.keys().first() {
        Some(key) => *key == some_key(rt, alloc, degree),
        None => false,
    }
}

#[test]
fn a_key_that_is_published(rt: HostRuntime) {
    let alloc = rt.alloc();
    let mut book = new_book(alloc);
    let ticket = taken(&rt, alloc, &mut book, 5, 0);
    let busy = asked(&rt, alloc, &mut book, 5, 1);
    let found = is_found(&rt, alloc, &book);
    book.publish(ticket, some_cell(&rt, alloc));
    assert_eq!(rt; busy, ("busy", 0));
    assert_eq!(rt; found, false);
    assert_eq!(rt; asked(&rt, alloc, &mut book, 5, 1), ("present", 0));
    assert_eq!(rt; is_found(&rt, alloc, &book), true);
}

#[test]
fn a_key_that_is_given_back(rt: HostRuntime) {
    let alloc = rt.alloc();
    let mut book = new_book(alloc);
    let ticket = taken(&rt, alloc, &mut book, 3, 0);
    book.release(ticket);
    let ticket = taken(&rt, alloc, &mut book, 3, 1);
    let busy = asked(&rt, alloc, &mut book, 3, 1);
    book.release(ticket);
    assert_eq!(rt; busy, ("busy", 1));
    let events = [
        Event::Claim { seat: 0, key: 0 },
        Event::Release { seat: 0, key: 0 },
        Event::Claim { seat: 1, key: 0 },
        Event::Release { seat: 1, key: 0 },
    ];
    assert_eq!(rt; book.journal(), events.as_slice());
}

#[test]
fn keys_in_order(rt: HostRuntime) {
    let alloc = rt.alloc();
    let mut book = new_book(alloc);
    for degree in [3, 2, 3] {
        assert_eq!(rt; asked(&rt, alloc, &mut book, degree, 7), ("granted", 0));
    }
    assert_eq!(rt; book.keys().len(), 2);
    assert_eq!(rt; is_first(&rt, alloc, &book, 3), true);
}

// A key through the bound: it is taken and given back.
fn tried<M: Memo>(memo: &mut M, key: &Arc<Key>) -> Result<bool, AllocError> {
    match memo.claim(key)? {
        Claim::Granted(ticket) => {
            memo.release(ticket);
            Ok(true)
        }
        Claim::Present(_) => Ok(false),
        Claim::Busy(_) => Ok(false),
        Claim::Full(_) => Ok(false),
    }
}

// A key through the bound: it is published, where it can be taken, and then looked up.
fn shared<M: Memo>(memo: &mut M, key: &Arc<Key>, cell: Arc<CellValue>) -> Result<bool, AllocError>
    requires { cell.key ≡ key.now }
{
    match memo.claim(key)? {
        Claim::Granted(ticket) => memo.publish(ticket, cell),
        Claim::Present(_) => {}
        Claim::Busy(_) => {}
        Claim::Full(_) => {}
    }
    Ok(memo.look(key)?.is_some())
}

#[test]
fn a_book_as_a_memo(rt: HostRuntime) {
    let key = some_key(&rt, rt.alloc(), 5);
    let mut book = new_book(rt.alloc());
    let first = tried(&mut book, &key).expect(&rt, "memory");
    let found = shared(&mut book, &key, some_cell(&rt, rt.alloc())).expect(&rt, "memory");
    let last = tried(&mut book, &key).expect(&rt, "memory");
    assert_eq!(rt; (first, found, last), (true, true, false));
}
