//! A log that passes write, in one thread and in two.
ghost use Rattle.std.specs.Prelude.{◌≡◌, ◌∷◌, [], IfSome};
ghost use Rattle.turnstile.specs.Passes.{number, made, passes as passes_of, IsOutside, IsPassOf, IsSamePass};

use std::alloc::{AllocError, Global};
use std::marker::{Send, Sync};
use std::sync::Wait;
use std::test::Fail;
use std::thread::{Threads, join};
use turnstile::{CloseRoom, Counted, Pass, PassList, Turnstile, new_turnstile};

#[derive(Drop)]
struct Line {
    by: u64,
    text: u64,
}

#[derive(Drop)]
struct Log {
    lines: Vec<Line>,
}

impl Counted for Log {
    type Entry = Line;

    ghost history = { λ l. l.lines.items };

    ghost owner = { λ e. e.by };

    fn count(&self) -> u64 {
        self.lines.len() as u64
    }
}

impl Log {
    fn texts(&self) -> (usize, u64, u64) {
        let mut last = (0, 0);
        for line in self.lines.as_slice() {
            last = (line.by, line.text);
        }
        (self.lines.len(), last.0, last.1)
    }
}

// A turnstile round an empty log, with its passes of number 0 and 1.
fn opened(alloc: Global) -> Option<(Turnstile<Log>, Pass<Log>, Pass<Log>)>
    ensures { IfSome result (λ t. IsPassOf t.0 t.1 × IsOutside t.1 × (number t.1 ≡ 0) × (made t.1 ≡ 2) × IsPassOf t.0 t.2 × IsOutside t.2 × (number t.2 ≡ 1)) }
{
    let log = Log {
        lines: Vec::new(alloc),
    };
    let (turnstile, mut one) = new_turnstile(alloc, log).ok()?;
    let two = turnstile.split(&mut one).ok()?;
    Some((turnstile, one, two))
}

fn add(
    rt: &impl Wait,
    turnstile: &Turnstile<Log>,
    pass: &mut Pass<Log>,
    by: u64,
    text: u64,
) -> Result<(), AllocError>
    requires turnstile { IsPassOf turnstile.now pass.old }
    requires outside { IsOutside pass.old × (by ≡ number pass.old) }
    ensures pass { IsSamePass pass.old pass.new × IsOutside pass.new }
{
    let mut log = turnstile.enter(rt, pass);
    let pushed = log.lines.push(Line { by, text });
    turnstile.leave(pass, log);
    pushed?;
    Ok(())
}

// How many entries there are, and owner and text of the last one, as the pass finds them.
fn seen(rt: &impl Wait, turnstile: &Turnstile<Log>, pass: &mut Pass<Log>) -> (usize, u64, u64)
    requires turnstile { IsPassOf turnstile.now pass.old }
    requires outside { IsOutside pass.old }
    ensures pass { IsSamePass pass.old pass.new × IsOutside pass.new }
{
    let log = turnstile.enter(rt, pass);
    let found = log.texts();
    turnstile.leave(pass, log);
    found
}

// The later pass stands first in the list.
fn listed(alloc: Global, one: Pass<Log>, two: Pass<Log>) -> Option<PassList<Log>>
    ensures { IfSome result (λ l. passes_of l ≡ two ∷ one ∷ []) }
{
    let mut passes = PassList::with_room(alloc, 2).ok()?;
    passes.push(two).ok()?;
    passes.push(one).ok()?;
    Some(passes)
}

fn closed(
    turnstile: Turnstile<Log>,
    alloc: Global,
    one: Pass<Log>,
    two: Pass<Log>,
) -> Option<(usize, u64, u64)>
    requires one { IsPassOf turnstile one × IsOutside one × (number one ≡ 0) × (made one ≡ 2) }
    requires two { IsPassOf turnstile two × IsOutside two × (number two ≡ 1) }
{
    let mut passes = PassList::new(alloc);
    passes.push(two).ok()?;
    passes.push(one).ok()?;
    let log = turnstile.close(passes).ok()?;
    Some(log.texts())
}

fn closed_in(
    turnstile: Turnstile<Log>,
    alloc: Global,
    one: Pass<Log>,
    two: Pass<Log>,
) -> Option<(usize, u64, u64)>
    requires one { IsPassOf turnstile one × IsOutside one × (number one ≡ 0) × (made one ≡ 2) }
    requires two { IsPassOf turnstile two × IsOutside two × (number two ≡ 1) }
{
    let passes = listed(alloc, one, two)?;
    let room = turnstile.room_to_close(2).ok()?;
    all_cross(&turnstile, &passes, &room);
    let log = turnstile.close_in(passes, room);
    Some(log.texts())
}

fn crosses<T: Send + Sync>(_value: &T) {}

// All four may cross threads, and be shared among them, where the value may cross.
fn all_cross<B: Counted + Send + Sync>(
    turnstile: &Turnstile<B>,
    passes: &PassList<B>,
    room: &CloseRoom<B>,
)
where
    B::Entry: Send + Sync,
{
    crosses(turnstile);
    crosses(passes);
    crosses(room);
    if let Some(pass) = passes.get(0) {
        crosses(pass);
    }
}

fn add_as(
    rt: &impl Wait,
    turnstile: &Turnstile<Log>,
    mut pass: Pass<Log>,
    by: u64,
) -> Option<Pass<Log>>
    requires turnstile { IsPassOf turnstile.now pass }
    requires outside { IsOutside pass × (by ≡ number pass) }
    ensures { IfSome result (λ p. IsPassOf turnstile.now p × IsOutside p × (number p ≡ by) × (made p ≡ made pass)) }
{
    add(rt, turnstile, &mut pass, by, 7).ok()?;
    add(rt, turnstile, &mut pass, by, 8).ok()?;
    Some(pass)
}

fn write_at_once<R: Threads + Wait + Sync>(rt: &R, alloc: Global) -> Option<usize> {
    let (turnstile, one, two) = opened(alloc)?;
    let (one, two) = join(
        rt,
        || add_as(rt, &turnstile, one, 0),
        || add_as(rt, &turnstile, two, 1),
    );
    let (count, _, _) = closed_in(turnstile, alloc, one?, two?)?;
    Some(count)
}

fn written_and_closed(rt: &impl Wait, alloc: Global) -> Option<[(usize, u64, u64); 3]> {
    let (turnstile, mut one, mut two) = opened(alloc)?;
    add(rt, &turnstile, &mut one, 0, 7).ok()?;
    let found = seen(rt, &turnstile, &mut two);
    add(rt, &turnstile, &mut two, 1, 8).ok()?;
    let later = seen(rt, &turnstile, &mut one);
    let last = closed(turnstile, alloc, one, two)?;
    Some([found, later, last])
}

fn written_and_closed_in(rt: &impl Wait, alloc: Global) -> Option<(usize, u64, u64)> {
    let (turnstile, mut one, two) = opened(alloc)?;
    add(rt, &turnstile, &mut one, 0, 7).ok()?;
    closed_in(turnstile, alloc, one, two)
}

fn counted_list(alloc: Global) -> Option<(bool, bool, usize)> {
    let (_, one, two) = opened(alloc)?;
    let passes = listed(alloc, one, two)?;
    Some((
        passes.get(1).is_some(),
        passes.get(2).is_none(),
        passes.len(),
    ))
}

#[test]
fn a_pass_finds_the_entry_of_another(rt: HostRuntime) -> Result<(), Fail> {
    let got = written_and_closed(&rt, rt.alloc());
    assert_eq!(rt; got, Some([(1, 0, 7), (2, 1, 8), (2, 1, 8)]));
    Ok(())
}

#[test]
fn closing_in_a_room_gives_the_log(rt: HostRuntime) -> Result<(), Fail> {
    assert_eq!(rt; written_and_closed_in(&rt, rt.alloc()), Some((1, 0, 7)));
    Ok(())
}

#[test]
fn a_list_counts_its_passes(rt: HostRuntime) -> Result<(), Fail> {
    assert_eq!(rt; counted_list(rt.alloc()), Some((true, true, 2)));
    Ok(())
}

#[test]
fn two_threads_write(rt: HostRuntime) -> Result<(), Fail> {
    assert_eq!(rt; write_at_once(&rt, rt.alloc()), Some(4));
    Ok(())
}
