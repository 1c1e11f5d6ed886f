//! How a turnstile is made, entered and left.
ghost use Rattle.std.specs.Prelude.{◌≡◌, ◌+◌, ◌%◌, ◌^◌, ◌<◌, [], ◌∷◌, Some, None, IfOk, IfErr, OnErr, IsOk};
ghost use Rattle.turnstile.specs.declared.rule.Stage.TheVariants.{Outside, Waiting, Inside};
ghost use Rattle.turnstile.specs.Turns.{Fits};
ghost use Rattle.turnstile.specs.Steps.{Grows};
ghost use Rattle.turnstile.specs.Passes.{front, number, made, IsOutside, IsInside, IsPassOf, IsSamePass};

use crate::counted::Counted;
use crate::pass::{Pass, Place, Turnstile};
use atomic_table::{Refused, Table};
use std::alloc::{AllocError, Global};
use std::sync::Wait;

/// A turnstile round a value whose history is empty, and its first pass, which has number 0 and has
/// seen nothing. Without memory the value comes back.
pub fn new_turnstile<B: Counted>(alloc: Global, state: B) -> Result<(Turnstile<B>, Pass<B>), B>
    requires { B.history state ≡ [] }
    ensures ok { IfOk result (λ t. IsPassOf t.0 t.1 × IsOutside t.1 × (number t.1 ≡ 0) × (made t.1 ≡ 1) × (front t.1 ≡ [])) }
    ensures err { IfErr result (λ b. b ≡ state) }
{
    let Ok(mut slots) = Vec::with_capacity(alloc, 1) else {
        return Err(state);
    };
    slots.push_reserved(Some(state));
    match Table::new(alloc, &[0, 0, 0], slots, &()) {
        Ok((table, seat)) => Ok((
            Turnstile { table },
            Pass {
                seat,
                ticket: 0,
                is_first: true,
            },
        )),
        Err(refused) => {
            let Refused { mut slots } = refused;
            let Some(Some(state)) = slots.pop() else {
                unreachable!()
            };
            slots.destroy_empty();
            Err(state)
        }
    }
}

impl<B: Counted> Turnstile<B> {
    /// One more pass. Its number is how many passes the first one had made, itself included, and it
    /// has seen what the first one has. It takes no memory and is never refused.
    pub fn split(&self, pass: &mut Pass<B>) -> Result<Pass<B>, AllocError>
        requires turnstile { IsPassOf self.now pass.old }
        requires first { (number pass.old ≡ 0) × IsOutside pass.old }
        requires room { made pass.old < 65536 }
        ensures never { IsOk result }
        ensures turnstile { IfOk result (λ p. IsPassOf self.now p × IsOutside p × (made p ≡ 0)) }
        ensures new { IfOk result (λ p. (number p ≡ made pass.old) × (front p ≡ front pass.old)) }
        ensures first { IfOk result (λ p. (number pass.new ≡ 0) × IsPassOf self.now pass.new × IsOutside pass.new × (made pass.new ≡ made pass.old + 1) × (front pass.new ≡ front pass.old)) }
        ensures err { OnErr result (pass.new ≡ pass.old) }
    {
        let seat = self.grow(&mut pass.seat);
        Ok(Pass {
            seat,
            ticket: 0,
            is_first: false,
        })
    }

    // Waits for the ticket's turn. It sleeps while the ticket served stays the one that it saw.
    fn wait(&self, rt: &impl Wait, seat: &mut Place<B>, ticket: u64)
        requires seat { seat.old.table_id ≡ self.now.table.shared.table_id }
        requires stage { (seat.old.me.0.stage ≡ Waiting) × (ticket ≡ seat.old.me.0.ticket % 2 ^ 64) }
        ensures seat { (seat.new.table_id ≡ seat.old.table_id) × (seat.new.id ≡ seat.old.id) }
        ensures inside { (b : B) × (seat.new.me ≡ (record seat.old.me.0 { stage = Inside; found = B.history b }, (0, Some b) ∷ seat.old.me.1)) × Fits B.owner (B.history b) seat.old.me.0.number seat.old.me.0.front }
    {
        for _ in rt.forever() {
            let served = self.call(seat);
            if served == ticket {
                return;
            }
            self.table.shared.park(rt, 1, (served & 0xffff_ffff) as u32);
        }
        unreachable!()
    }

    // Draws a ticket and waits for its turn. The slot is then out with the seat.
    fn go_in(&self, rt: &impl Wait, seat: &mut Place<B>) -> u64
        requires seat { seat.old.table_id ≡ self.now.table.shared.table_id }
        requires stage { (seat.old.me.0.stage ≡ Outside) × (seat.old.me.1 ≡ []) }
        ensures seat { (seat.new.table_id ≡ seat.old.table_id) × (seat.new.id ≡ seat.old.id) }
        ensures ticket { result ≡ seat.new.me.0.ticket % 2 ^ 64 }
        ensures inside { (b : B) × (seat.new.me ≡ (record seat.old.me.0 { stage = Inside; ticket = seat.new.me.0.ticket; front = B.history b; found = B.history b }, (0, Some b) ∷ [])) × Fits B.owner (B.history b) seat.old.me.0.number seat.old.me.0.front }
    {
        let ticket = self.draw(seat);
        self.wait(rt, seat, ticket);
        self.measure(seat);
        ticket
    }

    /// Takes the value out when the pass's turn comes, and may wait for that. The history of the
    /// value begins with the pass's front, to which no other pass has added an entry of this one.
    pub fn enter(&self, rt: &impl Wait, pass: &mut Pass<B>) -> B
        requires turnstile { IsPassOf self.now pass.old }
        requires outside { IsOutside pass.old }
        ensures pass { IsSamePass pass.old pass.new × IsInside pass.new }
        ensures seen { front pass.new ≡ B.history result }
        ensures grown { Fits B.owner (B.history result) (number pass.old) (front pass.old) }
    {
        pass.ticket = self.go_in(rt, &mut pass.seat);
        let found = self.table.shared.exchange(&mut pass.seat, 0, None);
        found.unwrap()
    }

    /// Gives the value back, with a history that the pass alone has added to since it came in, and
    /// lets the next pass in. The pass has then seen all of it.
    pub fn leave(&self, pass: &mut Pass<B>, state: B)
        requires turnstile { IsPassOf self.now pass.old }
        requires inside { IsInside pass.old }
        requires grown { Grows B.owner (number pass.old) (front pass.old) (B.history state) }
        ensures pass { IsSamePass pass.old pass.new × IsOutside pass.new }
        ensures seen { front pass.new ≡ B.history state }
    {
        let count = state.count();
        let gone = self.table.shared.exchange(&mut pass.seat, 0, Some(state));
        let None = gone else { unreachable!() };
        self.count(&mut pass.seat, count);
        self.serve(&mut pass.seat, pass.ticket.wrapping_add(1));
        self.table.shared.wake_all(1);
    }
}
