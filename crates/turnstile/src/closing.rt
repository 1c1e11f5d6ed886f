//! How a turnstile ends.
ghost use Rattle.std.specs.Prelude.{◌≡◌, ◌<◌, [], length, IsOk, IfOk, IfErr, All, Any, map};
ghost use Rattle.turnstile.specs.declared.rule.Stage.TheVariants.{Outside};
ghost use Rattle.turnstile.specs.Turns.{Fits};
ghost use Rattle.turnstile.specs.Passes.{front, number, passes as passes_of, note, AllKept, IsHere, IsWhole};

use crate::counted::Counted;
use crate::list::{CloseRefused, CloseRoom, PassList};
use crate::pass::{Pass, Place, Turnstile};
use std::alloc::AllocError;
use std::marker::PhantomData;

impl<B: Counted> Turnstile<B> {
    /// The room that `close_in` asks for with so many passes. It takes no memory and is never
    /// refused.
    pub fn room_to_close(&self, passes: u32) -> Result<CloseRoom<B>, AllocError>
        ensures never { IsOk result }
        ensures ok { IfOk result (λ room. room ≡ passes) }
    {
        Ok(CloseRoom {
            passes,
            marker: PhantomData,
        })
    }

    // Joins the others into the first.
    fn fold_all(&self, seat: &mut Place<B>, mut others: Vec<Pass<B>>)
        requires seat { (seat.old.table_id ≡ self.now.table.shared.table_id) × (seat.old.me.1 ≡ []) }
        requires first { (seat.old.me.0.stage ≡ Outside) × (seat.old.me.0.number ≡ 0) × (seat.old.me.0.kept ≡ []) }
        requires others { All (IsHere self.now.table.shared.table_id) others.items }
        ensures seat { (seat.new.table_id ≡ seat.old.table_id) × (seat.new.id ≡ seat.old.id) }
        ensures kept { seat.new.me ≡ (record seat.old.me.0 { kept = map note others.items }, []) }
    {
        while let Some(other) = others.pop() {
            let Pass {
                seat: place,
                ticket: _,
                is_first: _,
            } = other;
            self.fold(seat, place);
        }
        others.destroy_empty();
    }

    // The slot is at home once all passes are joined into the first.
    fn end(self, seat: Place<B>) -> B
        requires seat { seat.table_id ≡ self.table.shared.table_id }
        requires first { (seat.me.0.stage ≡ Outside) × (seat.me.0.number ≡ 0) }
        requires every { AllKept seat.me.0.made seat.me.0.kept }
        ensures first { Fits B.owner (B.history result) 0 seat.me.0.front }
        ensures others { All (λ q. Fits B.owner (B.history result) q.number q.front) seat.me.0.kept }
        ensures owners { All (λ e. B.owner e < seat.me.0.made) (B.history result) }
    {
        let mut closed = self.table.close_with(seat);
        let Some(state) = closed.take(0) else {
            unreachable!()
        };
        closed.free();
        state
    }

    fn close_all(self, passes: PassList<B>) -> B
        requires { IsWhole self (passes_of passes) }
        ensures fronts { All (λ p. Fits B.owner (B.history result) (number p) (front p)) (passes_of passes) }
        ensures owners { All (λ e. Any (λ p. number p ≡ B.owner e) (passes_of passes)) (B.history result) }
    {
        let place = passes.first_place();
        let PassList { mut items } = passes;
        let first = items.remove(place);
        let Pass {
            mut seat,
            ticket: _,
            is_first: _,
        } = first;
        self.fold_all(&mut seat, items);
        self.end(seat)
    }

    /// The value, once every pass is given back. Its history begins with the front of each pass, the
    /// entries that a pass owns there are those in its front, and each entry is owned by one of the
    /// passes. The room is for as many passes as there are, and no memory is taken.
    pub fn close_in(self, passes: PassList<B>, room: CloseRoom<B>) -> B
        requires whole { IsWhole self (passes_of passes) }
        requires room { room ≡ length (passes_of passes) }
        ensures fronts { All (λ p. Fits B.owner (B.history result) (number p) (front p)) (passes_of passes) }
        ensures owners { All (λ e. Any (λ p. number p ≡ B.owner e) (passes_of passes)) (B.history result) }
    {
        let CloseRoom {
            passes: _,
            marker: _,
        } = room;
        self.close_all(passes)
    }

    /// The same without a room. It takes no memory either, and is never refused; a refusal would
    /// give turnstile and passes back unchanged.
    pub fn close(self, passes: PassList<B>) -> Result<B, CloseRefused<B>>
        requires { IsWhole self (passes_of passes) }
        ensures never { IsOk result }
        ensures fronts { IfOk result (λ b. All (λ p. Fits B.owner (B.history b) (number p) (front p)) (passes_of passes)) }
        ensures owners { IfOk result (λ b. All (λ e. Any (λ p. number p ≡ B.owner e) (passes_of passes)) (B.history b)) }
        ensures err { IfErr result (λ r. (r.turnstile ≡ self) × (r.passes ≡ passes)) }
    {
        Ok(self.close_all(passes))
    }
}
