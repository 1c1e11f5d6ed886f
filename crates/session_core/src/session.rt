// A session: the lines that it is fed, one after the other, and its replies.
ghost use Rattle.std.specs.Prelude.{◌≡◌, true, false, Err, IfOk, is_ok};
ghost use Rattle.session_core.specs.Lines.{answer_bytes, line_keys};
ghost use Rattle.session_core.specs.Sessions.{first_session};
ghost use Rattle.session_core.specs.Asked.{AnswersAll, AsksKeys};

use crate::answerer::Answerer;
use crate::line_faults::LineFault;
use crate::replies::reply_to;
use crate::session_names::SessionNames;
use crate::settings::Settings;
use fp_field::Prime;
use reply_text::Reply;
use std::alloc::Global;
use std::marker::Model;

/// A session: names of spaces, and the field that chains are over. Contracts see its names and field, and whether
/// it has ended.
#[derive(Drop)]
pub struct Session {
    alloc: Global,
    settings: Settings,
    is_ended: bool,
}

impl Model for Session {
    ghost use Rattle.session_core.specs.Sessions.{SessionView};
    ghost use Rattle.session_core.specs.Settings.{state_of};
    ghost use Rattle.std.specs.Coded.{codes};
    ghost use Rattle.term_lang.specs.contracts.terms.Term as e;

    ghost Value = { SessionView };

    ghost coded = { Prim.hlevel (codes, e.the_row.coded) };

    ghost view = { λ s. record { state = state_of s.settings; is_ended = s.is_ended } };
}

/// A session without names, over the field of two elements. Its memory will come from `alloc`.
pub fn new_session(alloc: Global) -> Session
    ensures { result ≡ first_session }
{
    Session {
        alloc,
        settings: Settings {
            names: SessionNames::new(alloc),
            prime: Prime::Two,
        },
        is_ended: false,
    }
}

impl Session {
    /// The reply to a line without its line feed, by asking the answerer for the keys of the line's question. A line
    /// is read, and then its command is evaluated from left to right: the space, the degrees, the chain's simplices,
    /// whether the chain is a cycle, and the values. The first fault is the reply, and leaves names and field as they
    /// were. `Ended` comes exactly where an earlier line wanted for memory or `end` was called. At want of memory the
    /// session has ended (the commands: Kenzo documentation, 1999; the values: Rubio and Sergeraert, Constructive
    /// Homological Algebra and Applications).
    pub fn feed_line<A: Answerer>(
        &mut self,
        line: &[u8],
        answerer: &mut A,
    ) -> Result<Reply, LineFault>
        requires answerer { AnswersAll A.may_answer A.answers answerer.old }
        ensures ended { self.old.is_ended ≡ true → (result ≡ Err LineFault.Ended) × (self.new ≡ self.old) × (answerer.new ≡ answerer.old) }
        ensures open { result ≡ Err LineFault.Ended → self.old.is_ended ≡ true }
        ensures answer { IfOk result (λ r. (self.old.is_ended ≡ false) × (r ≡ (answer_bytes self.old.state line.now).0) × (self.new ≡ record { state = (answer_bytes self.old.state line.now).1; is_ended = false })) }
        ensures memory { result ≡ Err LineFault.Memory → (self.old.is_ended ≡ false) × (self.new ≡ record { state = self.old.state; is_ended = true }) }
        ensures asked { AsksKeys A.answers (line_keys self.old.state line.now) answerer.old answerer.new (is_ok result) }
    {
        if self.is_ended {
            return Err(LineFault::Ended);
        }
        let reply = reply_to(self.alloc, &mut self.settings, line, answerer);
        self.is_ended = reply.is_err();
        reply
    }

    /// Ends the session: each later line is answered by `Ended`. Names and field stay.
    pub fn end(&mut self)
        ensures { self.new ≡ record { state = self.old.state; is_ended = true } }
    {
        self.is_ended = true;
    }
}
