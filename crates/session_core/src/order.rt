// The order of faults, by worked lines.
ghost use Rattle.std.specs.Prelude.{◌≡◌, ℕ, []};
ghost use Rattle.fp_field.specs.declared.prime.Prime.{Prime};
ghost use Rattle.fp_field.specs.declared.prime.Prime.TheVariants.{Three};
ghost use Rattle.script_lang.specs.declared.commands.Command.TheVariants.{Field as FieldLine, Betti, Homology, Names as NamesLine};
ghost use Rattle.script_lang.specs.declared.exprs.Expr.TheVariants.{Name, Sphere, Suspension, Loop};
ghost use Rattle.reply_text.specs.declared.refusals.Refusal.TheVariants.{NotBuilt, UnknownName, BadSphere, Degree, Field as BadField};
ghost use Rattle.reply_text.specs.declared.replies.Reply.TheVariants.{Field as FieldReply, Refused};
ghost use Rattle.session_core.specs.Answer.{State, answer};

/// Lines that were answered by hand, where there are no names: what is not built comes before every
/// other fault, then the space with its parts before it, then the degrees from left to right.
pub fn worked_answers()
    ensures unbuilt { (p : Prime) → answer (record { names = []; prime = p }) (Betti (Suspension (Loop (Name []))) 17 18) ≡ (Refused NotBuilt, record { names = []; prime = p }) }
    ensures space { (p : Prime) → answer (record { names = []; prime = p }) (Betti (Name []) 17 18) ≡ (Refused (UnknownName []), record { names = []; prime = p }) }
    ensures sphere { (p : Prime) → answer (record { names = []; prime = p }) (Homology (Sphere 17) 18) ≡ (Refused (BadSphere 17), record { names = []; prime = p }) }
    ensures part { (p : Prime) → answer (record { names = []; prime = p }) (Homology (Suspension (Sphere 17)) 18) ≡ (Refused (BadSphere 17), record { names = []; prime = p }) }
    ensures degrees { (p : Prime) → answer (record { names = []; prime = p }) (Betti (Sphere 16) 17 18) ≡ (Refused (Degree 17), record { names = []; prime = p }) }
    ensures second { (p : Prime) → answer (record { names = []; prime = p }) (Betti (Sphere 16) 16 18) ≡ (Refused (Degree 18), record { names = []; prime = p }) }
    ensures field { (p : Prime) → answer (record { names = []; prime = p }) (FieldLine 4) ≡ (Refused (BadField 4), record { names = []; prime = p }) }
    ensures other { (p : Prime) → answer (record { names = []; prime = p }) (FieldLine 3) ≡ (FieldReply Three, record { names = []; prime = Three }) }
{}
