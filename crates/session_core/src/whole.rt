// What the names of a session stand for.
ghost use Rattle.std.specs.Prelude.{ℕ, List};
ghost use Rattle.session_core.specs.Answer.{State};
ghost use Rattle.session_core.specs.Lines.{first_state, answer_bytes};
ghost use Rattle.session_core.specs.Whole.{IsWhole};

/// Each name of a session stands for an allowed table or sphere, from the beginning on and after each line.
pub fn names_stay_whole()
    ensures first { IsWhole first_state }
    ensures after { (s : State) (line : List ℕ) → IsWhole s → IsWhole (answer_bytes s line).1 }
{}
