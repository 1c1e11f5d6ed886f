// What lines leave as it was.
ghost use Rattle.std.specs.Prelude.{◌≡◌, ◌↔◌, ℕ, List, Option, true};
ghost use Rattle.script_lang.specs.declared.commands.Command.{Command};
ghost use Rattle.script_lang.specs.declared.commands.Command.TheVariants.{Field, Setf};
ghost use Rattle.script_lang.specs.declared.exprs.Expr.{Expr};
ghost use Rattle.script_lang.specs.Grammar.{IsLine};
ghost use Rattle.session_core.specs.Answer.{State, told, answer, answer_line};
ghost use Rattle.session_core.specs.Kept.{is_refused, is_question};
ghost use Rattle.session_core.specs.Lines.{told_line};

/// What bytes are told as is what they are by the grammar: a command, or a line without one.
pub fn lines_are_told()
    ensures { (line : List ℕ) (c : Option Command) → IsLine line c ↔ (told_line line ≡ told c) }
{}

/// A refused line leaves names and field as they were.
pub fn refused_lines_change_nothing()
    ensures { (s : State) (line : Option Command) → is_refused (answer_line s line).0 ≡ true → (answer_line s line).1 ≡ s }
{}

/// A question leaves names and field as they were, whatever its reply.
pub fn questions_change_nothing()
    ensures { (s : State) (c : Command) → is_question c ≡ true → (answer s c).1 ≡ s }
{}

/// Another field keeps the names, and a definition the field.
pub fn field_laws()
    ensures names { (s : State) (n : ℕ) → (answer s (Field n)).1.names ≡ s.names }
    ensures prime { (s : State) (name : List ℕ) (e : Expr) → (answer s (Setf name e)).1.prime ≡ s.prime }
{}
