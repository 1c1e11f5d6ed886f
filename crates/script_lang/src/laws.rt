// What holds of the grammar beside the reader.
ghost use Rattle.std.specs.Prelude.{◌≡◌, Option};
ghost use Rattle.script_lang.specs.declared.commands.Command.{Command};
ghost use Rattle.script_lang.specs.Grammar.{IsLine};
ghost use Rattle.script_lang.specs.Examples.{AreRead, AreRefused};

/// The grammar is unambiguous: a line is one command at most, and none where it is a line without a
/// command.
#[tactic(auto, using(crate::proofs::Whole::one_meaning))]
pub fn one_command(line: &[u8])
    ensures { (c d : Option Command) → IsLine line.now c → IsLine line.now d → c ≡ d }
{}

/// The grammar on lines that were read by hand.
pub fn worked_lines()
    ensures read { AreRead }
    ensures refused { AreRefused }
{}
