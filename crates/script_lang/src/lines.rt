// The command of a line.
ghost use Rattle.std.specs.Prelude.{◌≡◌, ◌≤◌, ◌+◌, ◌-◌, ◌==◌, if◌then◌else◌, length, IfOk, IfErr, Option};
ghost use Rattle.script_lang.specs.declared.commands.Command.{Command};
ghost use Rattle.script_lang.specs.declared.faults.SyntaxKind.{SyntaxKind};
ghost use Rattle.script_lang.specs.Grammar.{IsLine, IsReadAs};
ghost use Rattle.script_lang.specs.Places.{IsRefusal};

use crate::commands::Command;
use crate::faults::{LineRefused, Stop, SyntaxFault, SyntaxKind};
use crate::reader::Reader;
use std::alloc::Global;

/// How many bytes a line has at most.
const MOST_BYTES: usize = 65_536;

/// The fault of a line that is read up to so many bytes before its end.
fn fault_before(bytes: &[u8], left: usize) -> SyntaxFault
    requires { left ≤ length bytes.now }
    ensures column { result.column ≡ length bytes.now - left + 1 }
    ensures kind { result.kind ≡ (if left == 0 then SyntaxKind.Unfinished else SyntaxKind.Unexpected) }
{
    let kind = if left == 0 {
        SyntaxKind::Unfinished
    } else {
        SyntaxKind::Unexpected
    };
    SyntaxFault {
        column: (bytes.len() - left) as u64 + 1,
        kind,
    }
}

/// The command of a line without its line feed: `Ok(Some(c))` exactly where the line is the command
/// c, `Ok(None)` exactly where it is a line without a command, and `Syntax` exactly where it is
/// neither, as is each line of more than 65,536 bytes. The fault is `Long` in column 65,537 exactly
/// for those; else `Unexpected` in the least column k for which no line begins with the first k
/// bytes, and where there is none, `Unfinished` in the column behind the last byte. `Memory` is want
/// of memory. It takes time linear in the length of the line (Kenzo documentation, 1999, on its
/// commands; Wirth, Compiler Construction, 1996, on recursive descent).
#[tactic(auto, using(crate::proofs::Whole::found, crate::proofs::Whole::only, crate::proofs::Whole::none, crate::proofs::PlaceLines::place, crate::proofs::PlaceLines::left_fits))]
pub fn read_line(alloc: Global, bytes: &[u8]) -> Result<Option<Command>, LineRefused>
    // What is read is what the line is.
    ensures found { IfOk result (IsLine bytes.now) }
    // What the line is is read, unless memory runs out: a line that is something is no fault of syntax.
    ensures only { (asked : Option Command) → IsLine bytes.now asked → IsReadAs asked result }
    // A fault has the place of the first byte from which no line goes on, and its kind.
    ensures place { IfErr result (IsRefusal bytes.now) }
{
    if bytes.len() > MOST_BYTES {
        return Err(LineRefused::Syntax(SyntaxFault {
            column: MOST_BYTES as u64 + 1,
            kind: SyntaxKind::Long,
        }));
    }
    let mut reader = Reader { rest: bytes };
    match reader.line(alloc) {
        Ok(command) => Ok(command),
        Err(Stop::Fault(left)) => Err(LineRefused::Syntax(fault_before(bytes, left))),
        Err(Stop::Memory) => Err(LineRefused::Memory),
    }
}
