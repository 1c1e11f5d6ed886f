// The texts of replies.
ghost use Rattle.std.specs.Prelude.{◌≡◌, ◌++◌, OnOk, IfOk};
ghost use Rattle.reply_text.specs.Text.{text};

use crate::chain_texts::{push_chain_line, push_cycles};
use crate::list_texts::{push_counted, push_names, push_numbers, push_values};
use crate::pieces::{ByteList, push_bytes, push_text};
use crate::printed::Printed;
use crate::refusal_texts::push_refusal;
use crate::replies::Reply;
use fp_field::value;
use seqs::new_seq;
use std::alloc::{AllocError, Global};

/// The bytes of a reply: its lines, each with a line feed at its end. The empty reply has none. The
/// cells of a chain are printed as cells of the space beside it; a row that is in no table of that
/// space has no bytes.
pub fn reply_text(alloc: Global, reply: &Reply) -> Result<ByteList, AllocError>
    ensures { IfOk result (λ bytes. bytes ≡ text reply.now) }
{
    let mut out = new_seq(alloc);
    push_reply(&mut out, reply)?;
    Ok(out)
}

// Puts the text of a reply at the end. After a refusal the text must be given up.
#[tactic(auto, unfolding(crate::specs::Text::text))]
fn push_reply(out: &mut ByteList, reply: &Reply) -> Result<(), AllocError>
    ensures { OnOk result (out.new ≡ out.old ++ text reply.now) }
{
    match reply {
        Reply::Empty => Ok(()),
        Reply::Field(p) => {
            push_counted(out, "field ", value(*p) as u64)?;
            push_text(out, "\n")
        }
        Reply::Defined(name) => {
            push_text(out, "defined ")?;
            push_bytes(out, name.as_bytes())?;
            push_text(out, "\n")
        }
        Reply::Names(names) => {
            push_text(out, "names")?;
            push_names(out, names)?;
            push_text(out, "\n")
        }
        Reply::Betti(dims) => {
            push_text(out, "betti")?;
            push_numbers(out, dims)?;
            push_text(out, "\n")
        }
        Reply::Homology(t, cycles) => {
            push_counted(out, "homology ", cycles.len() as u64)?;
            push_text(out, "\n")?;
            push_cycles(out, Printed::Whole(t.get()), cycles)
        }
        Reply::Boundary(t, chain) => push_chain_line(out, Printed::Whole(t.get()), chain),
        Reply::Express(t, row, chain) => {
            push_text(out, "coefficients")?;
            push_values(out, row)?;
            push_text(out, "\n")?;
            push_chain_line(out, Printed::Whole(t.get()), chain)
        }
        Reply::Refused(refusal) => {
            push_text(out, "error ")?;
            push_refusal(out, refusal)?;
            push_text(out, "\n")
        }
    }
}
