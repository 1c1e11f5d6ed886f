// What a session says to the lines of a transcript. Its answerer has no memory, so no line that asks for values is answered.
use crate::no_memory::NoMemory;
use reply_text::{Reply, reply_text};
use session_core::{LineFault, Session, new_session};
use std::alloc::{AllocError, Global};

fn push_reply(alloc: Global, out: &mut String, reply: &Reply) -> Result<(), AllocError> {
    let bytes = reply_text(alloc, reply)?;
    for b in bytes.as_slice() {
        out.push(char::from(*b))?;
    }
    Ok(())
}

// What comes of a line: its reply, or `memory`, or `ended`.
fn push_turn(
    alloc: Global,
    out: &mut String,
    session: &mut Session,
    answerer: &mut NoMemory,
    line: &str,
) -> Result<(), AllocError> {
    match session.feed_line(line.as_bytes(), answerer) {
        Ok(reply) => push_reply(alloc, out, &reply),
        Err(LineFault::Memory) => out.push_str("memory\n"),
        Err(LineFault::Ended) => out.push_str("ended\n"),
    }
}

/// The transcript of a session: each line that is typed behind `> `, what comes of it, and `asked` at the end where the answerer was asked.
/// At the line `end` the session is ended.
pub(crate) fn transcript(alloc: Global, text: &str) -> Result<String, AllocError> {
    let mut session = new_session(alloc);
    let mut answerer = NoMemory { asked: false };
    let mut out = String::new(alloc);
    for line in text.split('\n') {
        if let Some(typed) = line.strip_prefix("> ") {
            write!(out, "{line}\n")?;
            if typed == "end" {
                session.end();
            } else {
                push_turn(alloc, &mut out, &mut session, &mut answerer, typed)?;
            }
        }
    }
    if answerer.asked {
        out.push_str("asked\n")?;
    }
    Ok(out)
}
