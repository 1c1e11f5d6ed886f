// The lines that say how the sessions of a batch ended.
ghost use Rattle.std.specs.Prelude.{◌≡◌, ◌+◌, length, drop, IfOk, string_bytes};
ghost use Rattle.kernel_run.specs.Jobs.{reports_of};
ghost use Rattle.kernel_run.specs.Summary.{end_word, summary, summary_line};

use crate::jobs::Job;
use crate::words::word_at;
use crate::{End, SessionReport};
use port_io::{Port, WordList};
use std::alloc::{AllocError, Global};

/// The lines of the sessions, in order of words.
pub(crate) fn summary_text<P: Port>(
    alloc: Global,
    words: &WordList,
    jobs: &[Job<P>],
) -> Result<String, AllocError>
    requires { length words.now ≡ length jobs.now + 1 }
    ensures { IfOk result (λ text. string_bytes text ≡ summary (drop 1 words.now) (reports_of jobs.now)) }
{
    let mut text = String::new(alloc);
    for i in 0..jobs.len() {
        let line = summary_line(alloc, word_at(words, i + 1), jobs[i].report)?;
        text.push_str(&line)?;
    }
    Ok(text)
}

// The line of one session.
fn summary_line(alloc: Global, word: &str, report: SessionReport) -> Result<String, AllocError>
    ensures { IfOk result (λ line. string_bytes line ≡ summary_line word.now report) }
{
    let end = end_word(report.end);
    format!(in alloc;
        "{word}: {} replies, {} errors, {end}\n",
        report.replies, report.errors
    )
}

// The word for the end of a session.
fn end_word(end: End) -> &'static str
    ensures { result.now ≡ end_word end }
{
    match end {
        End::Finished => "ok",
        End::Long => "long",
        End::ReadFault => "read-fault",
        End::WriteFault => "write-fault",
        End::Memory => "memory",
    }
}
