// The statuses for how sessions ended.
ghost use Rattle.std.specs.Prelude.{◌≡◌, ◌∷◌, ◌==◌, ◌||◌};
ghost use Rattle.kernel_run.specs.Batch.{ends_of};
ghost use Rattle.kernel_run.specs.Jobs.{reports_of};
ghost use Rattle.kernel_run.specs.Words.{code_of, code_of_all, has_code};

use crate::End;
use crate::jobs::Job;
use port_io::Port;

/// The status for the end of a session.
pub(crate) fn code_of(end: End) -> u8
    ensures { result ≡ code_of end }
{
    match end {
        End::Finished => 0,
        End::Long => 4,
        End::ReadFault => 3,
        End::WriteFault => 3,
        End::Memory => 5,
    }
}

/// The status for the ends of the sessions and of the writing of their lines.
pub(crate) fn code_of_all<P: Port>(shown: End, jobs: &[Job<P>]) -> u8
    ensures { result ≡ code_of_all (shown ∷ ends_of (reports_of jobs.now)) }
{
    if has_code(5, shown, jobs) {
        return 5;
    }
    if has_code(3, shown, jobs) {
        return 3;
    }
    if has_code(4, shown, jobs) {
        return 4;
    }
    0
}

// Whether one of the ends has the status.
fn has_code<P: Port>(code: u8, shown: End, jobs: &[Job<P>]) -> bool
    ensures { result ≡ has_code code (shown ∷ ends_of (reports_of jobs.now)) }
{
    if code_of(shown) == code {
        return true;
    }
    for i in 0..jobs.len() {
        if code_of(jobs[i].report.end) == code {
            return true;
        }
    }
    false
}
