// One session of the kernel over the console.
use crate::examples::{COUNT, EXAMPLES};
use crate::sides::{Side, ends_with, well};
use std::alloc::{AllocError, Global};
use std::str::Split;
use std::sync::Wait;
use std::test::Fail;
use std::thread::Threads;

/// How many sessions stand in the text below.
const SESSION_COUNT: u32 = 19;

// As in the examples: a name, what is typed, and what is printed, with a `~` behind each.
const SESSIONS: &str = "top degree~(homology (sphere 3) 3)
~homology 1
(1 S3)
~degree 0~(homology (sphere 3) 0)
~homology 1
(1 *)
~degree 2~(homology (sphere 3) 2)
~homology 0
~degree 1~(homology (sphere 2) 1)
~homology 0
~two blanks and no line feed~(homology  (sphere 16) 16)~homology 1
(1 S16)
~no sphere 0~(homology (sphere 0) 1)~error term bad-sphere 0
~no sphere 17~(homology (sphere 17) 17)~error term bad-sphere 17
~no degree 17~(homology (sphere 3) 17)~error degree 17
~18 digits~(homology (sphere 999999999999999999) 1)~error term bad-sphere 999999999999999999
~19 digits~(homology (sphere 1000000000000000000) 1)~error syntax
~a 0 in front~(homology (sphere 03) 3)~error syntax
~no loop spaces~(homology (loop-space x) 1)~error not-built
~nothing~~~a comment~; nothing~~empty lines~

(names)

(homology (sphere 1) 1)~names
homology 1
(1 S1)
~a name~(setf x (table (a) (b)))
(homology x 0)
~defined x
homology 2
(1 a)
(1 b)
~a name and two fields~(setf rp2 (table (v) (e v v) (t e 0:v e)))
(betti rp2 0 2)
(field 3)
(betti rp2 0 2)
(express rp2 1 (1 e))
(express rp2 2 (1 t))
~defined rp2
betti 1 1 1
field 3
betti 1 0 0
coefficients
chain (2 t)
error not-a-cycle (2 e)
~tables that are refused~(setf x (table (a) (b) (e a b) (t e e e)))
(setf x (table))
(names)
~error table face-law 3 0 2
error table no-vertex
names
~on after each refusal~(homolgy x 1)
(betti q 0 1)
(field 4)
(homology (sphere 3) 17)
(boundary (sphere 2) 2 (1 S3))
(setf s (sphere 0))
(homology (sphere 3) 3~error syntax
error unknown-name q
error field 4
error degree 17
error simplex 1
error term bad-sphere 0
error syntax
~";

// Which read and which write fails, what is printed of a script of three lines that comes line by line, and the status.
const FAULTS: [(u64, u64, &str, u8); 6] = [
    (1, 0, "", 3),
    (2, 0, "names\n", 3),
    (4, 0, "names\nnames\nnames\n", 3),
    (0, 1, "", 3),
    (0, 2, "names\n", 3),
    (0, 0, "names\nnames\nnames\n", 0),
];

// How a script begins, how many bytes it has with those that fill it up, what is printed, and the status.
const LONG_SCRIPTS: [(&str, usize, &str, u8); 3] = [
    (
        "(names)\n",
        16_777_217,
        "names\nerror over script 16777217\n",
        4,
    ),
    (";", 16_777_217, "error over script 16777217\n", 4),
    (";", 16_777_216, "error syntax\n", 0),
];

// Whether a session ends well and prints what is wanted for what is typed.
fn prints<R: Threads + Wait + Sync>(
    rt: &R,
    alloc: Global,
    typed: &str,
    printed: &str,
) -> Result<bool, AllocError> {
    let console = well(typed.as_bytes(), printed.as_bytes());
    ends_with(rt, alloc, "session", &[console], 16, 0)
}

// The name of the next session, what is typed, and what is printed.
fn next_session<'a>(parts: &mut Split<'a, char>) -> Option<(&'a str, &'a str, &'a str)> {
    Some((parts.next()?, parts.next()?, parts.next()?))
}

// The name of the first of the sessions that does not print what is wanted.
fn first_wrong<'a, R: Threads + Wait + Sync>(
    rt: &R,
    alloc: Global,
    sessions: &'a str,
    count: u32,
) -> Result<Option<&'a str>, AllocError> {
    let mut parts = sessions.split('~');
    for _ in 0..count {
        let Some((name, typed, printed)) = next_session(&mut parts) else {
            return Ok(Some("a session is missing"));
        };
        if !prints(rt, alloc, typed, printed)? {
            return Ok(Some(name));
        }
    }
    match parts.next() {
        Some("") => Ok(None),
        _ => Ok(Some("more sessions")),
    }
}

// Whether a session with a call that may fail prints this and ends with this status.
fn is_cut_off<R: Threads + Wait + Sync>(
    rt: &R,
    alloc: Global,
    bad_read: u64,
    bad_write: u64,
    printed: &str,
    code: u8,
) -> Result<bool, AllocError> {
    let console = Side {
        input: b"(names)\n(names)\n(names)\n",
        bad_read,
        bad_write,
        output: printed.as_bytes(),
    };
    ends_with(rt, alloc, "session", &[console], 8, code)
}

// Whether a script that begins so and is filled up with semicolons prints this and ends with this status.
fn ends_long<R: Threads + Wait + Sync>(
    rt: &R,
    alloc: Global,
    start: &str,
    bytes: usize,
    printed: &str,
    code: u8,
) -> Result<bool, AllocError> {
    let mut input = Vec::new(alloc);
    input.extend_from_slice(start.as_bytes())?;
    input.resize(bytes, b';')?;
    let console = well(&input, printed.as_bytes());
    ends_with(rt, alloc, "session", &[console], 4096, code)
}

#[test]
fn sessions(rt: HostRuntime) -> Result<(), Fail> {
    assert_eq!(rt;
        first_wrong(&rt, rt.alloc(), SESSIONS, SESSION_COUNT)?,
        None
    );
    Ok(())
}

#[test]
fn examples_and_transcripts(rt: HostRuntime) -> Result<(), Fail> {
    assert_eq!(rt; first_wrong(&rt, rt.alloc(), EXAMPLES, COUNT)?, None);
    Ok(())
}

#[test]
fn failing_calls(rt: HostRuntime) -> Result<(), Fail> {
    for (bad_read, bad_write, printed, code) in FAULTS {
        let is_right = is_cut_off(&rt, rt.alloc(), bad_read, bad_write, printed, code)?;
        assert!(rt; is_right, "at read {bad_read}, write {bad_write}");
    }
    Ok(())
}

#[test]
fn long_scripts(rt: HostRuntime) -> Result<(), Fail> {
    for (start, bytes, printed, code) in LONG_SCRIPTS {
        assert!(rt;
            ends_long(&rt, rt.alloc(), start, bytes, printed, code)?,
            "at {bytes} bytes"
        );
    }
    Ok(())
}
