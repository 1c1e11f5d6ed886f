// Batches of sessions, and words of no form.
use crate::meeting::meeting_ports;
use crate::sides::{Side, all_say, code_of, ends_with, well, words_of};
use std::alloc::{AllocError, Global};
use std::sync::Wait;
use std::test::Fail;
use std::thread::Threads;

const USAGE: &[u8] = b"usage: kenzo_main session | batch SCRIPT.. | sweep N\n";

// Words of no form, one on each line.
const NO_FORMS: [&str; 8] = [
    "batch",
    "batch\na\na",
    "batch\na\n\n",
    "sweep\n01",
    "sweep\n0",
    "session\na",
    "",
    "batch
s0\ns1\ns2\ns3\ns4\ns5\ns6\ns7\ns8\ns9\ns10\ns11\ns12\ns13\ns14\ns15\ns16\ns17\ns18\ns19\ns20\ns21\ns22\ns23\ns24\ns25\ns26\ns27\ns28\ns29\ns30\ns31
s32\ns33\ns34\ns35\ns36\ns37\ns38\ns39\ns40\ns41\ns42\ns43\ns44\ns45\ns46\ns47\ns48\ns49\ns50\ns51\ns52\ns53\ns54\ns55\ns56\ns57\ns58\ns59\ns60\ns61\ns62\ns63
s64",
];

// The real projective plane, over F_3.
const PLANE: &[u8] =
    b"(setf rp2 (table (v) (e v v) (t e 0:v e)))\n(field 3)\n(betti rp2 0 2)\n(express rp2 1 (1 e))\n(express rp2 2 (1 t))\n";

const PLANE_ANSWERS: &[u8] =
    b"defined rp2\nfield 3\nbetti 1 0 0\ncoefficients\nchain (2 t)\nerror not-a-cycle (2 e)\n";

const NAMES: &[u8] = b"(names)\n(names)\n";

// Each session answers its own script.
fn two_scripts<R: Threads + Wait + Sync>(rt: &R, alloc: Global) -> Result<bool, AllocError> {
    let sides = [
        well(
            b"(names)\n",
            b"a: 1 replies, 0 errors, ok\nb: 1 replies, 1 errors, ok\n",
        ),
        well(b"(names)\n", b""),
        well(b"(betti (sphere 1) 0 1)\n", b"betti 1 1\n"),
        well(b"(homology x 0)\n", b"error unknown-name x\n"),
    ];
    ends_with(rt, alloc, "batch\na\nb", &sides, 16, 0)
}

// The session of b fails at its first read, that of c at its second write, and they end no other.
fn two_faults<R: Threads + Wait + Sync>(rt: &R, alloc: Global) -> Result<bool, AllocError> {
    let sides = [
        well(
            NAMES,
            b"a: 2 replies, 0 errors, ok\nb: 0 replies, 0 errors, read-fault\nc: 1 replies, 0 errors, write-fault\nd: 2 replies, 0 errors, ok\n",
        ),
        well(NAMES, b""),
        well(NAMES, b"names\nnames\n"),
        faulty(1, 0, b""),
        faulty(0, 2, b"names\n"),
        well(NAMES, b"names\nnames\n"),
    ];
    ends_with(rt, alloc, "batch\na\nb\nc\nd", &sides, 4096, 3)
}

fn faulty(bad_read: u64, bad_write: u64, output: &[u8]) -> Side<'_> {
    Side {
        input: NAMES,
        bad_read,
        bad_write,
        output,
    }
}

// The sessions of a and b wait for each other, so that sessions run one after the other would end with status 3.
fn two_that_meet<R: Threads + Wait + Sync>(rt: &R, alloc: Global) -> Result<bool, AllocError> {
    let plane = well(PLANE, PLANE_ANSWERS);
    let console = well(
        b"",
        b"a: 5 replies, 1 errors, ok\nb: 5 replies, 1 errors, ok\nc: 5 replies, 1 errors, ok\nd: 5 replies, 1 errors, ok\n",
    );
    let words = words_of(alloc, "batch\na\nb\nc\nd")?;
    let mut ports = meeting_ports(alloc, &plane)?;
    let told = code_of(rt, alloc, &words, &mut ports);
    let sides = [console, well(b"", b""), plane, plane, plane, plane];
    Ok(told == Some(0) && all_say(&ports, &sides))
}

fn shows_usage<R: Threads + Wait + Sync>(
    rt: &R,
    alloc: Global,
    words: &str,
) -> Result<bool, AllocError> {
    ends_with(rt, alloc, words, &[well(b"(names)\n", USAGE)], 16, 2)
}

#[test]
fn batches(rt: HostRuntime) -> Result<(), Fail> {
    assert!(rt; two_scripts(&rt, rt.alloc())?, "at two scripts");
    assert!(rt; two_faults(&rt, rt.alloc())?, "at two faults");
    assert!(rt; two_that_meet(&rt, rt.alloc())?, "at sessions that meet");
    Ok(())
}

#[test]
fn words_of_no_form(rt: HostRuntime) -> Result<(), Fail> {
    for words in NO_FORMS {
        assert!(rt; shows_usage(&rt, rt.alloc(), words)?, "at {words}");
    }
    Ok(())
}
