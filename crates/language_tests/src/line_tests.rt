// Lines and what they are read as.
use crate::line_texts::told;
use std::alloc::{AllocError, Global};
use std::process::Abort;
use std::test::Fail;

// A line, ` => ` and what it is.
const COMMANDS: &str = " => nothing
 \t\r => nothing
; nothing => nothing
  ;(names) => nothing
(names) => names
\t( names )\r; x ( => names
(field 3) => field 3
(field 0) => field 0
(field 123456789012345678) => field 123456789012345678
(field 2) ; x => field 2
(field 2);x => field 2
(homology (sphere 3) 3) => homology 3 S^3
(homology(sphere 3)3) => homology 3 S^3
(betti q 0 1) => betti 0..1 q
(setf l (loop-space (sphere 1))) => setf l = loops(S^1)
(betti (path-space (sphere 2)) 0 3) => betti 0..3 paths(S^2)
(betti (loop-space (suspension rp2)) 0 3) => betti 0..3 loops(susp(rp2))
(setf t2 (crts-prdc (sphere 1) (sphere 2))) => setf t2 = product(S^1,S^2)
(setf x (table)) => setf x = table
(setf rp2 (table (v) (e v v) (t e 0:v e))) => setf rp2 = table v() e(v,v,) t(e,s0 v,e,)
(setf w (table (v)(w t 1-0:v 2-1-0:v))) => setf w = table v() w(t,s1 s0 v,s2 s1 s0 v,)
(betti (bundle (sphere 2) (S2 1)) 0 3) => betti 0..3 S^2 twisted S2=1
(setf b (bundle (k-z-1) (S2 -2)(t 0))) => setf b = KZ1 twisted S2=-2 twisted t=0
(setf b (bundle (k-z-1))) => setf b = KZ1
(setf table sphere) => setf table = sphere
(setf names (suspension betti)) => setf names = susp(betti)
(setf abcdefghijklmno_ A1) => setf abcdefghijklmno_ = A1";

const CHAINS: &str = "(boundary x 2 0) => boundary 2 x: zero
(express rp2 1 (1 e)) => express 1 rp2: sum 1*row e;
(boundary (sphere 2) 2 (0 S2)) => boundary 2 S^2: sum 0*row S2;
(boundary t2 2 (1 <0:S1,0:S1>)) => boundary 2 t2: sum 1*pair(s0 row S1,s0 row S1);
(boundary t2 2 (2 <0:*,S1>)(-1 3-1:*)) => boundary 2 t2: sum 2*pair(s0 base,row S1); -1*s3 s1 base;
(express (k-z-1) 1 (1 |5|) (6 |1|-2|) (7 |) (8 1-0:|)) => express 1 KZ1: sum 1*ints 5; 6*ints 1 -2; 7*ints; 8*s1 s0 ints;
(boundary l 2 (1 [1:S2 2:S2]) (2 [S2\t \t-S2 S2]) (3 [])) => boundary 2 l: sum 1*word letter(s1 row S2) letter(s2 row S2); 2*word letter(row S2) inverse(row S2) letter(row S2); 3*word;
(boundary l 2 (1 [-1:^a <[],|>])) => boundary 2 l: sum 1*word inverse(s1 up(row a)) letter(pair(word,ints));
(boundary x 1 (1 0:[[a -b] [[]]])) => boundary 1 x: sum 1*s0 word letter(word letter(row a) inverse(row b)) letter(word letter(word));
(homology (suspension(suspension (sphere 1))) 8) => homology 8 susp(susp(S^1))
(boundary (sphere 2) 2 (1 ^^S2)) => boundary 2 S^2: sum 1*up(up(row S2));";

const NO_LINES: &str = ")
(
x
names
(names
(names))
(names) (names)
(names ;)
(nam es)
(names x)
(homolgy x 1)
(homology (sphere 3) 3
(homology (sphere 3)
(setf 1a (sphere 1))
(setf a)
(setf a (sphere 1) b)
(setf a$ b)
(setf (sphere 1) a)
(field 04)
(field -1)
(field)
(field(7))
(field 2) x
(field 1234567890123456789)
(homology abcdefghijklmnopq 1)
(homology x1)
(betti x 0)
(betti x y 0)
(betti sphere 2 0 1)
(betti (sphere2) 0 1)
(betti (sphere) 0 1)
(betti (crts-prdc a) 0 1)
(betti (crts-prdc a b c) 0 1)
(betti (k-z-1 a) 0 1)
(betti (bundle) 0 1)
(betti (bundle a (b)) 0 1)
(betti (bundle a b 1) 0 1)
(betti (table v) 0 1)
(betti (table (v ())) 0 1)
(betti (table ()) 0 1)
(betti (table (e 0 v)) 0 1)
(betti (table (e 0: v)) 0 1)
(betti (table (e 0-:v)) 0 1)
(betti (table (e 00:v)) 0 1)
(betti (Sphere 2) 0 1)";

const NO_CHAINS: &str = "(boundary x 2)
(boundary x 2 1)
(boundary x 2 00)
(boundary x 2 0 (1 a))
(boundary x 2 (1 a) 0)
(boundary x 2 ())
(boundary x 2 (1))
(boundary x 2 (a))
(boundary x 2 (1a))
(boundary x 2 (1 a b))
(boundary (sphere 2) 2 (-0 S2))
(boundary x 2 (+1 a))
(boundary x 2 (- 1 a))
(boundary x 2 (1 <a b>))
(boundary x 2 (1 <a,b))
(boundary x 2 (1 <a, b>))
(boundary x 2 (1 ^))
(boundary x 2 (1 ^ a))
(boundary x 2 (1 0:))
(boundary x 2 (1 0: a))
(boundary x 2 (1 :a))
(boundary x 2 (1 0-a))
(boundary x 2 (1 0::a))
(boundary x 2 (1 1:0:a))
(boundary x 2 (1 |1))
(boundary x 2 (1 |1||))
(boundary x 2 (1 |-0|))
(boundary x 2 (1 |01|))
(boundary x 2 (1 |1|a))
(boundary x 2 (1 [ a]))
(boundary x 2 (1 [a ]))
(boundary x 2 (1 [a,b]))
(boundary x 2 (1 [a-b]))
(boundary x 2 (1 [a;b]))
(boundary x 2 (1 [--a]))
(boundary x 2 (1 [a))
(boundary x 2 (1 a]))
(boundary x 2 (1 **))
(boundary x 2 (1 *a))
(boundary x 2 (1 -a))";

// A line of the same piece a number of times between two ends, and how what it is begins.
const LONG_LINES: [(&str, &str, usize, &str, &str); 9] = [
    (";", "a", 65_535, "", "nothing"),
    (";", "a", 65_536, "", "refused"),
    (
        "(setf x ",
        "(suspension ",
        16,
        "a))))))))))))))))) ",
        "setf x = susp(susp(",
    ),
    (
        "(setf x ",
        "(suspension ",
        17,
        "a)))))))))))))))))) ",
        "refused",
    ),
    (
        "(boundary x 2 (1 ",
        "^",
        32,
        "0:a))",
        "boundary 2 x: sum 1*up(up(",
    ),
    ("(boundary x 2 (1 ", "^", 33, "0:a))", "refused"),
    ("(boundary x 2 (1 ", "^", 32, "[]))", "refused"),
    (
        "(boundary x 2 ",
        "(1 a)",
        13_000,
        ")",
        "boundary 2 x: sum 1*row a; 1*row a;",
    ),
    (
        "(express x 2 (1 [a",
        " -b",
        21_000,
        "]))",
        "express 2 x: sum 1*word letter(row a) inverse(row b)",
    ),
];

fn expect_all(rt: &impl Abort, alloc: Global, cases: &str) -> Result<(), AllocError> {
    for case in cases.split('\n') {
        let (line, wanted) = case.split_once(" => ").unwrap_or((case, "refused"));
        let told = told(alloc, line)?;
        assert_eq!(rt; told.as_str(), wanted, "{line}");
    }
    Ok(())
}

fn repeated(
    alloc: Global,
    front: &str,
    piece: &str,
    times: usize,
    back: &str,
) -> Result<String, AllocError> {
    let mut line = String::from_str(alloc, front)?;
    for _ in 0..times {
        line.push_str(piece)?;
    }
    line.push_str(back)?;
    Ok(line)
}

// Whether what a line is begins so.
fn begins(alloc: Global, line: &str, wanted: &str) -> Result<bool, AllocError> {
    let told = told(alloc, line)?;
    Ok(told.starts_with(wanted))
}

#[test]
fn lines_are_read(rt: HostRuntime) -> Result<(), Fail> {
    for cases in [COMMANDS, CHAINS, NO_LINES, NO_CHAINS] {
        expect_all(&rt, rt.alloc(), cases)?;
    }
    Ok(())
}

#[test]
fn lengths_and_nesting_have_their_bounds(rt: HostRuntime) -> Result<(), Fail> {
    let alloc = rt.alloc();
    for (front, piece, times, back, wanted) in LONG_LINES {
        let line = repeated(alloc, front, piece, times, back)?;
        assert!(rt;
            begins(alloc, line.as_str(), wanted)?,
            "{front}{piece} {times} times"
        );
    }
    Ok(())
}
