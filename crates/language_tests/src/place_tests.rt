// Where lines go wrong, and how, counted by hand.
use script_lang::{LineRefused, SyntaxFault, SyntaxKind, read_line};
use std::alloc::{AllocError, Global};
use std::process::Abort;
use std::test::Fail;

// A line, ` => `, the column and the kind.
const PLACES: &str = ") => 1 unexpected
( => 2 unfinished
x => 1 unexpected
  ) => 3 unexpected
(homolgy x 1) => 7 unexpected
(homology (sphere 3) 3 => 23 unfinished
(setf 1a (sphere 1)) => 7 unexpected
(field 04) => 9 unexpected
(field 2) x => 11 unexpected
(field 1234567890123456789) => 26 unexpected
(field 123456789012345678 => 26 unfinished
(homology abcdefghijklmnopq 1) => 27 unexpected
(names) (names) => 9 unexpected
(names ;) => 8 unexpected
(nam es) => 5 unexpected
(sphere 3) => 3 unexpected
(betti x3 4) => 12 unexpected
(betti (crts-prdc a) 0 1) => 20 unexpected
(betti (bundle a (b)) 0 1) => 20 unexpected
(betti (bundle a (b 1) => 23 unfinished
(betti (table ()) 0 1) => 16 unexpected
(betti (table (e 0: v)) 0 1) => 20 unexpected
(betti (table (e 0-:v)) 0 1) => 20 unexpected
(betti (table (e 0:v 1:e => 25 unfinished
(boundary (sphere 2) 2 (-0 S2)) => 26 unexpected
(boundary x 2 1) => 15 unexpected
(boundary x 2 00) => 16 unexpected
(boundary x 2 (1 <a, b>)) => 21 unexpected
(boundary x 2 (1 <a,b)) => 22 unexpected
(boundary x 2 (1 |1|a)) => 21 unexpected
(boundary x 2 (1 |-0|)) => 20 unexpected
(boundary x 2 (1 [ a])) => 19 unexpected
(boundary x 2 (1 [a ])) => 21 unexpected
(boundary x 2 (1 [a;b])) => 20 unexpected
(boundary x 2 (1 [a 0:<b,^ => 27 unfinished
(boundary x 2 (1 0: => 20 unfinished";

fn expect_place(
    rt: &impl Abort,
    alloc: Global,
    line: &str,
    wanted: &str,
) -> Result<(), AllocError> {
    let read = read_line(alloc, line.as_bytes());
    assert!(rt; matches!(read, Err(LineRefused::Syntax(_))), "{line}");
    if let Err(LineRefused::Syntax(SyntaxFault { column, kind })) = read {
        let kind = match kind {
            SyntaxKind::Unexpected => "unexpected",
            SyntaxKind::Unfinished => "unfinished",
            SyntaxKind::Long => "long",
        };
        let told = format!(in alloc; "{column} {kind}")?;
        assert_eq!(rt; told.as_str(), wanted, "{line}");
    }
    Ok(())
}

#[test]
fn faults_have_their_places(rt: HostRuntime) -> Result<(), Fail> {
    let alloc = rt.alloc();
    for case in PLACES.split('\n') {
        let (line, wanted) = case.split_once(" => ").unwrap_or((case, ""));
        expect_place(&rt, alloc, line, wanted)?;
    }
    Ok(())
}

fn repeated(alloc: Global, front: &str, piece: &str, times: usize) -> Result<String, AllocError> {
    let mut line = String::from_str(alloc, front)?;
    for _ in 0..times {
        line.push_str(piece)?;
    }
    Ok(line)
}

#[test]
fn long_lines_have_their_places(rt: HostRuntime) -> Result<(), Fail> {
    let alloc = rt.alloc();
    let long = repeated(alloc, ";", "a", 65_536)?;
    expect_place(&rt, alloc, long.as_str(), "65537 long")?;
    let spaces = repeated(alloc, "(betti ", "(suspension ", 17)?;
    expect_place(&rt, alloc, spaces.as_str(), "200 unexpected")?;
    let raised = repeated(alloc, "(boundary x 2 (1 ", "^", 33)?;
    expect_place(&rt, alloc, raised.as_str(), "50 unexpected")?;
    let open = repeated(alloc, "(boundary x 2 ", "(1 a)", 13_000)?;
    expect_place(&rt, alloc, open.as_str(), "65015 unfinished")?;
    Ok(())
}
