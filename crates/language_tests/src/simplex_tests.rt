// Simplices as they are written in each space.
use crate::simplex_texts::simplex_of;
use oracle_iface::Kind;
use script_lang::ResolveFault;
use std::alloc::Global;
use std::process::Abort;
use std::test::Fail;

const INTEGERS: &str = "(boundary (k-z-1) 2 (1 |0|3|)) => 1 Ints 3
(boundary (k-z-1) 1 (1 |2|3|)) => NoSimplex
(boundary (k-z-1) 1 (1 |100000|)) => 0 Ints 100000
(boundary (k-z-1) 1 (1 |100001|)) => Over Integer 100001
(boundary (suspension (k-z-1)) 0 (1 *)) => 0 Base
(boundary (suspension (k-z-1)) 2 (1 ^|1|)) => 0 Up Ints 1
(boundary (suspension (k-z-1)) 2 (1 ^0:|)) => 3 Base
(boundary (suspension (k-z-1)) 3 (1 ^|0|3|)) => 2 Up Ints 3
(boundary (suspension (k-z-1)) 3 (1 1:^|4|)) => 2 Up Ints 4";

const SPHERES_AND_TABLES: &str = "(boundary (sphere 2) 0 (1 *)) => 0 Base
(boundary (sphere 2) 1 (1 *)) => NoSimplex
(boundary (sphere 2) 2 (1 1-0:*)) => 3 Base
(boundary (sphere 2) 2 (1 0-1:*)) => NoSimplex
(boundary (sphere 2) 1 (1 1:*)) => NoSimplex
(boundary (sphere 2) 2 (1 S2)) => 0 Top 2
(boundary (sphere 2) 2 (1 S3)) => NoSimplex
(boundary (sphere 2) 3 (1 S2)) => NoSimplex
(boundary (sphere 2) 4 (1 2-0:S2)) => 5 Top 2
(boundary (sphere 2) 16 (1 15-14:S2)) => NoSimplex
(boundary (table (v) (e v v)) 0 (1 v)) => 0 Row 0 0
(boundary (table (v) (e v v)) 1 (1 v)) => NoSimplex
(boundary (table (v) (e v v)) 1 (1 0:v)) => 1 Row 0 0
(boundary (table (v) (e v v)) 1 (1 e)) => 0 Row 1 1
(boundary (table (v) (e v v)) 2 (1 1:e)) => 2 Row 1 1
(boundary (table (v) (e v v)) 2 (1 2:e)) => NoSimplex
(boundary (table (v) (e v v)) 0 (1 e)) => NoSimplex
(boundary (table (v) (e v v)) 0 (1 w)) => NoSimplex
(boundary (table (v) (e v v)) 0 (1 *)) => NoSimplex";

const PAIRS: &str =
    "(boundary (crts-prdc (sphere 1) (sphere 1)) 1 (1 <0:*,0:*>)) => 1 <0 Base, 0 Base>
(boundary (crts-prdc (sphere 1) (sphere 1)) 1 (1 <S1,S1>)) => 0 <0 Top 1, 0 Top 1>
(boundary (crts-prdc (sphere 1) (sphere 1)) 1 (1 <S1,0:*>)) => 0 <0 Top 1, 1 Base>
(boundary (crts-prdc (sphere 1) (sphere 1)) 2 (1 <0:S1,1:S1>)) => 0 <1 Top 1, 2 Top 1>
(boundary (crts-prdc (sphere 1) (sphere 1)) 3 (1 <1-0:S1,2-0:S1>)) => 1 <1 Top 1, 2 Top 1>
(boundary (crts-prdc (sphere 1) (sphere 1)) 2 (1 1:<S1,S1>)) => 2 <0 Top 1, 0 Top 1>
(boundary (crts-prdc (sphere 1) (sphere 1)) 1 (1 <S1,*>)) => NoSimplex
(boundary (crts-prdc (sphere 1) (sphere 1)) 1 (1 <*,S1>)) => NoSimplex
(boundary (crts-prdc (sphere 1) (sphere 1)) 2 (1 <1:S1,2:S1>)) => NoSimplex
(boundary (bundle (sphere 2) (S2 1)) 2 (1 <S2,1-0:|>)) => 0 <0 Row 2 1, 3 Ints 0>
(boundary (bundle (sphere 2) (S2 1)) 2 (1 <1-0:*,|1|1|>)) => 0 <3 Row 0 0, 0 Ints 1>
(boundary (bundle (sphere 2) (S2 1)) 2 (1 <1-0:*,|0|7|>)) => 1 <1 Row 0 0, 0 Ints 7>
(boundary (bundle (sphere 2) (S2 1)) 2 (1 <S2,|1|>)) => NoSimplex
(boundary (bundle (sphere 2) (S2 1)) 2 (1 <S3,|1|1|>)) => NoSimplex
(boundary (bundle (sphere 2) (S2 1)) 1 (1 <0:*,|100000|>)) => 0 <1 Row 0 0, 0 Ints 100000>
(boundary (bundle (sphere 2) (S2 1)) 1 (1 <0:*,|100001|>)) => Over Integer 100001
(boundary (bundle (sphere 2) (S2 1)) 1 (1 <|1|,0:*>)) => NoSimplex";

fn expect_all(rt: &impl Abort, alloc: Global, cases: &str) {
    for case in cases.split('\n') {
        let (line, wanted) = case.split_once(" => ").unwrap_or((case, ""));
        let told = simplex_of(alloc, line).expect(rt, "a simplex of a space");
        assert_eq!(rt; told.as_str(), wanted, "{line}");
    }
}

#[test]
fn simplices_are_read_in_their_spaces(rt: HostRuntime) {
    for cases in [INTEGERS, SPHERES_AND_TABLES, PAIRS] {
        expect_all(&rt, rt.alloc(), cases);
    }
}

const FAULTS: [(ResolveFault, &str); 3] = [
    (ResolveFault::NoSimplex, "NoSimplex"),
    (ResolveFault::Over(Kind::Letters, 65), "Over"),
    (ResolveFault::Memory, "Memory"),
];

#[test]
fn faults_are_shown_by_their_names(rt: HostRuntime) -> Result<(), Fail> {
    for (fault, text) in FAULTS {
        let shown = format!(in rt.alloc(); "{fault}")?;
        assert_eq!(rt; shown.as_str(), text);
    }
    Ok(())
}
