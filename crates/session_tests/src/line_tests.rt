// What sessions answer, line by line.
use crate::transcripts::transcript;
use std::test::Fail;

const NAMES: &str = "> (names)
names
> ; nothing
> (names
error syntax
> (setf b (sphere 2))
defined b
> (setf a (table (p) (q))) ; two points
defined a
> (setf b a)
defined b
> (names)
names b a
> (boundary b 0 (1 p) (1 q))
chain 0
> (setf c (sphere 17))
error term bad-sphere 17
> (setf a (table))
error table no-vertex
> (names)
names b a
";

const PROJECTIVE_PLANE: &str = "> (setf rp2 (table (v) (e v v) (t e 0:v e)))
defined rp2
> (boundary rp2 2 (1 t))
chain 0
> (field 3)
field 3
> (boundary rp2 2 (1 t))
chain (2 e)
> (boundary rp2 2 (2 t) (1 1:e) (-1 t))
chain (2 e)
> (boundary rp2 2 (4 t) (2 t))
chain 0
> (boundary rp2 1 0)
chain 0
> (express rp2 2 (1 t))
error not-a-cycle (2 e)
> (field 4)
error field 4
> (boundary rp2 2 (1 t))
chain (2 e)
";

const FIRST_FAULTS: &str = "> (betti (loop-space x) 17 18) x
error syntax
> (betti (suspension (loop-space x)) 17 18)
error not-built
> (betti x 17 18)
error unknown-name x
> (homology (sphere 0) 17)
error term bad-sphere 0
> (betti (sphere 2) 17 18)
error degree 17
> (betti (sphere 2) 16 18)
error degree 18
> (express (sphere 2) 17 (1 S3))
error degree 17
> (express (sphere 2) 2 (1 S2) (1 S3))
error simplex 2
> (setf x (table (a) (b) (e a b) (t e e e)))
error table face-law 3 0 2
> (names)
names
";

const SUSPENSIONS: &str = "> (setf k (suspension (k-z-1)))
defined k
> (boundary k 3 (1 ^|2|3|) (1 ^0:|4|))
chain (1 ^|2|) (1 ^|3|) (1 ^|5|)
> (boundary k 2 (1 ^|100001|))
error over integer 100001
> (setf x (suspension (table (a) (b))))
error term not-one-vertex 2
> (names)
names k
";

const TORUS_AND_BUNDLE: &str = "> (setf torus (crts-prdc (sphere 1) (sphere 1)))
defined torus
> (boundary torus 2 (1 <0:S1,1:S1>))
chain (1 <S1,S1>) (1 <S1,0:*>) (1 <0:*,S1>)
> (boundary torus 1 (1 <S1,S1>))
chain 0
> (boundary torus 1 (1 <S1,S2>))
error simplex 1
> (setf lens (bundle (sphere 2) (S2 5)))
defined lens
> (boundary lens 2 (1 <S2,1-0:|>))
chain (1 <0:*,|5|>)
> (setf x (crts-prdc lens (suspension torus)))
defined x
> (names)
names torus lens x
";

const BUNDLES: &str = "> (setf x (bundle (sphere 2) (S2 1) (S3 100001)))
error cocycle unknown-cell 2
> (setf x (bundle (table (v) (e v v)) (e 1)))
error cocycle unknown-cell 1
> (setf x (bundle (sphere 2) (S2 1) (S2 100001)))
error cocycle repeated-cell 2
> (setf x (bundle (sphere 2) (S2 100001) (S3 1)))
error over integer 100001
> (setf x (bundle (sphere 2) (S2 -100001)))
error over integer 100001
> (setf x (bundle (k-z-1) (S2 100001)))
error term base-not-table
> (setf x (bundle (suspension (sphere 1)) (S2 1)))
error term base-not-table
> (setf x (bundle (sphere 17) (S2 100001)))
error term bad-sphere 17
> (setf x (bundle (table (v) (t 0:v 0:v 0:v) (w t 1-0:v 1-0:v 1-0:v)) (t 1)))
error cocycle not-closed 2 1
> (setf x (bundle (table (v) (t 0:v 0:v 0:v) (w 1-0:v t 1-0:v 1-0:v)) (t 7)))
error cocycle not-closed 2 -7
> (setf x (bundle (table (v) (t 0:v 0:v 0:v) (w t 1-0:v 1-0:v 1-0:v)) (w 1)))
error cocycle unknown-cell 1
";

// The boundary of a cell before the point of the fibre has the value of the cell as its integer.
const VALUES: &str = "> (boundary (bundle (sphere 2)) 2 (1 <S2,1-0:|>))
chain 0
> (boundary (bundle (sphere 2) (S2 -100000)) 2 (1 <S2,1-0:|>))
chain (1 <0:*,|-100000|>)
> (setf x (bundle (table (v) (a 0:v 0:v 0:v) (b 0:v 0:v 0:v) (c 0:v 0:v 0:v)) (c 100000) (a 3)))
defined x
> (boundary x 2 (1 <a,1-0:|>))
chain (1 <0:v,|3|>)
> (boundary x 2 (1 <b,1-0:|>))
chain 0
> (boundary x 2 (1 <c,1-0:|>))
chain (1 <0:v,|100000|>)
> (boundary (bundle (sphere 3)) 3 (1 <S3,2-1-0:|>))
chain 0
";

// In the last line the right part is K(Z,1): the faces of |2|3| are |3|, |5| and |2|.
const PRODUCTS: &str =
    "> (setf x (crts-prdc (k-z-1) (suspension (suspension (suspension (suspension (suspension (suspension (suspension (sphere 1))))))))))
error term too-deep 9
> (setf x (crts-prdc (sphere 0) (sphere 17)))
error term bad-sphere 0
> (setf x (crts-prdc (sphere 1) (sphere 17)))
error term bad-sphere 17
> (boundary (crts-prdc (sphere 1) (k-z-1)) 2 (1 <1-0:*,|2|3|>))
chain (1 <0:*,|2|>) (1 <0:*,|3|>) (1 <0:*,|5|>)
";

const ENDED: &str = "> (names)
names
> end
> (names)
ended
";

const WANT_OF_MEMORY: &str = "> (homology (sphere 2) 2)
memory
> (homology (sphere 2) 2)
ended
asked
";

const SESSIONS: [&str; 10] = [
    NAMES,
    PROJECTIVE_PLANE,
    FIRST_FAULTS,
    SUSPENSIONS,
    TORUS_AND_BUNDLE,
    BUNDLES,
    VALUES,
    PRODUCTS,
    ENDED,
    WANT_OF_MEMORY,
];

#[test]
fn sessions_answer_their_lines(rt: HostRuntime) -> Result<(), Fail> {
    for text in SESSIONS {
        let found = transcript(rt.alloc(), text)?;
        assert_eq!(rt; found.as_str(), text);
    }
    Ok(())
}
