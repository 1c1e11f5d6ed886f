// What keys come to, and in which order they are published.
use crate::answers::{published_at, transcript};
use crate::past_keys::{homotopy_past, suspended_past};
use std::test::Fail;

// The cell of a sphere is its one small cell in its degree, G there is the cell itself, and above it nothing is listed.
const SPHERE: &str = "> (field 3)
> (homology (sphere 2) 2)
Basis Degree(2) of sphere over Three => Cells([One(Top(2))])
SmallD Small(One(Top(2))) of sphere over Three => Small(Three [])
Basis Degree(3) of sphere over Three => Cells([])
G Small(One(Top(2))) of sphere over Three => Big(Three [(Top(2), 1)])
Cycles Degree(2) of sphere over Three => Many([Three [(Top(2), 1)]])
> (homology (sphere 2) 4)
Basis Degree(4) of sphere over Three => Cells([])
Basis Degree(5) of sphere over Three => Cells([])
Cycles Degree(4) of sphere over Three => Many([])
";

// The boundary of the triangle t is twice the edge e.
const PROJECTIVE_PLANE: &str = "> (setf rp2 (table (v) (e v v) (t e 0:v e)))
> (field 3)
> (homology rp2 1)
Basis Degree(1) of table over Three => Cells([One(Row(1, 1))])
SmallD Small(One(Row(1, 1))) of table over Three => Small(Three [])
Basis Degree(2) of table over Three => Cells([One(Row(2, 2))])
SmallD Small(One(Row(2, 2))) of table over Three => Small(Three [(One(Row(1, 1)), 2)])
Cycles Degree(1) of table over Three => Many([])
> (field 2)
> (homology rp2 2)
Basis Degree(2) of table over Two => Cells([One(Row(2, 2))])
SmallD Small(One(Row(2, 2))) of table over Two => Small(Two [])
Basis Degree(3) of table over Two => Cells([])
G Small(One(Row(2, 2))) of table over Two => Big(Two [(Row(2, 2), 1)])
Cycles Degree(2) of table over Two => Many([Two [(Row(2, 2), 1)]])
";

// Edges a from u to v, b from u to w, c from w to t, and d from v to w: the cycle a - b + d has the coefficients 1, 2, 0, 1.
const EDGES: &str = "> (field 3)
> (homology (table (u) (v) (w) (t) (a v u) (b w u) (c t w) (d w v)) 1)
Basis Degree(1) of table over Three => Cells([One(Row(1, 4)), One(Row(1, 5)), One(Row(1, 6)), One(Row(1, 7))])
SmallD Small(One(Row(1, 4))) of table over Three => Small(Three [(One(Row(0, 0)), 2), (One(Row(0, 1)), 1)])
SmallD Small(One(Row(1, 5))) of table over Three => Small(Three [(One(Row(0, 0)), 2), (One(Row(0, 2)), 1)])
SmallD Small(One(Row(1, 6))) of table over Three => Small(Three [(One(Row(0, 2)), 2), (One(Row(0, 3)), 1)])
SmallD Small(One(Row(1, 7))) of table over Three => Small(Three [(One(Row(0, 1)), 2), (One(Row(0, 2)), 1)])
Basis Degree(2) of table over Three => Cells([])
G Small(One(Row(1, 4))) of table over Three => Big(Three [(Row(1, 4), 1)])
G Small(One(Row(1, 5))) of table over Three => Big(Three [(Row(1, 5), 1)])
G Small(One(Row(1, 7))) of table over Three => Big(Three [(Row(1, 7), 1)])
Cycles Degree(1) of table over Three => Many([Three [(Row(1, 4), 1), (Row(1, 5), 2), (Row(1, 7), 1)]])
";

// The boundary of t has the coefficients 0 and 2 at the loops a and b, so that only a is listed.
const LOOPS: &str = "> (field 3)
> (homology (table (v) (a v v) (b v v) (t b 0:v b)) 1)
Basis Degree(1) of table over Three => Cells([One(Row(1, 1)), One(Row(1, 2))])
SmallD Small(One(Row(1, 1))) of table over Three => Small(Three [])
SmallD Small(One(Row(1, 2))) of table over Three => Small(Three [])
Basis Degree(2) of table over Three => Cells([One(Row(2, 3))])
SmallD Small(One(Row(2, 3))) of table over Three => Small(Three [(One(Row(1, 2)), 2)])
G Small(One(Row(1, 1))) of table over Three => Big(Three [(Row(1, 1), 1)])
Cycles Degree(1) of table over Three => Many([Three [(Row(1, 1), 1)]])
";

// H of |5| is minus |1|1| to |1|4|, that of |-2| is |1|-2| and |1|-1|, and F of |a| is a times the edge. The circle has two small cells.
const INTEGERS: &str = "> (field 7)
> (express (k-z-1) 1 (1 |5|))
Basis Degree(1) of K(Z,1) over Seven => Cells([One(Ints([1]))])
SmallD Small(One(Ints([1]))) of K(Z,1) over Seven => Small(Seven [])
Basis Degree(2) of K(Z,1) over Seven => Cells([])
G Small(One(Ints([1]))) of K(Z,1) over Seven => Big(Seven [(Ints([1]), 1)])
Cycles Degree(1) of K(Z,1) over Seven => Many([Seven [(Ints([1]), 1)]])
F Big(Ints([5])) of K(Z,1) over Seven => Small(Seven [(One(Ints([1])), 5)])
H Big(Ints([5])) of K(Z,1) over Seven => Big(Seven [(Ints([1, 1]), 6), (Ints([1, 2]), 6), (Ints([1, 3]), 6), (Ints([1, 4]), 6)])
> (express (k-z-1) 1 (1 |-2|))
F Big(Ints([-2])) of K(Z,1) over Seven => Small(Seven [(One(Ints([1])), 5)])
H Big(Ints([-2])) of K(Z,1) over Seven => Big(Seven [(Ints([1, -2]), 1), (Ints([1, -1]), 1)])
> (express (k-z-1) 1 (1 |3|))
F Big(Ints([3])) of K(Z,1) over Seven => Small(Seven [(One(Ints([1])), 3)])
H Big(Ints([3])) of K(Z,1) over Seven => Big(Seven [(Ints([1, 1]), 6), (Ints([1, 2]), 6)])
> (field 5)
> (homology (k-z-1) 0)
Basis Degree(0) of K(Z,1) over Five => Cells([One(Ints([]))])
SmallD Small(One(Ints([]))) of K(Z,1) over Five => Small(Five [])
Basis Degree(1) of K(Z,1) over Five => Cells([One(Ints([1]))])
SmallD Small(One(Ints([1]))) of K(Z,1) over Five => Small(Five [])
G Small(One(Ints([]))) of K(Z,1) over Five => Big(Five [(Ints([]), 1)])
Cycles Degree(0) of K(Z,1) over Five => Many([Five [(Ints([]), 1)]])
> (express (k-z-1) 1 (1 |-3|))
Basis Degree(2) of K(Z,1) over Five => Cells([])
G Small(One(Ints([1]))) of K(Z,1) over Five => Big(Five [(Ints([1]), 1)])
Cycles Degree(1) of K(Z,1) over Five => Many([Five [(Ints([1]), 1)]])
F Big(Ints([-3])) of K(Z,1) over Five => Small(Five [(One(Ints([1])), 2)])
H Big(Ints([-3])) of K(Z,1) over Five => Big(Five [(Ints([1, -3]), 1), (Ints([1, -2]), 1), (Ints([1, -1]), 1)])
";

// H of |60000| would have 59,999 terms.
const TERMS: &str = "> (express (k-z-1) 1 (1 |60000|))
Basis Degree(1) of K(Z,1) over Two => Cells([One(Ints([1]))])
SmallD Small(One(Ints([1]))) of K(Z,1) over Two => Small(Two [])
Basis Degree(2) of K(Z,1) over Two => Cells([])
G Small(One(Ints([1]))) of K(Z,1) over Two => Big(Two [(Ints([1]), 1)])
Cycles Degree(1) of K(Z,1) over Two => Many([Two [(Ints([1]), 1)]])
F Big(Ints([60000])) of K(Z,1) over Two => Small(Two [])
H Big(Ints([60000])) of K(Z,1) over Two => H Big(Ints([60000])) is over Terms 59999
";

// What a suspension asks of its part: in degree 3 for what is in degree 2, in degree 1 and at the base point for nothing.
const SUSPENDED_SPHERE: &str = "> (field 3)
> (homology (suspension (sphere 2)) 3)
Basis Degree(2) of sphere over Three => Cells([One(Top(2))])
Basis Degree(3) of suspension over Three => Cells([Up(One(Top(2)))])
SmallD Small(One(Top(2))) of sphere over Three => Small(Three [])
SmallD Small(Up(One(Top(2)))) of suspension over Three => Small(Three [])
Basis Degree(3) of sphere over Three => Cells([])
Basis Degree(4) of suspension over Three => Cells([])
G Small(One(Top(2))) of sphere over Three => Big(Three [(Top(2), 1)])
G Small(Up(One(Top(2)))) of suspension over Three => Big(Three [(Up(Top(2)), 1)])
Cycles Degree(3) of suspension over Three => Many([Three [(Up(Top(2)), 1)]])
> (express (suspension (sphere 2)) 0 (1 *))
Basis Degree(0) of suspension over Three => Cells([One(Base)])
SmallD Small(One(Base)) of suspension over Three => Small(Three [])
Basis Degree(1) of suspension over Three => Cells([])
G Small(One(Base)) of suspension over Three => Big(Three [(Base, 1)])
Cycles Degree(0) of suspension over Three => Many([Three [(Base, 1)]])
F Big(Base) of suspension over Three => Small(Three [(One(Base), 1)])
H Big(Base) of suspension over Three => Big(Three [])
";

// The small differential over 2 e is minus 2 Up(e).
const SUSPENDED_PLANE: &str = "> (setf rp2 (table (v) (e v v) (t e 0:v e)))
> (field 3)
> (homology (suspension rp2) 2)
Basis Degree(1) of table over Three => Cells([One(Row(1, 1))])
Basis Degree(2) of suspension over Three => Cells([Up(One(Row(1, 1)))])
SmallD Small(One(Row(1, 1))) of table over Three => Small(Three [])
SmallD Small(Up(One(Row(1, 1)))) of suspension over Three => Small(Three [])
Basis Degree(2) of table over Three => Cells([One(Row(2, 2))])
Basis Degree(3) of suspension over Three => Cells([Up(One(Row(2, 2)))])
SmallD Small(One(Row(2, 2))) of table over Three => Small(Three [(One(Row(1, 1)), 2)])
SmallD Small(Up(One(Row(2, 2)))) of suspension over Three => Small(Three [(Up(One(Row(1, 1))), 1)])
Cycles Degree(2) of suspension over Three => Many([])
";

// F over |2| is 2 Up(|1|), and H over minus |1|1| minus |1|2| is their sum, with the opposite sign.
const SUSPENDED_INTEGERS: &str = "> (field 3)
> (express (suspension (k-z-1)) 2 (1 ^|3|))
Basis Degree(1) of K(Z,1) over Three => Cells([One(Ints([1]))])
Basis Degree(2) of suspension over Three => Cells([Up(One(Ints([1])))])
SmallD Small(One(Ints([1]))) of K(Z,1) over Three => Small(Three [])
SmallD Small(Up(One(Ints([1])))) of suspension over Three => Small(Three [])
Basis Degree(2) of K(Z,1) over Three => Cells([])
Basis Degree(3) of suspension over Three => Cells([])
G Small(One(Ints([1]))) of K(Z,1) over Three => Big(Three [(Ints([1]), 1)])
G Small(Up(One(Ints([1])))) of suspension over Three => Big(Three [(Up(Ints([1])), 1)])
Cycles Degree(2) of suspension over Three => Many([Three [(Up(Ints([1])), 1)]])
F Big(Ints([3])) of K(Z,1) over Three => Small(Three [])
F Big(Up(Ints([3]))) of suspension over Three => Small(Three [])
H Big(Ints([3])) of K(Z,1) over Three => Big(Three [(Ints([1, 1]), 2), (Ints([1, 2]), 2)])
H Big(Up(Ints([3]))) of suspension over Three => Big(Three [(Up(Ints([1, 1])), 1), (Up(Ints([1, 2])), 1)])
> (express (suspension (k-z-1)) 2 (1 ^|2|))
F Big(Ints([2])) of K(Z,1) over Three => Small(Three [(One(Ints([1])), 2)])
F Big(Up(Ints([2]))) of suspension over Three => Small(Three [(Up(One(Ints([1]))), 2)])
H Big(Ints([2])) of K(Z,1) over Three => Big(Three [(Ints([1, 1]), 2)])
H Big(Up(Ints([2]))) of suspension over Three => Big(Three [(Up(Ints([1, 1])), 1)])
> (field 5)
> (express (suspension (k-z-1)) 2 (1 ^|3|))
Basis Degree(1) of K(Z,1) over Five => Cells([One(Ints([1]))])
Basis Degree(2) of suspension over Five => Cells([Up(One(Ints([1])))])
SmallD Small(One(Ints([1]))) of K(Z,1) over Five => Small(Five [])
SmallD Small(Up(One(Ints([1])))) of suspension over Five => Small(Five [])
Basis Degree(2) of K(Z,1) over Five => Cells([])
Basis Degree(3) of suspension over Five => Cells([])
G Small(One(Ints([1]))) of K(Z,1) over Five => Big(Five [(Ints([1]), 1)])
G Small(Up(One(Ints([1])))) of suspension over Five => Big(Five [(Up(Ints([1])), 1)])
Cycles Degree(2) of suspension over Five => Many([Five [(Up(Ints([1])), 1)]])
F Big(Ints([3])) of K(Z,1) over Five => Small(Five [(One(Ints([1])), 3)])
F Big(Up(Ints([3]))) of suspension over Five => Small(Five [(Up(One(Ints([1]))), 3)])
H Big(Ints([3])) of K(Z,1) over Five => Big(Five [(Ints([1, 1]), 4), (Ints([1, 2]), 4)])
H Big(Up(Ints([3]))) of suspension over Five => Big(Five [(Up(Ints([1, 1])), 1), (Up(Ints([1, 2])), 1)])
";

const SESSIONS: [&str; 9] = [
    SPHERE,
    PROJECTIVE_PLANE,
    EDGES,
    LOOPS,
    INTEGERS,
    TERMS,
    SUSPENDED_SPHERE,
    SUSPENDED_PLANE,
    SUSPENDED_INTEGERS,
];

const HOMOTOPY_PAST: &str =
    "H Big(Ints([100001])) of K(Z,1) over Two => H Big(Ints([100001])) is over Integer 100001\n";

const SUSPENDED_PAST: &str =
    "F Big(Up(Ints([-100001]))) of suspension over Three => F Big(Up(Ints([-100001]))) is over Integer 100001\n";

#[test]
fn sessions_publish_their_keys(rt: HostRuntime) -> Result<(), Fail> {
    for text in SESSIONS {
        let found = transcript(rt.alloc(), text)?;
        assert_eq!(rt; found.as_str(), text);
    }
    Ok(())
}

#[test]
fn keys_past_the_limit_on_integers(rt: HostRuntime) -> Result<(), Fail> {
    let alloc = rt.alloc();
    let homotopy = published_at(alloc, homotopy_past(alloc)?)?;
    assert_eq!(rt; homotopy.as_str(), HOMOTOPY_PAST);
    let suspended = published_at(alloc, suspended_past(alloc)?)?;
    assert_eq!(rt; suspended.as_str(), SUSPENDED_PAST);
    Ok(())
}
