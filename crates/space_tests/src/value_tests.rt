// Each topic as lines, with its values worked by hand from the definitions.
use crate::cocycle_tests::push_cocycle;
use crate::face_tests::push_faces;
use crate::integer_pair_tests::push_integer_pair;
use crate::pair_face_tests::{push_bundle_faces, push_torus_faces};
use crate::texts::unframed;
use crate::torus_map_tests::push_torus_maps;
use crate::torus_tests::push_torus;
use crate::word_tests::push_words;
use std::alloc::{AllocError, Global};
use std::test::Fail;
use term_lang::Term;

// The first face of a bundle is twisted: S2 twists by |1|.
const FACES: &str = "twist of S2 = [5]
is a cocycle = true
D S2 = Three []
D S1 = Two []
D |2|3| = Three [(Ints([2]), 1), (Ints([3]), 1), (Ints([5]), 2)]
d_0 ^|2|3| = 3:Base
d_1 ^|2|3| = 0:Up(Ints([3]))
d_2 ^|2|3| = 0:Up(Ints([5]))
d_3 ^|2|3| = 0:Up(Ints([2]))
d_0 <1:S1,0:S1> = 0:Pair(1:Base, 0:Top(1))
d_1 <1:S1,0:S1> = 0:Pair(0:Top(1), 0:Top(1))
d_2 <1:S1,0:S1> = 0:Pair(0:Top(1), 1:Base)
s_0 <S1,S1> = 1:Pair(0:Top(1), 0:Top(1))
d_0 <S2,0:|5|> = 0:Pair(1:Row(0, 0), 0:Ints([6]))
d_1 <S2,0:|5|> = 0:Pair(1:Row(0, 0), 0:Ints([5]))
d_2 <S2,0:|5|> = 1:Pair(0:Row(0, 0), 0:Ints([]))
";

// In Alexander-Whitney of the pair with integers, the front of degree 1 is d_2 of the cell of the sphere, which is degenerate. In its flow the
// cell is a source with the target (s_0, s_1 |2|3|) and the sign -1. What is left over is (S2, |0|3|), of which (s_1, |0|3|0|) is the target,
// and then (S2, |3|0|) with the target (s_0, |3|0|0|) and the sign -1.
const MAPS: &str = "AW <S1,S1> = Three [(Base * Top(1), 1), (Top(1) * Base, 1)]
flow <S1,S1> = Three [(Pair(1:Top(1), 2:Top(1)), 2)]
EML S1*S1 = Three [(Pair(1:Top(1), 2:Top(1)), 2), (Pair(2:Top(1), 1:Top(1)), 1)]
D <S1,S1> = Three []
d S1*S1 = Three []
F <S1,S1> = Three [(Base * Top(1), 1), (Top(1) * Base, 1)]
G S1*S1 = Three [(Pair(1:Top(1), 2:Top(1)), 2), (Pair(2:Top(1), 1:Top(1)), 1)]
H <S1,S1> = Three [(Pair(1:Top(1), 2:Top(1)), 2)]
AW <S2,|2|3|> = Five [(Base * Ints([2, 3]), 1), (Top(2) * Ints([]), 1)]
flow <S2,|2|3|> = Five [(Pair(1:Top(2), 2:Ints([2, 3])), 4), (Pair(1:Top(2), 6:Ints([3])), 4), (Pair(2:Top(2), 5:Ints([3])), 1)]
";

// Both letters of x y have place 1, which is place 0 of the word.
const WORDS: &str = "x x^-1 = []
x y y^-1 x^-1 y = [false 10:Top(2)]
inverse of x y^-1 = [false 10:Top(2), true 6:Top(2)]
x (s_0) x^-1 y = [false 10:Top(2)]
norm of x y = 1:Word([false 2:Top(2), false 4:Top(2)])
norm of [] = 7:Word([])
";

fn faces(alloc: Global) -> Result<String, AllocError> {
    let mut out = String::new(alloc);
    push_cocycle(&mut out, alloc)?;
    push_faces(&mut out, alloc)?;
    push_torus_faces(&mut out, alloc)?;
    push_bundle_faces(&mut out, alloc)?;
    unframed(alloc, out.as_str())
}

fn maps(alloc: Global) -> Result<String, AllocError> {
    let circle = Term::Sphere(1);
    let mut out = String::new(alloc);
    push_torus(&mut out, alloc, &circle)?;
    push_torus_maps(&mut out, alloc, &circle)?;
    push_integer_pair(&mut out, alloc, &Term::Sphere(2), &Term::KZ1)?;
    unframed(alloc, out.as_str())
}

fn words(alloc: Global) -> Result<String, AllocError> {
    let mut out = String::new(alloc);
    push_words(&mut out, alloc)?;
    unframed(alloc, out.as_str())
}

#[test]
fn faces_and_boundaries(rt: HostRuntime) -> Result<(), Fail> {
    let found = faces(rt.alloc())?;
    assert_eq!(rt; found.as_str(), FACES);
    Ok(())
}

#[test]
fn maps_of_pairs(rt: HostRuntime) -> Result<(), Fail> {
    let found = maps(rt.alloc())?;
    assert_eq!(rt; found.as_str(), MAPS);
    Ok(())
}

#[test]
fn words_of_letters(rt: HostRuntime) -> Result<(), Fail> {
    let found = words(rt.alloc())?;
    assert_eq!(rt; found.as_str(), WORDS);
    Ok(())
}
