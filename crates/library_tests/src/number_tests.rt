// Fields, words of degeneracies and path words.
use fp_field::{Fp, Prime, inv, prime_of, reduce};
use path_words::{PathEvent, PathWord, event_of, matched, pairs};
use simp_ops::{Degens, FacePast, common, compose, degenerate, degens_of, face_past, strip};

#[test]
fn the_primes_and_their_residues(rt: HostRuntime) {
    assert_eq!(rt; prime_of(9), None);
    assert_eq!(rt; prime_of(19), Some(Prime::Nineteen));
    assert_eq!(rt; inv(Prime::Seven, Fp { value: 3 }), Fp { value: 5 });
    assert_eq!(rt; reduce(Prime::Seven, -1), Fp { value: 6 });
    assert_eq!(rt; reduce(Prime::Seven, i64::MIN), Fp { value: 6 });
}

#[test]
fn words_of_indices(rt: HostRuntime) {
    assert_eq!(rt; degens_of(&[1, 0]), Some(Degens { mask: 3 }));
    assert_eq!(rt; degens_of(&[0, 0]), None);
    assert_eq!(rt; degens_of(&[32]), None);
}

#[test]
fn faces_and_degeneracies_meet_words(rt: HostRuntime) {
    let word = Degens { mask: 1 };
    assert_eq!(rt; face_past(1, word), FacePast::Absorbed(Degens { mask: 0 }));
    assert_eq!(rt;
        face_past(2, word),
        FacePast::Through(1, Degens { mask: 1 })
    );
    assert_eq!(rt; degenerate(0, word), Degens { mask: 3 });
}

#[test]
fn words_meet_words(rt: HostRuntime) {
    let one = Degens { mask: 1 };
    let two = Degens { mask: 3 };
    assert_eq!(rt; compose(one, one), two);
    assert_eq!(rt; common(two, one), one);
    assert_eq!(rt; strip(two, one), one);
}

#[test]
fn left_both_right_is_a_source(rt: HostRuntime) {
    let word = PathWord {
        len: 3,
        left: Degens { mask: 4 },
        right: Degens { mask: 1 },
    };
    let target = PathWord {
        len: 4,
        left: Degens { mask: 10 },
        right: Degens { mask: 5 },
    };
    assert_eq!(rt; event_of(&word), PathEvent::Source(1));
    assert_eq!(rt; matched(&word), target);
    assert_eq!(rt; event_of(&target), PathEvent::Target(1));
    assert_eq!(rt; matched(&target), word);
}

#[test]
fn left_left_right_is_critical_and_right_right_left_has_two_pairs(rt: HostRuntime) {
    let critical = PathWord {
        len: 3,
        left: Degens { mask: 4 },
        right: Degens { mask: 3 },
    };
    assert_eq!(rt; event_of(&critical), PathEvent::Critical);
    let crossed = PathWord {
        len: 3,
        left: Degens { mask: 3 },
        right: Degens { mask: 4 },
    };
    assert_eq!(rt; pairs(&crossed), 2);
}
