use crate::answers::is_shown;
use crate::tables::{bundle, named, point, two_points};
use seqs::Box;
use std::alloc::{AllocError, Global};
use term_lang::{Term, TermFault, check_term, depth, low, vertices};

fn suspended(alloc: Global, part: Term) -> Result<Term, AllocError> {
    Ok(Term::Suspension(Box::new(alloc, part)?))
}

fn looped(alloc: Global, part: Term) -> Result<Term, AllocError> {
    Ok(Term::Loop(Box::new(alloc, part)?))
}

// The circle, suspended so many times.
fn tower(alloc: Global, count: u32) -> Result<Term, AllocError> {
    let mut term = Term::Sphere(1);
    for _ in 0..count {
        term = suspended(alloc, term)?;
    }
    Ok(term)
}

fn is_allowed(term: Result<Term, AllocError>) -> bool {
    match term {
        Ok(term) => check_term(&term).is_ok(),
        Err(_) => false,
    }
}

fn is_refused(term: Result<Term, AllocError>, fault: TermFault) -> bool {
    match term {
        Ok(term) => check_term(&term) == Err(fault),
        Err(_) => false,
    }
}

fn has_depth(term: Result<Term, AllocError>, wanted: u32) -> bool {
    match term {
        Ok(term) => depth(&term) == wanted,
        Err(_) => false,
    }
}

// Whether a term is allowed, and has this low and so many vertices.
fn measures(term: &Term, least: Option<u32>, count: u64) -> bool {
    check_term(term).is_ok() && low(term) == least && vertices(term) == count
}

fn has_measures(term: Result<Term, AllocError>, least: Option<u32>, count: u64) -> bool {
    match term {
        Ok(term) => measures(&term, least, count),
        Err(_) => false,
    }
}

#[test]
fn eight_suspensions_are_too_deep(rt: HostRuntime) {
    for count in 0..8 {
        assert!(rt; is_allowed(tower(rt.alloc(), count)), "{count}");
    }
    assert!(rt; is_refused(tower(rt.alloc(), 8), TermFault::TooDeep(9)));
    assert!(rt; has_depth(tower(rt.alloc(), 8), 9));
}

fn vertex(alloc: Global) -> Result<Term, AllocError> {
    Ok(Term::Table(point(alloc, named(b"v"))?))
}

fn vertices_apart(alloc: Global) -> Result<Term, AllocError> {
    Ok(Term::Table(two_points(alloc, named(b"a"), named(b"b"))?))
}

fn suspended_vertices(alloc: Global) -> Result<Term, AllocError> {
    suspended(alloc, vertices_apart(alloc)?)
}

#[test]
fn a_loop_space_and_tables_are_measured(rt: HostRuntime) {
    let alloc = rt.alloc();
    assert!(rt; has_measures(looped(alloc, Term::Sphere(3)), Some(2), 1));
    assert!(rt; has_measures(vertex(alloc), None, 1));
    assert!(rt; has_measures(vertices_apart(alloc), None, 2));
}

// The loop space of a product of which both parts are no spaces.
fn bad_product(alloc: Global) -> Result<Term, AllocError> {
    let left = Box::new(alloc, Term::Sphere(17))?;
    let right = Box::new(alloc, Term::Sphere(0))?;
    looped(alloc, Term::Product(left, right))
}

// The left part is refused first.
#[test]
fn parts_are_refused(rt: HostRuntime) {
    let alloc = rt.alloc();
    assert!(rt; is_refused(suspended_vertices(alloc), TermFault::NotOneVertex(2)));
    assert!(rt; is_refused(looped(alloc, Term::KZ1), TermFault::NotOneReduced(1)));
    assert!(rt; is_refused(bad_product(alloc), TermFault::BadSphere(17)));
}

fn bundle_of_a_point(alloc: Global, numbers: &[i64]) -> Result<Term, AllocError> {
    let base = point(alloc, named(b"v"))?;
    bundle(alloc, base, numbers)
}

#[test]
fn one_vertex_has_the_value_0_alone(rt: HostRuntime) {
    let alloc = rt.alloc();
    assert!(rt; is_allowed(bundle_of_a_point(alloc, &[0])));
    assert!(rt; is_refused(bundle_of_a_point(alloc, &[]), TermFault::BadCocycle(0)));
    assert!(rt; is_refused(bundle_of_a_point(alloc, &[5]), TermFault::BadCocycle(0)));
    assert!(rt; is_refused(bundle_of_a_point(alloc, &[0, 0]), TermFault::BadCocycle(1)));
}

const FAULTS: [(TermFault, &str); 5] = [
    (TermFault::TooDeep(9), "TooDeep"),
    (TermFault::NotOneVertex(2), "NotOneVertex"),
    (TermFault::NotOneReduced(1), "NotOneReduced"),
    (TermFault::BadSphere(0), "BadSphere"),
    (TermFault::BadCocycle(3), "BadCocycle"),
];

#[test]
fn faults_are_shown_by_their_names(rt: HostRuntime) {
    for (fault, text) in FAULTS {
        assert!(rt; is_shown(rt.alloc(), fault, text), "{text}");
    }
}
