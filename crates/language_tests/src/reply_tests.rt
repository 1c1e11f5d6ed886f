// Replies and their texts.
use crate::cell_chains::{
    TWO, circles, in_the_bundle, ints, inverse_letter, one_cycle, surface, words,
};
use chain_core::Chain;
use elim_fp::row_of;
use finite_sets::sphere_table;
use fp_field::Prime;
use oracle_iface::{ChainList, Kind};
use reply_text::{NameList, NumberList, Refusal, Reply, reply_text};
use seqs::{Arc, Box, new_seq};
use std::alloc::{AllocError, Global};
use std::process::Abort;
use term_lang::{Cell, Name, Term, name_of};

fn shows(rt: &impl Abort, alloc: Global, reply: Result<Reply, AllocError>, text: &str) {
    let reply = reply.expect(rt, "memory");
    let bytes = reply_text(alloc, &reply).expect(rt, "memory");
    assert!(rt; bytes.as_slice() == text.as_bytes(), "{text}");
}

fn refused(rt: &impl Abort, alloc: Global, refusal: Refusal, text: &str) {
    shows(rt, alloc, Ok(Reply::Refused(refusal)), text);
}

fn named(rt: &impl Abort, text: &str) -> Name {
    name_of(text.as_bytes()).expect(rt, "a name of 1 to 16 bytes")
}

fn names(alloc: Global, items: &[Name]) -> Result<NameList, AllocError> {
    let mut list = NameList::new(alloc);
    for name in items {
        list.push(*name)?;
    }
    Ok(list)
}

fn listed(alloc: Global, items: &[Name]) -> Result<Reply, AllocError> {
    Ok(Reply::Names(names(alloc, items)?))
}

fn betti(alloc: Global, items: &[u64]) -> Result<Reply, AllocError> {
    let mut list = new_seq(alloc);
    for n in items {
        list.push(*n)?;
    }
    Ok(Reply::Betti(list))
}

fn torus(alloc: Global) -> Result<Arc<Term>, AllocError> {
    let left = Box::new(alloc, Term::Sphere(1))?;
    let right = Box::new(alloc, Term::Sphere(1))?;
    Arc::new(alloc, Term::Product(left, right))
}

fn loops(alloc: Global) -> Result<Arc<Term>, AllocError> {
    Arc::new(alloc, Term::Loop(Box::new(alloc, Term::Sphere(2))?))
}

fn bundle(alloc: Global) -> Result<Arc<Term>, AllocError> {
    let base = sphere_table(alloc, 2)?;
    let values = ints(alloc, &[0, 2])?;
    Arc::new(alloc, Term::Bundle(base, values))
}

fn paths(alloc: Global) -> Result<Arc<Term>, AllocError> {
    let below = Box::new(alloc, Term::Sphere(1))?;
    let above = Box::new(alloc, Term::Suspension(below))?;
    Arc::new(alloc, Term::Path(above))
}

fn homology(
    term: Result<Arc<Term>, AllocError>,
    cycles: Result<ChainList, AllocError>,
) -> Result<Reply, AllocError> {
    Ok(Reply::Homology(term?, cycles?))
}

fn boundary(
    term: Result<Arc<Term>, AllocError>,
    chain: Result<Chain<Cell>, AllocError>,
) -> Result<Reply, AllocError> {
    Ok(Reply::Boundary(term?, chain?))
}

fn parts_of_words(alloc: Global) -> Result<Reply, AllocError> {
    let row = row_of(alloc, Prime::Three, &[TWO])?;
    Ok(Reply::Express(loops(alloc)?, row, words(alloc)?))
}

fn no_cycle_of_paths(alloc: Global) -> Result<Reply, AllocError> {
    Ok(Reply::Refused(Refusal::NotCycle(paths(alloc)?, TWO, inverse_letter(alloc)?)))
}

#[test]
fn lines_of_words_and_lists(rt: HostRuntime) {
    let alloc = rt.alloc();
    let rp2 = named(&rt, "rp2");
    shows(&rt, alloc, Ok(Reply::Empty), "");
    shows(&rt, alloc, Ok(Reply::Field(Prime::Nineteen)), "field 19\n");
    shows(&rt, alloc, Ok(Reply::Defined(rp2)), "defined rp2\n");
    shows(&rt, alloc, listed(alloc, &[]), "names\n");
    let two = [named(&rt, "l"), rp2];
    shows(&rt, alloc, listed(alloc, &two), "names l rp2\n");
    shows(&rt, alloc, betti(alloc, &[1, 0, 10]), "betti 1 0 10\n");
}

#[test]
fn chains_of_each_space(rt: HostRuntime) {
    let alloc = rt.alloc();
    shows(
        &rt,
        alloc,
        homology(torus(alloc), one_cycle(alloc, surface(alloc))),
        "homology 1\n(2 <0:S1,1:S1>) (1 <1:S1,0:S1>)\n",
    );
    shows(
        &rt,
        alloc,
        homology(torus(alloc), circles(alloc)),
        "homology 2\n(1 <0:*,S1>)\n(1 <S1,0:*>)\n",
    );
    shows(
        &rt,
        alloc,
        boundary(torus(alloc), Ok(Chain::new(alloc, Prime::Three))),
        "chain 0\n",
    );
    shows(
        &rt,
        alloc,
        boundary(bundle(alloc), in_the_bundle(alloc)),
        "chain (1 <S2,1-0:|>) (1 <1-0:*,|1|-12|>)\n",
    );
    shows(
        &rt,
        alloc,
        homology(loops(alloc), one_cycle(alloc, words(alloc))),
        "homology 1\n(2 [1:S2 2:S2]) (1 [2:S2 1:S2])\n",
    );
    shows(
        &rt,
        alloc,
        parts_of_words(alloc),
        "coefficients 2\nchain (2 [1:S2 2:S2]) (1 [2:S2 1:S2])\n",
    );
    shows(
        &rt,
        alloc,
        no_cycle_of_paths(alloc),
        "error not-a-cycle (2 <0:*,[-^S1]>)\n",
    );
}

#[test]
fn refusals_of_lines(rt: HostRuntime) {
    let alloc = rt.alloc();
    refused(&rt, alloc, Refusal::Syntax, "error syntax\n");
    refused(&rt, alloc, Refusal::NotBuilt, "error not-built\n");
    refused(
        &rt,
        alloc,
        Refusal::UnknownName(named(&rt, "q")),
        "error unknown-name q\n",
    );
    refused(&rt, alloc, Refusal::Field(4), "error field 4\n");
    refused(&rt, alloc, Refusal::Degree(17), "error degree 17\n");
    refused(&rt, alloc, Refusal::Simplex(1), "error simplex 1\n");
    refused(
        &rt,
        alloc,
        Refusal::Over(None, Kind::Letters, 65),
        "error over letters 65\n",
    );
    refused(
        &rt,
        alloc,
        Refusal::Over(None, Kind::Integer, 100_001),
        "error over integer 100001\n",
    );
    refused(
        &rt,
        alloc,
        Refusal::Over(None, Kind::Terms, 59_999),
        "error over terms 59999\n",
    );
}

#[test]
fn refusals_of_spaces(rt: HostRuntime) {
    let alloc = rt.alloc();
    refused(&rt, alloc, Refusal::NoVertex, "error table no-vertex\n");
    refused(
        &rt,
        alloc,
        Refusal::BadDimension(3),
        "error table bad-dimension 3\n",
    );
    refused(
        &rt,
        alloc,
        Refusal::UnknownCell(2, 0),
        "error table unknown-cell 2 0\n",
    );
    refused(
        &rt,
        alloc,
        Refusal::FaceLaw(3, 0, 2),
        "error table face-law 3 0 2\n",
    );
    refused(
        &rt,
        alloc,
        Refusal::TooManyCells(257),
        "error table too-many-cells 257\n",
    );
    refused(
        &rt,
        alloc,
        Refusal::DuplicateCell(1),
        "error table duplicate-cell 1\n",
    );
    refused(
        &rt,
        alloc,
        Refusal::CocycleUnknown(1),
        "error cocycle unknown-cell 1\n",
    );
    refused(
        &rt,
        alloc,
        Refusal::CocycleRepeated(2),
        "error cocycle repeated-cell 2\n",
    );
    refused(
        &rt,
        alloc,
        Refusal::NotClosed(2, -1),
        "error cocycle not-closed 2 -1\n",
    );
    refused(&rt, alloc, Refusal::TooDeep(9), "error term too-deep 9\n");
    refused(
        &rt,
        alloc,
        Refusal::NotOneVertex(2),
        "error term not-one-vertex 2\n",
    );
    refused(
        &rt,
        alloc,
        Refusal::NotOneReduced(1),
        "error term not-one-reduced 1\n",
    );
    refused(
        &rt,
        alloc,
        Refusal::BaseNotTable,
        "error term base-not-table\n",
    );
    refused(
        &rt,
        alloc,
        Refusal::BadSphere(0),
        "error term bad-sphere 0\n",
    );
}
