use crate::answers::{crosses, is};
use cells::{
    Cell, Letter, LetterList, Simplex, SmallCell, copy_cell, copy_letters, copy_simplex,
    copy_small, degree, small_degree,
};
use seqs::{Box, new_seq};
use simp_ops::Degens;
use std::alloc::{AllocError, Global};
use std::test::Fail;

// s_2 s_0 of the suspended top cell of the 2-sphere, in degree 5.
fn suspended(alloc: Global) -> Result<Simplex, AllocError> {
    let below = Box::new(alloc, Cell::Top(2))?;
    Ok(Simplex {
        degens: Degens { mask: 0b101 },
        cell: Cell::Up(below),
    })
}

#[test]
fn copies_and_clones_of_a_simplex_equal_it(rt: HostRuntime) -> Result<(), Fail> {
    let simplex = suspended(rt.alloc())?;
    assert_eq!(rt; degree(&simplex), 5);
    assert!(rt; is(copy_simplex(rt.alloc(), &simplex), &simplex));
    assert!(rt; is(copy_cell(rt.alloc(), &simplex.cell), &simplex.cell));
    assert!(rt; is(simplex.clone(), &simplex));
    crosses(&simplex);
    Ok(())
}

fn word(alloc: Global) -> Result<LetterList, AllocError> {
    let mut letters = new_seq(alloc);
    letters.push(Letter {
        inverse: true,
        simplex: suspended(alloc)?,
    })?;
    Ok(letters)
}

#[test]
fn copy_of_a_word_equals_it(rt: HostRuntime) -> Result<(), Fail> {
    let letters = word(rt.alloc())?;
    assert!(rt; is(copy_letters(rt.alloc(), &letters), &letters));
    Ok(())
}

fn small(alloc: Global) -> Result<SmallCell, AllocError> {
    let below = Box::new(alloc, SmallCell::One(Cell::Top(2)))?;
    Ok(SmallCell::Up(below))
}

#[test]
fn copy_and_clone_of_a_small_cell_equal_it(rt: HostRuntime) -> Result<(), Fail> {
    let small = small(rt.alloc())?;
    assert_eq!(rt; small_degree(&small), 3);
    assert!(rt; is(copy_small(rt.alloc(), &small), &small));
    assert!(rt; is(small.clone(), &small));
    crosses(&small);
    Ok(())
}
