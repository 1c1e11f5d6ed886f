// Worked values over F_3.
ghost use Rattle.std.specs.Prelude.{◌≡◌, ◌<◌, [], ◌∷◌, true, All, IfOk};
ghost use Rattle.fp_field.specs.declared.prime.Prime.TheVariants.{Three};
ghost use Rattle.echelons.specs.Echelon.{Vector, IsVector, in_span};
ghost use Rattle.elim_fp.specs.Rows.{vectors_of, IsRow};

use crate::answers::{fails, is_shown};
use elim_fp::{
    Echelon, FpRow, FpRowList, SolveFault, complement, echelon, kernel, matrix_of, relations,
    row_of, solve,
};
use fp_field::{Fp, Prime};
use std::alloc::{AllocError, Global};

/// The row of two numbers over F_3.
fn pair(alloc: Global, a: u8, b: u8) -> Result<FpRow, AllocError>
    requires a_in { a < 3 }
    requires b_in { b < 3 }
    ensures row { IfOk result (λ r. IsRow Three 2 r) }
    ensures values { IfOk result (λ r. r.values ≡ a ∷ b ∷ []) }
{
    row_of(alloc, Prime::Three, &[Fp { value: a }, Fp { value: b }])
}

/// The list of two rows over F_3.
fn both(alloc: Global, first: FpRow, second: FpRow) -> Result<FpRowList, AllocError>
    requires first { IsRow Three 2 first }
    requires second { IsRow Three 2 second }
    ensures rows { IfOk result (λ l. All (IsRow Three 2) l) }
    ensures list { IfOk result (λ l. l ≡ first ∷ second ∷ []) }
{
    let mut rows = FpRowList::new(alloc);
    rows.push(first)?;
    rows.push(second)?;
    Ok(rows)
}

/// The line that (2,1) and (1,2) span.
fn line(alloc: Global) -> Result<Echelon, AllocError>
    ensures prime { IfOk result (λ e. e.prime ≡ Three) }
    ensures width { IfOk result (λ e. e.width ≡ 2) }
{
    let rows = both(alloc, pair(alloc, 2, 1)?, pair(alloc, 1, 2)?)?;
    echelon(alloc, &matrix_of(Prime::Three, 2, rows))
}

/// The whole plane.
fn plane(alloc: Global) -> Result<Echelon, AllocError>
    ensures prime { IfOk result (λ e. e.prime ≡ Three) }
    ensures width { IfOk result (λ e. e.width ≡ 2) }
    ensures every { IfOk result (λ e. (v : Vector) → IsVector 3 2 v → in_span 3 2 e.rows v ≡ true) }
{
    let rows = both(alloc, pair(alloc, 1, 0)?, pair(alloc, 0, 1)?)?;
    let plane = echelon(alloc, &matrix_of(Prime::Three, 2, rows))?;
    Ok(plane)
}

/// Whether a row has these two numbers.
fn is_pair(row: &FpRow, a: u8, b: u8) -> bool {
    row.width() == 2 && row.entry(0).value == a && row.entry(1).value == b
}

/// Whether a basis came, of this one row.
fn is_line(answer: Result<Echelon, AllocError>, a: u8, b: u8) -> bool {
    match answer {
        Ok(basis) => basis.rows().len() == 1
            && basis.rows().as_slice().iter().all(|row| is_pair(row, a, b)),
        Err(_) => false,
    }
}

/// What is left of the plane beside the line.
fn beside_the_line(alloc: Global) -> Result<Echelon, AllocError> {
    let plane = plane(alloc)?;
    let line = line(alloc)?;
    complement(alloc, &plane, &line)
}

/// The kernel of the row (1,1).
fn kernel_of_a_row(alloc: Global) -> Result<Echelon, AllocError> {
    let mut rows = FpRowList::new(alloc);
    rows.push(pair(alloc, 1, 1)?)?;
    kernel(alloc, &matrix_of(Prime::Three, 2, rows))
}

/// The relations of (2,1) and (1,2).
fn relations_of_two_rows(alloc: Global) -> Result<Echelon, AllocError> {
    let rows = both(alloc, pair(alloc, 2, 1)?, pair(alloc, 1, 2)?)?;
    relations(alloc, &matrix_of(Prime::Three, 2, rows))
}

#[test]
fn lines_in_the_plane(rt: HostRuntime) {
    assert!(rt; is_line(line(rt.alloc()), 1, 2));
    assert!(rt; is_line(beside_the_line(rt.alloc()), 0, 1));
    assert!(rt; is_line(kernel_of_a_row(rt.alloc()), 1, 2));
    assert!(rt; is_line(relations_of_two_rows(rt.alloc()), 1, 1));
}

/// The coefficients of a pair over the line.
fn over_the_line(alloc: Global, a: u8, b: u8) -> Result<FpRow, SolveFault>
    requires a_in { a < 3 }
    requires b_in { b < 3 }
{
    let Ok(line) = line(alloc) else {
        return Err(SolveFault::Memory);
    };
    let Ok(pair) = pair(alloc, a, b) else {
        return Err(SolveFault::Memory);
    };
    solve(alloc, &line, &pair)
}

/// Whether coefficients came, this one alone.
fn is_number(answer: Result<FpRow, SolveFault>, a: u8) -> bool {
    match answer {
        Ok(row) => row.width() == 1 && row.entry(0).value == a,
        Err(_) => false,
    }
}

#[test]
fn coefficients_over_the_line(rt: HostRuntime) {
    assert!(rt; is_number(over_the_line(rt.alloc(), 2, 1), 2));
    assert!(rt; fails(over_the_line(rt.alloc(), 0, 1), SolveFault::NotIn(1)));
}

#[test]
fn faults_are_shown_by_their_names(rt: HostRuntime) {
    assert!(rt; is_shown(rt.alloc(), SolveFault::NotIn(1), "NotIn"));
    assert!(rt; is_shown(rt.alloc(), SolveFault::Memory, "Memory"));
}
