// Matrices and reduced echelon bases.
ghost use Rattle.std.specs.Prelude.{◌≡◌, ◌<◌, ◌^◌, All};
ghost use Rattle.fp_field.specs.Field.{number};
ghost use Rattle.echelons.specs.Echelon.{IsReducedEchelon};
ghost use Rattle.elim_fp.specs.Rows.{vectors_of, IsRow};

use crate::rows::FpRowList;
use fp_field::Prime;
use std::marker::Model;

/// A matrix over F_p: rows of one width, which is below 2^63.
#[derive(Debug, Drop)]
pub struct Matrix {
    prime: Prime,
    width: usize,
    rows: FpRowList,
}

impl Model for Matrix {
    ghost use Rattle.std.specs.Prelude.{◌<◌, ◌^◌, All};
    ghost use Rattle.elim_fp.specs.Rows.{DenseRows, vectors_of, IsRow};

    ghost Value = { DenseRows };

    ghost view = { λ m. record { prime = m.prime; width = m.width; rows = vectors_of m.rows } };

    ghost invariant = { λ m. (m.width < 2 ^ 63) × All (IsRow m.prime m.width) m.rows };
}

/// A reduced echelon basis of a subspace of the vectors of one width, which is below 2^63.
#[derive(Debug, Drop)]
pub struct Echelon {
    prime: Prime,
    width: usize,
    rows: FpRowList,
}

impl Model for Echelon {
    ghost use Rattle.std.specs.Prelude.{◌≡◌, ◌<◌, ◌^◌, All};
    ghost use Rattle.fp_field.specs.Field.{number};
    ghost use Rattle.echelons.specs.Echelon.{IsReducedEchelon};
    ghost use Rattle.elim_fp.specs.Rows.{DenseRows, vectors_of};

    ghost Value = { DenseRows };

    ghost view = { λ e. record { prime = e.prime; width = e.width; rows = vectors_of e.rows } };

    ghost invariant = { λ e. (e.width < 2 ^ 63) × IsReducedEchelon (number e.prime) e.width (vectors_of e.rows) × All (λ r. r.prime ≡ e.prime) e.rows };
}

/// The matrix of these rows.
pub fn matrix_of(p: Prime, width: usize, rows: FpRowList) -> Matrix
    requires narrow { width < 2 ^ 63 }
    requires rows { All (IsRow p width) rows }
    ensures prime { result.prime ≡ p }
    ensures width { result.width ≡ width }
    ensures rows { result.rows ≡ vectors_of rows }
{
    Matrix {
        prime: p,
        width,
        rows,
    }
}

impl Matrix {
    /// The prime of the field.
    pub fn prime(&self) -> Prime
        ensures { result ≡ self.now.prime }
    {
        self.prime
    }

    /// The width of the rows.
    pub fn width(&self) -> usize
        ensures width { result ≡ self.now.width }
        ensures narrow { self.now.width < 2 ^ 63 }
    {
        self.width
    }

    /// The rows in order.
    pub fn rows(&self) -> &FpRowList
        ensures rows { vectors_of result.now ≡ self.now.rows }
        ensures each { All (IsRow self.now.prime self.now.width) result.now }
    {
        &self.rows
    }
}

/// The basis of these rows, which are a reduced echelon list.
pub fn basis_of(p: Prime, width: usize, rows: FpRowList) -> Echelon
    requires narrow { width < 2 ^ 63 }
    requires primes { All (λ r. r.prime ≡ p) rows }
    requires echelon { IsReducedEchelon (number p) width (vectors_of rows) }
    ensures prime { result.prime ≡ p }
    ensures width { result.width ≡ width }
    ensures rows { result.rows ≡ vectors_of rows }
{
    Echelon {
        prime: p,
        width,
        rows,
    }
}

impl Echelon {
    /// The prime of the field.
    pub fn prime(&self) -> Prime
        ensures { result ≡ self.now.prime }
    {
        self.prime
    }

    /// The width of the rows.
    pub fn width(&self) -> usize
        ensures width { result ≡ self.now.width }
        ensures narrow { self.now.width < 2 ^ 63 }
    {
        self.width
    }

    /// The rows in order of leading places.
    pub fn rows(&self) -> &FpRowList
        ensures narrow { self.now.width < 2 ^ 63 }
        ensures rows { vectors_of result.now ≡ self.now.rows }
        ensures primes { All (λ r. r.prime ≡ self.now.prime) result.now }
        ensures echelon { IsReducedEchelon (number self.now.prime) self.now.width self.now.rows }
    {
        &self.rows
    }
}
