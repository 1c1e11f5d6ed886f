// Rows over a field F_p, of which only the entries that are not 0 are kept.
ghost use Rattle.std.specs.Prelude.{◌≡◌, ◌<◌, [], ◌∷◌, ◌++◌, length, slice_get, slice_set, All, IfOk, OnOk, OnErr};
ghost use Rattle.std.specs.Option.{option_copied};
ghost use Rattle.std.specs.Ordering.{nat_cmp};
ghost use Rattle.fp_field.specs.Field.{number, plus, minus};
ghost use Rattle.fp_field.specs.Normal.{IsNormal};
ghost use Rattle.chain_core.specs.Formal.{numbers};
ghost use Rattle.echelons.specs.Echelon.{IsVector, at_place, zeros, lead, vector_plus, multiple};
ghost use Rattle.elim_fp.specs.Rows.{numbers_of, dense, IsRow};

use chain_core::Chain;
use fp_field::{Fp, Prime, neg};
use std::alloc::{AllocError, Global};
use std::marker::Model;

/// A row over F_p: a prime and a number at each place below its width.
#[derive(Debug, Drop)]
pub struct FpRow {
    width: usize,
    entries: Chain<usize>,
}

impl Model for FpRow {
    ghost use Rattle.fp_field.specs.Field.{number};
    ghost use Rattle.elim_fp.specs.Rows.{DenseRow, dense};

    ghost Value = { DenseRow };

    ghost view = { λ r. record { prime = r.entries.prime; values = dense (number r.entries.prime) r.width r.entries.terms } };
}

impl FpRow {
    /// The zero row of a width.
    pub fn zero(alloc: Global, p: Prime, width: usize) -> FpRow
        ensures prime { result.prime ≡ p }
        ensures values { result.values ≡ zeros width }
    {
        FpRow {
            width,
            entries: Chain::new(alloc, p),
        }
    }

    /// The prime of the field.
    pub fn prime(&self) -> Prime
        ensures { result ≡ self.now.prime }
    {
        self.entries.prime()
    }

    /// The number of places.
    pub fn width(&self) -> usize
        ensures width { result ≡ length self.now.values }
        ensures vector { IsVector (number self.now.prime) result self.now.values }
    {
        self.width
    }

    /// The value at a place below the width.
    pub fn entry(&self, place: usize) -> Fp
        requires { place < length self.now.values }
        ensures value { result.value ≡ at_place self.now.values place }
        ensures element { result.value < number self.now.prime }
    {
        self.entries.coeff(&place)
    }

    /// The entries that are kept, each a place and the value there. A place past the width counts for nothing.
    pub fn terms(&self) -> &[(usize, Fp)]
        ensures values { self.now.values ≡ dense (number self.now.prime) (length self.now.values) (numbers result.now) }
        ensures normal { IsNormal nat_cmp (number self.now.prime) (numbers result.now) }
        ensures elements { All (λ t. t.1.value < number self.now.prime) result.now }
    {
        self.entries.terms()
    }

    /// Adds c to the value at a place below the width.
    pub fn add_entry(&mut self, place: usize, c: Fp) -> Result<(), AllocError>
        requires place { place < length self.old.values }
        requires element { c.value < number self.old.prime }
        ensures entry { OnOk result (self.new.values ≡ slice_set self.old.values place (plus (number self.old.prime) (at_place self.old.values place) c.value)) }
        ensures prime { self.new.prime ≡ self.old.prime }
        ensures width { length self.new.values ≡ length self.old.values }
        ensures err { OnErr result (self.new ≡ self.old) }
    {
        self.entries.add_term(place, c)
    }

    /// The place of the first entry that is not 0, and of a zero row its width.
    pub fn lead(&self) -> usize
        ensures { result ≡ lead self.now.values }
    {
        match self.entries.terms().first() {
            Some((place, _)) if *place < self.width => *place,
            _ => self.width,
        }
    }

    /// Takes c times the other row away. After a refusal the row must be given up.
    pub fn take_away(&mut self, other: &FpRow, c: Fp) -> Result<(), AllocError>
        requires prime { other.now.prime ≡ self.old.prime }
        requires width { length other.now.values ≡ length self.old.values }
        requires element { c.value < number self.old.prime }
        ensures difference { OnOk result (self.new.values ≡ vector_plus (number self.old.prime) self.old.values (multiple (number self.old.prime) (minus (number self.old.prime) c.value) other.now.values)) }
        ensures prime { self.new.prime ≡ self.old.prime }
        ensures width { length self.new.values ≡ length self.old.values }
    {
        self.entries
            .add_scaled(&other.entries, neg(other.prime(), c))
    }

    /// Multiplies each entry by c.
    pub fn scale(&mut self, c: Fp)
        requires { c.value < number self.old.prime }
        ensures values { self.new.values ≡ multiple (number self.old.prime) c.value self.old.values }
        ensures prime { self.new.prime ≡ self.old.prime }
    {
        self.entries.scale(c);
    }
}

impl Clone for FpRow {
    ghost is_clone = { λ a b. b ≡ a };

    fn clone(&self) -> Result<FpRow, AllocError> {
        Ok(FpRow {
            width: self.width,
            entries: self.entries.clone()?,
        })
    }
}

/// The row of these values.
pub fn row_of(alloc: Global, p: Prime, values: &[Fp]) -> Result<FpRow, AllocError>
    requires { All (λ a. a.value < number p) values.now }
    ensures prime { IfOk result (λ r. r.prime ≡ p) }
    ensures values { IfOk result (λ r. r.values ≡ numbers_of values.now) }
    ensures row { IfOk result (λ r. IsRow p (length values.now) r) }
{
    let mut entries = Chain::new(alloc, p);
    for place in 0..values.len() {
        entries.add_term(place, values[place])?;
    }
    Ok(FpRow {
        width: values.len(),
        entries,
    })
}

/// A list of rows.
#[derive(Debug, Drop)]
pub struct FpRowList {
    rows: Vec<FpRow>,
}

impl Model for FpRowList {
    ghost use Rattle.std.specs.Prelude.{List};
    ghost use Rattle.elim_fp.specs.Rows.{DenseRow};

    ghost Value = { List DenseRow };

    ghost view = { λ l. l.rows.items };
}

impl FpRowList {
    /// The empty list.
    pub fn new(alloc: Global) -> FpRowList
        ensures { result ≡ [] }
    {
        FpRowList {
            rows: Vec::new(alloc),
        }
    }

    /// The list of these rows.
    pub fn from_rows(rows: Vec<FpRow>) -> FpRowList
        ensures { result ≡ rows.items }
    {
        FpRowList { rows }
    }

    /// The number of rows.
    pub fn len(&self) -> usize
        ensures { result ≡ length self.now }
    {
        self.rows.len()
    }

    /// The row at a place, or None exactly where the place is not below the length.
    pub fn get(&self, i: usize) -> Option<&FpRow>
        ensures { option_copied result ≡ slice_get self.now i }
    {
        self.rows.get(i)
    }

    /// The rows in order.
    pub fn as_slice(&self) -> &[FpRow]
        ensures { result.now ≡ self.now }
    {
        &self.rows
    }

    /// Puts a row at the end.
    pub fn push(&mut self, row: FpRow) -> Result<(), AllocError>
        ensures ok { OnOk result (self.new ≡ self.old ++ row ∷ []) }
        ensures err { OnErr result (self.new ≡ self.old) }
    {
        self.rows.push(row)?;
        Ok(())
    }
}
