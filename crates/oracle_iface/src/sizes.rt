// Sizes of cells and values.
ghost use Rattle.std.specs.Prelude.{◌≡◌, map};
ghost use Rattle.values.specs.Sizes.{greatest};
ghost use Rattle.chain_core.specs.Formal.{numbers};
ghost use Rattle.oracle_iface.specs.CodeSizes.{cell_letters, cell_integer, small_cell_letters, small_cell_integer, basis_size, small_terms_size, terms_size, body_size};

use crate::bodies::Body;
use crate::chains::ChainList;
use fp_field::Fp;
use term_lang::{Cell, SmallCell};

/// The size of a cell or a value.
#[derive(Clone, Copy, Debug, PartialEq, Eq)]
pub struct Size {
    /// The greatest number of letters of one word, at any depth.
    pub letters: u64,
    /// The greatest magnitude of an integer.
    pub integer: u64,
    /// The number of terms, of cells or of chains, or the greatest length of a chain of a list.
    pub terms: u64,
}

/// The greatest number of letters of one word in a cell.
#[tactic(auto, using(crate::proofs::SizeRules::letters_row, crate::proofs::SizeRules::letters_base, crate::proofs::SizeRules::letters_top, crate::proofs::SizeRules::letters_ints, crate::proofs::SizeRules::letters_pair, crate::proofs::SizeRules::letters_up, crate::proofs::SizeRules::letters_word))]
pub fn letters_of(c: &Cell) -> u64
    ensures { result ≡ cell_letters c.now }
{
    match c {
        Cell::Row(_, _) | Cell::Base | Cell::Top(_) | Cell::Ints(_) => 0,
        Cell::Pair(x, y) => letters_of(&x.get().cell).max(letters_of(&y.get().cell)),
        Cell::Up(c) => letters_of(c.get()),
        Cell::Word(letters) => {
            let mut most = letters.len() as u64;
            for letter in letters.as_slice() {
                most = most.max(letters_of(&letter.simplex.cell));
            }
            most
        }
    }
}

/// The greatest magnitude of an integer in a cell.
#[tactic(auto, using(crate::proofs::SizeRules::integer_row, crate::proofs::SizeRules::integer_base, crate::proofs::SizeRules::integer_top, crate::proofs::SizeRules::integer_ints, crate::proofs::SizeRules::integer_pair, crate::proofs::SizeRules::integer_up, crate::proofs::SizeRules::integer_word))]
pub fn integer_of(c: &Cell) -> u64
    ensures { result ≡ cell_integer c.now }
{
    match c {
        Cell::Row(_, _) | Cell::Base | Cell::Top(_) => 0,
        Cell::Pair(x, y) => integer_of(&x.get().cell).max(integer_of(&y.get().cell)),
        Cell::Up(c) => integer_of(c.get()),
        Cell::Ints(list) => {
            let mut most = 0;
            for k in list.as_slice() {
                most = most.max(k.unsigned_abs());
            }
            most
        }
        Cell::Word(letters) => {
            let mut most = 0;
            for letter in letters.as_slice() {
                most = most.max(integer_of(&letter.simplex.cell));
            }
            most
        }
    }
}

/// The greatest number of letters of one word in a small cell.
#[tactic(auto, using(crate::proofs::SizeRules::small_letters_one, crate::proofs::SizeRules::small_letters_pair, crate::proofs::SizeRules::small_letters_up, crate::proofs::SizeRules::small_letters_word))]
pub fn small_letters_of(y: &SmallCell) -> u64
    ensures { result ≡ small_cell_letters y.now }
{
    match y {
        SmallCell::One(c) => letters_of(c),
        SmallCell::Pair(x, y) => small_letters_of(x.get()).max(small_letters_of(y.get())),
        SmallCell::Up(y) => small_letters_of(y.get()),
        SmallCell::Word(letters) => {
            let mut most = letters.len() as u64;
            for letter in letters.as_slice() {
                most = most.max(small_letters_of(letter));
            }
            most
        }
    }
}

/// The greatest magnitude of an integer in a small cell.
#[tactic(auto, using(crate::proofs::SizeRules::small_integer_one, crate::proofs::SizeRules::small_integer_pair, crate::proofs::SizeRules::small_integer_up, crate::proofs::SizeRules::small_integer_word))]
pub fn small_integer_of(y: &SmallCell) -> u64
    ensures { result ≡ small_cell_integer y.now }
{
    match y {
        SmallCell::One(c) => integer_of(c),
        SmallCell::Pair(x, y) => small_integer_of(x.get()).max(small_integer_of(y.get())),
        SmallCell::Up(y) => small_integer_of(y.get()),
        SmallCell::Word(letters) => {
            let mut most = 0;
            for letter in letters.as_slice() {
                most = most.max(small_integer_of(letter));
            }
            most
        }
    }
}

// The size of a list of small cells.
fn cells_size(cells: &[SmallCell]) -> Size
    ensures letters { result.letters ≡ (basis_size cells.now).letters }
    ensures integer { result.integer ≡ (basis_size cells.now).integer }
    ensures terms { result.terms ≡ (basis_size cells.now).terms }
{
    let mut letters = 0;
    let mut integer = 0;
    for y in cells {
        letters = letters.max(small_letters_of(y));
        integer = integer.max(small_integer_of(y));
    }
    Size {
        letters,
        integer,
        terms: cells.len() as u64,
    }
}

// The size of a chain of the small complex.
fn small_chain_size(terms: &[(SmallCell, Fp)]) -> Size
    ensures letters { result.letters ≡ (small_terms_size (numbers terms.now)).letters }
    ensures integer { result.integer ≡ (small_terms_size (numbers terms.now)).integer }
    ensures terms { result.terms ≡ (small_terms_size (numbers terms.now)).terms }
{
    let mut letters = 0;
    let mut integer = 0;
    for (y, _) in terms {
        letters = letters.max(small_letters_of(y));
        integer = integer.max(small_integer_of(y));
    }
    Size {
        letters,
        integer,
        terms: terms.len() as u64,
    }
}

// The size of a chain of the space.
fn chain_size(terms: &[(Cell, Fp)]) -> Size
    ensures letters { result.letters ≡ (terms_size (numbers terms.now)).letters }
    ensures integer { result.integer ≡ (terms_size (numbers terms.now)).integer }
    ensures terms { result.terms ≡ (terms_size (numbers terms.now)).terms }
{
    let mut letters = 0;
    let mut integer = 0;
    for (x, _) in terms {
        letters = letters.max(letters_of(x));
        integer = integer.max(integer_of(x));
    }
    Size {
        letters,
        integer,
        terms: terms.len() as u64,
    }
}

// The size of a list of chains.
fn list_size(chains: &ChainList) -> Size
    ensures letters { result.letters ≡ greatest (λ c. (terms_size c.terms).letters) chains.now }
    ensures integer { result.integer ≡ greatest (λ c. (terms_size c.terms).integer) chains.now }
    ensures terms { result.terms ≡ greatest (λ c. (terms_size c.terms).terms) chains.now }
{
    let mut most = Size {
        letters: 0,
        integer: 0,
        terms: 0,
    };
    for chain in chains.as_slice() {
        let size = chain_size(chain.terms());
        most.letters = most.letters.max(size.letters);
        most.integer = most.integer.max(size.integer);
        most.terms = most.terms.max(size.terms);
    }
    most
}

/// The size of a value.
pub fn size_of(body: &Body) -> Size
    ensures letters { result.letters ≡ (body_size body.now).letters }
    ensures integer { result.integer ≡ (body_size body.now).integer }
    ensures terms { result.terms ≡ (body_size body.now).terms }
{
    match body {
        Body::Cells(cells) => cells_size(cells.as_slice()),
        Body::Small(chain) => small_chain_size(chain.terms()),
        Body::Big(chain) => chain_size(chain.terms()),
        Body::Many(chains) => {
            let mut size = list_size(chains);
            size.terms = size.terms.max(chains.len() as u64);
            size
        }
    }
}
