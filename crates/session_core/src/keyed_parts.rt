// A cycle in its parts, by asking.
ghost use Rattle.std.specs.Prelude.{◌≡◌, ◌+◌, ◌<◌, ◌^◌, [], ◌∷◌, IfOk};
ghost use Rattle.std.specs.List.Sorted.{IsStrictlySortedBy};
ghost use Rattle.cells.specs.Small.{small_cmp};
ghost use Rattle.homology_rules.specs.Asking.{MayForceEach, AskedFirst};
ghost use Rattle.homology_rules.specs.Degrees.{cells_at};
ghost use Rattle.session_core.specs.Along.{ComesAlong};
ghost use Rattle.session_core.specs.Dimensions.{AreDegrees};
ghost use Rattle.session_core.specs.KeyedParts.{cycles_key_of, keys_of_degrees, keys_before, keys_of_express, IsExpressed, AreFound};

use crate::answered::Answered;
use crate::degrees::{TwoDegrees, ask_two_degrees};
use crate::filling::fill;
use crate::images::{Images, ask_images};
use crate::parts_of_cycles::Expressed;
use chain_core::Chain;
use homology_rules::{Answers, ask_all};
use oracle_iface::{Forcer, Key, Op, Place};
use std::alloc::{AllocError, Global};
use term_lang::Cell;

/// What is asked for before G: the small cells of a degree and of the next one with their small differentials,
/// and F and H of a chain.
#[derive(Debug, Drop)]
pub struct Found {
    pub degrees: TwoDegrees,
    pub images: Images,
}

/// The key of the listed cycles of a degree, of the space of a key and over its field.
fn cycles_key(key: &Key, n: u32) -> Result<Key, AllocError>
    ensures { IfOk result (λ k. k ≡ cycles_key_of key.now n) }
{
    Ok(Key {
        op: Op::Cycles,
        prime: key.prime,
        place: Place::Degree(n),
        term: key.term.clone()?,
    })
}

/// Asks for the listed cycles of a degree.
fn ask_cycles<F: Forcer>(
    alloc: Global,
    key: &Key,
    n: u32,
    forcer: &mut F,
) -> Result<Answered<()>, AllocError>
    requires { MayForceEach F.may_force F.forces forcer.old (cycles_key_of key.now n ∷ []) }
    ensures asked { AskedFirst F.forces (cycles_key_of key.now n ∷ []) forcer.old forcer.new }
    ensures answer { IfOk result (λ a. ComesAlong F.forces (cycles_key_of key.now n ∷ []) (λ u. Unit {0}) forcer.old forcer.new a) }
{
    let mut keys = Vec::new(alloc);
    keys.push(cycles_key(key, n)?)?;
    match ask_all(alloc, &keys, forcer)? {
        Answers::Over(over) => Ok(Answered::Over(over)),
        Answers::Values(_) => Ok(Answered::Told(())),
    }
}

/// Asks for the listed cycles of a degree, and then for the small cells of the degree and of the next one with
/// their small differentials, up to the first refusal.
fn ask_degrees<F: Forcer>(
    alloc: Global,
    key: &Key,
    n: u32,
    forcer: &mut F,
) -> Result<Answered<TwoDegrees>, AllocError>
    requires degree { n + 1 < 2 ^ 32 }
    requires forcer { MayForceEach F.may_force F.forces forcer.old (keys_of_degrees key.now n) }
    ensures asked { AskedFirst F.forces (keys_of_degrees key.now n) forcer.old forcer.new }
    ensures answer { IfOk result (λ a. ComesAlong F.forces (keys_of_degrees key.now n) (λ d. AreDegrees F.forces key.now n d) forcer.old forcer.new a) }
{
    match ask_cycles(alloc, key, n, forcer)? {
        Answered::Over(over) => return Ok(Answered::Over(over)),
        Answered::Told(()) => {}
    }
    match ask_two_degrees(alloc, key, n, forcer)? {
        Answered::Over(over) => Ok(Answered::Over(over)),
        Answered::Told(degrees) => Ok(Answered::Told(degrees)),
    }
}

/// Asks for what comes before G: the listed cycles, the two degrees, and F and H at the cells of a chain.
fn ask_found<F: Forcer>(
    alloc: Global,
    key: &Key,
    n: u32,
    z: &Chain<Cell>,
    forcer: &mut F,
) -> Result<Answered<Found>, AllocError>
    requires degree { n + 1 < 2 ^ 32 }
    requires prime { z.now.prime ≡ key.now.prime }
    requires forcer { MayForceEach F.may_force F.forces forcer.old (keys_before key.now n z.now.terms) }
    ensures asked { AskedFirst F.forces (keys_before key.now n z.now.terms) forcer.old forcer.new }
    ensures answer { IfOk result (λ a. ComesAlong F.forces (keys_before key.now n z.now.terms) (λ x. AreFound F.forces key.now n z.now.terms x) forcer.old forcer.new a) }
{
    let degrees = match ask_degrees(alloc, key, n, forcer)? {
        Answered::Over(over) => return Ok(Answered::Over(over)),
        Answered::Told(degrees) => degrees,
    };
    match ask_images(alloc, key, z, forcer)? {
        Answered::Over(over) => Ok(Answered::Over(over)),
        Answered::Told(images) => Ok(Answered::Told(Found { degrees, images })),
    }
}

/// The parts of a cycle of degree n of the space of a key, over its field: its coefficients over the listed
/// cycles, and a chain whose boundary is the rest. Asks for the listed cycles, for the small cells of the degree
/// and of the next one with their small differentials, for F and H at the cells of the cycle, and for G at the
/// small cells of the filling, up to the first refusal.
pub(crate) fn express_by_asking<F: Forcer>(
    alloc: Global,
    key: &Key,
    n: u32,
    z: &Chain<Cell>,
    forcer: &mut F,
) -> Result<Answered<Expressed>, AllocError>
    requires degree { n + 1 < 2 ^ 32 }
    requires prime { z.now.prime ≡ key.now.prime }
    requires rising { IsStrictlySortedBy small_cmp (cells_at key.now n) }
    requires forcer { MayForceEach F.may_force F.forces forcer.old (keys_of_express key.now n z.now.terms) }
    ensures asked { AskedFirst F.forces (keys_of_express key.now n z.now.terms) forcer.old forcer.new }
    ensures answer { IfOk result (λ a. ComesAlong F.forces (keys_of_express key.now n z.now.terms) (λ x. IsExpressed key.now n z.now.terms x) forcer.old forcer.new a) }
{
    let found = match ask_found(alloc, key, n, z, forcer)? {
        Answered::Over(over) => return Ok(Answered::Over(over)),
        Answered::Told(found) => found,
    };
    let Found { degrees, images } = found;
    match fill(alloc, key, n, &degrees, images, forcer)? {
        Answered::Over(over) => Ok(Answered::Over(over)),
        Answered::Told(expressed) => Ok(Answered::Told(expressed)),
    }
}
