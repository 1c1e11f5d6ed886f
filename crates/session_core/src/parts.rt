// Spaces and degrees of a command.
ghost use Rattle.std.specs.Prelude.{◌≡◌, ◌≤◌, IfOk, IfErr};
ghost use Rattle.term_lang.specs.declared.terms.Term.TheVariants.{Suspension as SuspensionTerm, KZ1 as KZ1Term};
ghost use Rattle.term_lang.specs.SpaceOf.{space_of};
ghost use Rattle.session_core.specs.Answer.{told, is_unbuilt, table_refusal, named_space, told_table, told_sphere, term_refusal, told_whole, told_space, told_degree};
ghost use Rattle.session_core.specs.Telling.{Stops};
ghost use Rattle.session_core.specs.Whole.{IsReady};

use crate::fibrations::{told_bundle, told_product};
use crate::session_names::SessionNames;
use crate::stops::Stop;
use finite_sets::{TableFault, build_table};
use reply_text::Refusal;
use script_lang::Expr;
use seqs::{Arc, Box};
use std::alloc::Global;
use term_lang::{Name, RowTextList, Term, TermFault, check_term, copy_term};

/// Whether a space has a construction that is not built yet.
#[tactic(auto, using(crate::proofs::SpaceLayers::unbuilt_name, crate::proofs::SpaceLayers::unbuilt_sphere, crate::proofs::SpaceLayers::unbuilt_table, crate::proofs::SpaceLayers::unbuilt_product, crate::proofs::SpaceLayers::unbuilt_suspension, crate::proofs::SpaceLayers::unbuilt_integers, crate::proofs::SpaceLayers::unbuilt_loop, crate::proofs::SpaceLayers::unbuilt_path, crate::proofs::SpaceLayers::unbuilt_bundle))]
pub(crate) fn is_unbuilt(e: &Expr) -> bool
    ensures { result ≡ is_unbuilt e.now }
{
    match e {
        Expr::Name(_) => false,
        Expr::Sphere(_) => false,
        Expr::Product(a, b) => is_unbuilt(a.get()) || is_unbuilt(b.get()),
        Expr::Suspension(a) => is_unbuilt(a.get()),
        Expr::KZ1 => false,
        Expr::Loop(_) => true,
        Expr::Path(_) => true,
        Expr::Bundle(a, _) => is_unbuilt(a.get()),
        Expr::Table(_) => false,
    }
}

/// The term of a space as it is written.
#[tactic(auto, using(crate::proofs::SpaceLayers::space_name, crate::proofs::SpaceLayers::space_sphere, crate::proofs::SpaceLayers::space_table, crate::proofs::SpaceLayers::space_product, crate::proofs::SpaceLayers::space_suspension, crate::proofs::SpaceLayers::space_integers, crate::proofs::SpaceLayers::space_loop, crate::proofs::SpaceLayers::space_path, crate::proofs::SpaceLayers::space_bundle))]
pub(crate) fn told_space(alloc: Global, names: &SessionNames, e: &Expr) -> Result<Arc<Term>, Stop>
    ensures told { IfOk result (λ t. told_space names.now e.now ≡ told t) }
    ensures ready { IfOk result (λ t. IsReady (space_of t)) }
    ensures stops { IfErr result (λ s. Stops s (told_space names.now e.now)) }
{
    match e {
        Expr::Name(name) => named_space(names, name),
        Expr::Sphere(n) => told_sphere(alloc, *n),
        Expr::Product(a, b) => match told_space(alloc, names, a.get()) {
            Ok(left) => match told_space(alloc, names, b.get()) {
                Ok(right) => told_product(alloc, &left, &right),
                Err(stop) => Err(stop),
            },
            Err(stop) => Err(stop),
        },
        Expr::Suspension(a) => match told_space(alloc, names, a.get()) {
            Ok(part) => told_suspension(alloc, &part),
            Err(stop) => Err(stop),
        },
        Expr::KZ1 => told_integers(alloc),
        Expr::Loop(_) => Err(Stop::Refused(Refusal::NotBuilt)),
        Expr::Path(_) => Err(Stop::Refused(Refusal::NotBuilt)),
        Expr::Bundle(a, pairs) => match told_space(alloc, names, a.get()) {
            Ok(part) => told_bundle(alloc, &part, pairs),
            Err(stop) => Err(stop),
        },
        Expr::Table(rows) => told_table(alloc, rows),
    }
}

// The space that a name stands for.
fn named_space(names: &SessionNames, name: &Name) -> Result<Arc<Term>, Stop>
    ensures told { IfOk result (λ t. named_space names.now name.now ≡ told t) }
    ensures ready { IfOk result (λ t. IsReady (space_of t)) }
    ensures stops { IfErr result (λ s. Stops s (named_space names.now name.now)) }
{
    match names.get(name) {
        Some(term) => Ok(term.clone()?),
        None => Err(Stop::Refused(Refusal::UnknownName(*name))),
    }
}

// The sphere of a dimension from 1 to 16.
fn told_sphere(alloc: Global, n: u64) -> Result<Arc<Term>, Stop>
    ensures told { IfOk result (λ t. told_sphere n ≡ told t) }
    ensures ready { IfOk result (λ t. IsReady (space_of t)) }
    ensures stops { IfErr result (λ s. Stops s (told_sphere n)) }
{
    if n == 0 || n > 16 {
        return Err(Stop::Refused(Refusal::BadSphere(n)));
    }
    Ok(Arc::new(alloc, Term::Sphere(n as u32))?)
}

// K(Z,1).
fn told_integers(alloc: Global) -> Result<Arc<Term>, Stop>
    ensures told { IfOk result (λ t. told KZ1Term ≡ told t) }
    ensures ready { IfOk result (λ t. IsReady (space_of t)) }
    ensures stops { IfErr result (λ s. Stops s (told KZ1Term)) }
{
    Ok(Arc::new(alloc, Term::KZ1)?)
}

// The suspension of a space, unless it is too deep or the space has not one vertex.
fn told_suspension(alloc: Global, part: &Arc<Term>) -> Result<Arc<Term>, Stop>
    requires { IsReady (space_of part.now) }
    ensures told { IfOk result (λ t. told_whole (SuspensionTerm part.now) ≡ told t) }
    ensures ready { IfOk result (λ t. IsReady (space_of t)) }
    ensures stops { IfErr result (λ s. Stops s (told_whole (SuspensionTerm part.now))) }
{
    let copy = copy_term(alloc, part.get())?;
    let whole = Arc::new(alloc, Term::Suspension(Box::new(alloc, copy)?))?;
    match check_term(whole.get()) {
        Ok(()) => Ok(whole),
        Err(fault) => Err(Stop::Refused(term_refusal(fault))),
    }
}

/// The refusal of a term with this fault.
pub(crate) fn term_refusal(fault: TermFault) -> Refusal
    ensures { result ≡ term_refusal fault }
{
    match fault {
        TermFault::TooDeep(depth) => Refusal::TooDeep(depth),
        TermFault::NotOneVertex(count) => Refusal::NotOneVertex(count),
        TermFault::NotOneReduced(low) => Refusal::NotOneReduced(low),
        TermFault::BadSphere(n) => Refusal::BadSphere(n as u64),
        TermFault::BadCocycle(_) => Refusal::NotBuilt,
    }
}

// The table that rows mean.
fn told_table(alloc: Global, rows: &RowTextList) -> Result<Arc<Term>, Stop>
    ensures told { IfOk result (λ t. told_table rows.now ≡ told t) }
    ensures ready { IfOk result (λ t. IsReady (space_of t)) }
    ensures stops { IfErr result (λ s. Stops s (told_table rows.now)) }
{
    match build_table(alloc, rows) {
        Ok(table) => Ok(Arc::new(alloc, Term::Table(table))?),
        Err(TableFault::Memory) => Err(Stop::Memory),
        Err(fault) => Err(Stop::Refused(table_refusal(fault))),
    }
}

// The refusal of a table with this fault, which is not want of memory.
fn table_refusal(fault: TableFault) -> Refusal
    ensures { result ≡ table_refusal fault }
{
    match fault {
        TableFault::NoVertex => Refusal::NoVertex,
        TableFault::BadDimension(row) => Refusal::BadDimension(row),
        TableFault::UnknownCell(row, face) => Refusal::UnknownCell(row, face),
        TableFault::FaceLaw(row, i, j) => Refusal::FaceLaw(row, i, j),
        TableFault::TooManyCells(rows) => Refusal::TooManyCells(rows),
        TableFault::DuplicateCell(row) => Refusal::DuplicateCell(row),
        TableFault::Memory => Refusal::NotBuilt,
    }
}

/// A degree of at most 16.
pub(crate) fn told_degree(n: u64) -> Result<u32, Stop>
    ensures told { IfOk result (λ m. told_degree n ≡ told m) }
    ensures most { IfOk result (λ m. m ≤ 16) }
    ensures stops { IfErr result (λ s. Stops s (told_degree n)) }
{
    if n > 16 {
        return Err(Stop::Refused(Refusal::Degree(n)));
    }
    Ok(n as u32)
}
