// The depth of a term, its vertices and the lowest degree with a simplex that is not degenerate.
ghost use Rattle.std.specs.Prelude.{◌≡◌, ◌==◌, ℕ, suc, ◌-◌, ◌<◌, ◌≤◌, min, None, IfSome};
ghost use Rattle.std.specs.Option.{option_map};
ghost use Rattle.spaces.specs.Allowed.{IsAllowed, space_depth};
ghost use Rattle.spaces.specs.Counts.{HasVertices, IsLow, vertex_count, vertex_rows, lesser, row_low, low_of, table_low};
ghost use Rattle.spaces.specs.Spaces.{set_of};
ghost use Rattle.term_lang.specs.Rows.{rows_of};
ghost use Rattle.term_lang.specs.SpaceOf.{space_of};

use crate::tables::{Row, Table};
use crate::terms::Term;

/// The depth of a term, or 4,294,967,295 where it is larger: 1 for a table, a sphere and K(Z,1), 2
/// for a bundle, and one more than its deepest part for every other term.
#[tactic(auto, using(crate::proofs::TermMeasures::depth_steps))]
pub fn depth(t: &Term) -> u32
    ensures { result ≡ min (space_depth (space_of t.now)) 4294967295 }
{
    match t {
        Term::Table(_) => 1,
        Term::Sphere(_) => 1,
        Term::Product(a, b) => depth(a.get()).max(depth(b.get())).saturating_add(1),
        Term::Suspension(a) => depth(a.get()).saturating_add(1),
        Term::KZ1 => 1,
        Term::Bundle(_, _) => 2,
        Term::Loop(a) => depth(a.get()).saturating_add(1),
        Term::Path(a) => depth(a.get()).saturating_add(1),
    }
}

/// The number from which on vertices are no longer counted.
const MOST_VERTICES: u64 = 65536;

fn table_vertices(table: &Table) -> u64
    ensures count { result ≡ vertex_rows (rows_of table.now) }
    ensures small { result ≤ 256 }
{
    table
        .rows()
        .as_slice()
        .iter()
        .filter(|row| row.dim == 0)
        .count() as u64
}

#[tactic(auto, using(crate::proofs::TermMeasures::vertex_steps))]
fn count_vertices(t: &Term) -> u64
    ensures { result ≡ min (vertex_count (space_of t.now)) 65536 }
{
    match t {
        Term::Table(table) => table_vertices(table),
        Term::Sphere(_) => 1,
        Term::Product(a, b) => (count_vertices(a.get()) * count_vertices(b.get())).min(
            MOST_VERTICES,
        ),
        Term::Suspension(_) => 1,
        Term::KZ1 => 1,
        Term::Bundle(base, _) => table_vertices(base),
        Term::Loop(_) => 1,
        Term::Path(a) => count_vertices(a.get()),
    }
}

/// The number of vertices of an allowed term, or 65,536 where it is larger.
pub fn vertices(t: &Term) -> u64
    requires { IsAllowed (space_of t.now) }
    ensures count { result ≡ min (vertex_count (space_of t.now)) 65536 }
    ensures vertices { (n : ℕ) × HasVertices (set_of (space_of t.now)) n × (result ≡ min n 65536) }
{
    count_vertices(t)
}

fn lesser_low(a: Option<u32>, b: Option<u32>) -> Option<u32>
    ensures { result ≡ lesser a b }
{
    match (a, b) {
        (Some(a), Some(b)) => Some(a.min(b)),
        (Some(a), None) => Some(a),
        (None, b) => b,
    }
}

fn raised(low: Option<u32>) -> Option<u32>
    requires { IfSome low (λ n. n < 100) }
    ensures { result ≡ option_map suc low }
{
    match low {
        Some(n) => Some(n + 1),
        None => None,
    }
}

fn lowered(low: Option<u32>) -> Option<u32>
    ensures { result ≡ option_map (λ n. n - 1) low }
{
    match low {
        Some(n) => Some(n.saturating_sub(1)),
        None => None,
    }
}

fn lesser_row(low: Option<u32>, row: &Row) -> Option<u32>
    ensures { result ≡ lesser low (row_low row.now.dim None) }
{
    if row.dim == 0 {
        low
    } else {
        lesser_low(low, Some(row.dim))
    }
}

#[tactic(auto, using(crate::proofs::TermMeasures::low_more))]
fn lowest_row(table: &Table) -> Option<u32>
    ensures { result ≡ table_low (rows_of table.now) }
{
    let mut low = None;
    for row in table.rows().as_slice() {
        low = lesser_row(low, row);
    }
    low
}

#[tactic(auto, using(crate::proofs::TermMeasures::low_steps))]
fn lowest(t: &Term) -> Option<u32>
    requires { IsAllowed (space_of t.now) }
    ensures { result ≡ low_of (space_of t.now) }
{
    match t {
        Term::Table(table) => lowest_row(table),
        Term::Sphere(n) => Some(*n),
        Term::Product(a, b) => lesser_low(lowest(a.get()), lowest(b.get())),
        Term::Suspension(a) => raised(lowest(a.get())),
        Term::KZ1 => Some(1),
        Term::Bundle(_, _) => Some(1),
        Term::Loop(a) => lowered(lowest(a.get())),
        Term::Path(a) => {
            let low = lowest(a.get());
            lesser_low(low, lowered(low))
        }
    }
}

/// The least positive degree in which an allowed term has a simplex that is not degenerate, or None
/// where there is none.
pub fn low(t: &Term) -> Option<u32>
    requires { IsAllowed (space_of t.now) }
    ensures value { result ≡ low_of (space_of t.now) }
    ensures lowest { IsLow (set_of (space_of t.now)) result }
{
    lowest(t)
}
