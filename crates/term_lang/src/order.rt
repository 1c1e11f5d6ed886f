// The order of tables, and that of terms: by kind, then by contents.
ghost use Rattle.std.specs.Prelude.{◌≡◌};
ghost use Rattle.cells.specs.Forests.{forest_cmp};
ghost use Rattle.cells.specs.Order.{ints_forest};
ghost use Rattle.term_lang.specs.TermOrder.{kind_of};

use crate::tables::Table;
use crate::terms::Term;
use cells::IntList;
use std::cmp::Ordering;

// The place of a term's variant in the order of the enum.
pub(crate) fn kind(t: &Term) -> u8
    ensures { result ≡ kind_of t.now }
{
    match t {
        Term::Table(_) => 0,
        Term::Sphere(_) => 1,
        Term::Product(_, _) => 2,
        Term::Suspension(_) => 3,
        Term::KZ1 => 4,
        Term::Bundle(_, _) => 5,
        Term::Loop(_) => 6,
        Term::Path(_) => 7,
    }
}

fn cmp_values(a: &IntList, b: &IntList) -> Ordering
    ensures { result ≡ forest_cmp (ints_forest a.now) (ints_forest b.now) }
{
    a.cmp(b)
}

impl Ord for Table {
    ghost use Rattle.term_lang.specs.TermOrder.{table_cmp, table_total, table_agrees, table_ties};

    ghost cmp = { table_cmp };

    ghost total = { table_total };

    ghost matches_partial_cmp = { table_agrees };

    ghost matches_eq = { table_ties };

    fn cmp(&self, other: &Table) -> Ordering {
        if self == other {
            return Ordering::Equal;
        }
        self.rows().as_slice().cmp(other.rows().as_slice())
    }
}

impl PartialOrd for Table {
    ghost use Rattle.std.specs.Ordering.{as_partial_cmp};
    ghost use Rattle.term_lang.specs.TermOrder.{table_cmp, table_po};

    ghost partial_cmp = { as_partial_cmp table_cmp };

    ghost laws = { table_po };

    fn partial_cmp(&self, other: &Table) -> Option<Ordering> {
        Some(self.cmp(other))
    }
}

impl Ord for Term {
    ghost use Rattle.term_lang.specs.TermOrder.{term_cmp, term_total, term_agrees, term_ties};

    ghost cmp = { term_cmp };

    ghost total = { term_total };

    ghost matches_partial_cmp = { term_agrees };

    ghost matches_eq = { term_ties };

    fn cmp(&self, other: &Term) -> Ordering {
        let by_kind = kind(self).cmp(&kind(other));
        if by_kind.is_ne() {
            return by_kind;
        }
        match (self, other) {
            (Term::Table(a), Term::Table(b)) => a.cmp(b),
            (Term::Sphere(m), Term::Sphere(n)) => m.cmp(n),
            (Term::Product(a, x), Term::Product(b, y)) => match a.get().cmp(b.get()) {
                Ordering::Equal => x.get().cmp(y.get()),
                unequal => unequal,
            },
            (Term::Suspension(a), Term::Suspension(b)) => a.get().cmp(b.get()),
            (Term::KZ1, Term::KZ1) => Ordering::Equal,
            (Term::Bundle(a, v), Term::Bundle(b, w)) => a.cmp(b).then(cmp_values(v, w)),
            (Term::Loop(a), Term::Loop(b)) => a.get().cmp(b.get()),
            (Term::Path(a), Term::Path(b)) => a.get().cmp(b.get()),
            _ => by_kind,
        }
    }
}

impl PartialOrd for Term {
    ghost use Rattle.std.specs.Ordering.{as_partial_cmp};
    ghost use Rattle.term_lang.specs.TermOrder.{term_cmp, term_po};

    ghost partial_cmp = { as_partial_cmp term_cmp };

    ghost laws = { term_po };

    fn partial_cmp(&self, other: &Term) -> Option<Ordering> {
        Some(self.cmp(other))
    }
}
