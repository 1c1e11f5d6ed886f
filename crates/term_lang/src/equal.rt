// Whether tables and terms are equal. Tables are told apart by their marks, and then by their codes.
use crate::order::kind;
use crate::tables::Table;
use crate::terms::Term;

impl PartialEq for Table {
    ghost use Rattle.std.specs.Ordering.{eq_by_cmp};
    ghost use Rattle.term_lang.specs.TermOrder.{table_cmp, table_per};

    ghost eq = { eq_by_cmp table_cmp };

    ghost laws = { table_per };

    fn eq(&self, other: &Table) -> bool {
        self.mark() == other.mark() && self.code() == other.code()
    }
}

impl Eq for Table {
    ghost use Rattle.term_lang.specs.TermOrder.{table_equiv};

    ghost laws = { table_equiv };
}

impl PartialEq for Term {
    ghost use Rattle.std.specs.Ordering.{eq_by_cmp};
    ghost use Rattle.term_lang.specs.TermOrder.{term_cmp, term_per};

    ghost eq = { eq_by_cmp term_cmp };

    ghost laws = { term_per };

    fn eq(&self, other: &Term) -> bool {
        if kind(self) != kind(other) {
            return false;
        }
        match (self, other) {
            (Term::Table(a), Term::Table(b)) => a == b,
            (Term::Sphere(m), Term::Sphere(n)) => m == n,
            (Term::Product(a, x), Term::Product(b, y)) => a.get() == b.get() && x.get() == y.get(),
            (Term::Suspension(a), Term::Suspension(b)) => a.get() == b.get(),
            (Term::KZ1, Term::KZ1) => true,
            (Term::Bundle(a, v), Term::Bundle(b, w)) => a == b && v == w,
            (Term::Loop(a), Term::Loop(b)) => a.get() == b.get(),
            (Term::Path(a), Term::Path(b)) => a.get() == b.get(),
            _ => false,
        }
    }
}

impl Eq for Term {
    ghost use Rattle.term_lang.specs.TermOrder.{term_equiv};

    ghost laws = { term_equiv };
}
