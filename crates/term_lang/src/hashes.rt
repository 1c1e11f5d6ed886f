// The hashes of tables and terms: of a table its mark is written alone.
use crate::order::kind;
use crate::tables::Table;
use crate::terms::Term;
use std::hash::{Hash, Hasher};

impl Hash for Table {
    ghost use Rattle.term_lang.specs.TermHash.{table_input, table_respects};

    ghost hash_input = { table_input };

    ghost respects_eq = { table_respects };

    fn hash<H: Hasher>(&self, state: &mut H) {
        state.write_u64(self.mark());
    }
}

impl Hash for Term {
    ghost use Rattle.term_lang.specs.TermHash.{term_input, term_respects};

    ghost hash_input = { term_input };

    ghost respects_eq = { term_respects };

    fn hash<H: Hasher>(&self, state: &mut H) {
        state.write_u8(kind(self));
        match self {
            Term::Table(rows) => rows.hash(state),
            Term::Sphere(n) => state.write_u32(*n),
            Term::Product(a, b) => {
                a.get().hash(state);
                b.get().hash(state);
            }
            Term::Suspension(a) => a.get().hash(state),
            Term::KZ1 => {}
            Term::Bundle(rows, values) => {
                rows.hash(state);
                values.hash(state);
            }
            Term::Loop(a) => a.get().hash(state),
            Term::Path(a) => a.get().hash(state),
        }
    }
}
