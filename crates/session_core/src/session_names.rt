// The names of a session.
ghost use Rattle.std.specs.Prelude.{◌≡◌, [], map, IfOk, IfSome, OnOk, OnErr};
ghost use Rattle.std.specs.Option.{option_copied};
ghost use Rattle.term_lang.specs.SpaceOf.{space_of};
ghost use Rattle.session_core.specs.Answer.{lookup, defined};
ghost use Rattle.session_core.specs.Whole.{IsReady};

use indexmap::IndexMap;
use reply_text::NameList;
use seqs::Arc;
use std::alloc::{AllocError, Global};
use std::marker::Model;
use term_lang::{Name, Term};

/// Names with the terms that they stand for, in order of first definition. Each term names an allowed table or sphere.
#[derive(Drop)]
pub(crate) struct SessionNames {
    terms: IndexMap<Name, Arc<Term>>,
}

impl Model for SessionNames {
    ghost use Rattle.session_core.specs.Answer.{Names};
    ghost use Rattle.session_core.specs.Whole.{AreReady};
    ghost use Rattle.std.specs.Coded.{codes};
    ghost use Rattle.term_lang.specs.contracts.terms.Term as e;

    ghost Value = { Names };

    ghost coded = { Prim.hlevel (codes, e.the_row.coded) };

    ghost view = { λ s. s.terms.entries };

    ghost invariant = { λ s. AreReady s.terms.entries };
}

impl SessionNames {
    /// No names.
    pub(crate) fn new(alloc: Global) -> Self
        ensures { result ≡ [] }
    {
        SessionNames {
            terms: IndexMap::new(alloc),
        }
    }

    /// The term that a name stands for.
    pub(crate) fn get(&self, name: &Name) -> Option<&Arc<Term>>
        ensures value { option_copied result ≡ lookup self.now name.now }
        ensures ready { IfSome result (λ t. IsReady (space_of t.now)) }
    {
        self.terms.get(name)
    }

    /// Lets a name stand for a term. A name that was there keeps its place, and a new one is the last.
    pub(crate) fn define(&mut self, name: Name, term: Arc<Term>) -> Result<(), AllocError>
        requires { IsReady (space_of term) }
        ensures defined { OnOk result (self.new ≡ defined self.old name term) }
        ensures err { OnErr result (self.new ≡ self.old) }
    {
        self.terms.insert(name, term)?;
        Ok(())
    }

    /// The names in order.
    pub(crate) fn list(&self, alloc: Global) -> Result<NameList, AllocError>
        ensures { IfOk result (λ names. names ≡ map (λ n. n.0) self.now) }
    {
        let mut names = NameList::new(alloc);
        for name in self.terms.keys() {
            names.push(*name)?;
        }
        Ok(names)
    }
}
