ghost use Rattle.std.specs.Prelude.{◌≡◌, IfOk};

use std::alloc::{AllocError, Global};
use std::cmp::Ordering;
use std::hash::{Hash, Hasher};
use std::marker::Model;
use std::sync::Arc as Inner;

/// A value that several owners share, which contracts see as the value itself. A clone shares the value.
#[derive(Debug, Drop)]
pub struct Arc<T> {
    inner: Inner<T>,
}

impl<T> Model for Arc<T> {
    ghost Value = { T };

    ghost coded = { T.code };

    ghost view = { λ a. a.inner.value };
}

impl<T> Arc<T> {
    /// The value.
    pub fn get(&self) -> &T
        ensures { result.now ≡ self.now }
    {
        &self.inner
    }
}

impl<T: Drop> Arc<T> {
    /// Moves a value to the heap, with one owner.
    pub fn new(alloc: Global, value: T) -> Result<Arc<T>, AllocError>
        ensures { IfOk result (λ a. a ≡ value) }
    {
        let inner = Inner::new(alloc, value)?;
        Ok(Arc { inner })
    }
}

impl<T: Drop> Clone for Arc<T> {
    ghost is_clone = { λ a b. b ≡ a };

    fn clone(&self) -> Result<Arc<T>, AllocError> {
        let inner = self.inner.clone()?;
        Ok(Arc { inner })
    }
}

impl<T: PartialEq> PartialEq for Arc<T> {
    ghost eq = { T.eq };

    ghost laws = { T.laws };

    fn eq(&self, other: &Self) -> bool {
        self.get() == other.get()
    }
}

impl<T: Eq> Eq for Arc<T> {
    ghost laws = { T.Eq.laws };
}

impl<T: PartialOrd> PartialOrd for Arc<T> {
    ghost partial_cmp = { T.partial_cmp };

    ghost laws = { T.PartialOrd.laws };

    fn partial_cmp(&self, other: &Self) -> Option<Ordering> {
        self.get().partial_cmp(other.get())
    }
}

impl<T: Ord> Ord for Arc<T> {
    ghost cmp = { T.cmp };

    ghost total = { T.total };

    ghost matches_partial_cmp = { T.matches_partial_cmp };

    ghost matches_eq = { T.matches_eq };

    fn cmp(&self, other: &Self) -> Ordering {
        self.get().cmp(other.get())
    }
}

impl<T: Hash> Hash for Arc<T> {
    ghost hash_input = { T.hash_input };

    ghost respects_eq = { T.respects_eq };

    fn hash<H: Hasher>(&self, state: &mut H) {
        self.get().hash(state);
    }
}
