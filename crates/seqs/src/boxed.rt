ghost use Rattle.std.specs.Prelude.{◌≡◌, IfOk};

use std::alloc::{AllocError, Global};
use std::boxed::Box as Inner;
use std::cmp::Ordering;
use std::hash::{Hash, Hasher};
use std::marker::Model;

/// A value on the heap, which contracts see as the value itself.
#[derive(Debug, Drop)]
pub struct Box<T> {
    inner: Inner<T>,
}

impl<T> Model for Box<T> {
    ghost Value = { T };

    ghost coded = { T.code };

    ghost view = { λ b. b.inner.value };
}

impl<T> Box<T> {
    /// The value.
    pub fn get(&self) -> &T
        ensures { result.now ≡ self.now }
    {
        &self.inner
    }

    /// The value, moved out; its memory is given back.
    pub fn into_inner(self) -> T
        ensures { result ≡ self }
    {
        let Box { inner } = self;
        Inner::into_inner(inner)
    }

    /// The allocator that the memory is of.
    pub fn allocator(&self) -> Global {
        *Inner::allocator(&self.inner)
    }
}

impl<T: Drop> Box<T> {
    /// Moves a value to the heap.
    pub fn new(alloc: Global, value: T) -> Result<Box<T>, AllocError>
        ensures { IfOk result (λ b. b ≡ value) }
    {
        let inner = Inner::new(alloc, value)?;
        Ok(Box { inner })
    }
}

impl<T: PartialEq> PartialEq for Box<T> {
    ghost eq = { T.eq };

    ghost laws = { T.laws };

    fn eq(&self, other: &Self) -> bool {
        self.get() == other.get()
    }
}

impl<T: Eq> Eq for Box<T> {
    ghost laws = { T.Eq.laws };
}

impl<T: PartialOrd> PartialOrd for Box<T> {
    ghost partial_cmp = { T.partial_cmp };

    ghost laws = { T.PartialOrd.laws };

    fn partial_cmp(&self, other: &Self) -> Option<Ordering> {
        self.get().partial_cmp(other.get())
    }
}

impl<T: Ord> Ord for Box<T> {
    ghost cmp = { T.cmp };

    ghost total = { T.total };

    ghost matches_partial_cmp = { T.matches_partial_cmp };

    ghost matches_eq = { T.matches_eq };

    fn cmp(&self, other: &Self) -> Ordering {
        self.get().cmp(other.get())
    }
}

impl<T: Hash> Hash for Box<T> {
    ghost hash_input = { T.hash_input };

    ghost respects_eq = { T.respects_eq };

    fn hash<H: Hasher>(&self, state: &mut H) {
        self.get().hash(state);
    }
}
