// A value on the heap, which is moved as its address.
ghost use Rattle.std.specs.Prelude.{◌≡◌, IfOk};
ghost use Rattle.std.specs.Borrow.{sem};
ghost use Rattle.shared_tree.specs.LentBox.{LendsApart, LendsBox};

use std::alloc::{AllocError, Global};
use std::marker::Model;

// A value that shares no line of a processor's cache with what lies behind it. Contracts see it as the value.
#[derive(Drop)]
struct Apart<T> {
    value: T,
    apart: [u64; 8],
}

impl<T> Model for Apart<T> {
    ghost use Rattle.std.specs.Prelude.{◌≡◌};

    ghost Value = { T };

    ghost coded = { T.code };

    ghost view = { λ a. a.value };
}

impl<T> Apart<T> {
    fn new(value: T) -> Apart<T>
        ensures { result ≡ value }
    {
        Apart {
            value,
            apart: [0; 8],
        }
    }

    fn get(&self) -> &T
        ensures { result.now ≡ self.now }
    {
        &self.value
    }

    fn get_mut(&mut self) -> &mut T
        ensures* after { sem 𝓛 (LendsApart T.row self.entry result) }
        ensures value { result.now ≡ self.old }
    {
        &mut self.value
    }

    fn into_inner(self) -> T
        ensures { result ≡ self }
    {
        let Apart { value, apart: _ } = self;
        value
    }
}

/// A box that contracts see as the value in it.
#[derive(Drop)]
pub struct Boxed<T> {
    inner: Box<Apart<T>>,
}

impl<T> Model for Boxed<T> {
    ghost use Rattle.std.specs.Prelude.{◌≡◌};

    ghost Value = { T };

    ghost coded = { T.code };

    ghost view = { λ b. b.inner.value };
}

impl<T> Boxed<T> {
    pub fn get(&self) -> &T
        ensures { result.now ≡ self.now }
    {
        self.inner.get()
    }

    pub fn get_mut(&mut self) -> &mut T
        ensures* after { sem 𝓛 (LendsBox T.row self.entry result) }
        ensures value { result.now ≡ self.old }
    {
        self.inner.as_mut().get_mut()
    }

    /// Takes the value out.
    pub fn into_inner(self) -> T
        ensures { result ≡ self }
    {
        let Boxed { inner } = self;
        Box::into_inner(inner).into_inner()
    }
}

impl<T: Drop> Boxed<T> {
    /// Takes memory for the value, and puts it there.
    pub fn new(alloc: Global, value: T) -> Result<Boxed<T>, AllocError>
        ensures { IfOk result (λ b. b ≡ value) }
    {
        Ok(Boxed {
            inner: Box::new(alloc, Apart::new(value))?,
        })
    }
}
