//! Keys from which a value can be built.
ghost use Rattle.std.specs.Prelude.{IfOk, IsTrue};

pub use hashbag_slots::key::Key;
use std::alloc::{AllocError, Global};
use std::hash::Hash;

/// A key from which a value can be built. An insertion builds the value only if the key names no present value.
pub trait ToValue<T: Eq + Hash>: Key<T> {
    /// Builds a value that the key names.
    ///
    /// # Errors
    ///
    /// `AllocError` if an allocation fails.
    fn to_value(self, alloc: Global) -> Result<T, AllocError>
        ensures { IfOk result (λ v. IsTrue (Self.names self v)) };
}

impl ToValue<String> for &str {
    fn to_value(self, alloc: Global) -> Result<String, AllocError> {
        self.to_string(alloc)
    }
}

impl<T: Copy + Eq + Hash> ToValue<Vec<T>> for &[T] {
    fn to_value(self, alloc: Global) -> Result<Vec<T>, AllocError> {
        Vec::from_slice(alloc, self)
    }
}
