//! What a value is looked up by.
ghost use Rattle.std.specs.Prelude.{◌≡◌, Bool, IsTrue};
ghost use Rattle.std.proofs.Common.{ap, sym, ◌∙◌, refl};
ghost use Rattle.std.specs.Cmp.Lexicographic.{bytes_decides, lists_equiv, nat_list_eq_equiv, pointwise};
ghost use Rattle.std.specs.Hash as fed;
ghost use Rattle.std.specs.Hash.{items_Alike};
ghost use Rattle.std.specs.Str.{bytes_eq};
ghost use Rattle.std.specs.String.{string_bytes};

use std::hash::Hash;

/// A key, by which values are looked up and removed: a reference to a value, `&T`, or something that names a value. A `&str` names a `String`, a
/// `&[U]` a `Vec<U>`, and a `&U` a `Box<U>`.
///
/// A key has the same hash as the values that it names, so a probe for the key finds them. All values that a key names are equal. A key names every
/// value that is equal to one that it names.
pub trait Key<T: Eq + Hash>: Copy + Hash {
    // What `names` returns.
    ghost names: { Self → T → Bool };

    /// Returns whether the key names a value.
    fn names(&self, value: &T) -> bool
        ensures { result ≡ names self.now value.now };

    // A key and a value that it names write the same to a hasher.
    ghost hashed_alike: { (key : Self) (v : T) → IsTrue (names key v) → T.hash_input v ≡ Self.hash_input key };

    // If a key names a value, the key names exactly the values that are equal to that value.
    ghost names_one: { (key : Self) (v w : T) → IsTrue (names key v) → names key w ≡ T.eq w v };
}

impl<T: Eq + Hash> Key<T> for &T {
    ghost names = { λ key. T.eq key.now };

    ghost hashed_alike = { λ key v e. sym (T.respects_eq key.now v e) };

    ghost names_one = { λ key v w yes. T.Eq.laws.congr key.now v w yes ∙ T.Eq.laws.symm v w };

    #[inline(always)]
    fn names(&self, value: &T) -> bool {
        (*self).eq(value)
    }
}

impl Key<String> for &str {
    ghost names = { λ key v. bytes_eq (string_bytes v) key.now };

    ghost hashed_alike = { λ key v h. ap fed.str ((bytes_decides (string_bytes v) key.now).0 h) };

    ghost names_one = { λ key v w yes. nat_list_eq_equiv.symm (string_bytes w) key.now ∙ nat_list_eq_equiv.congr key.now (string_bytes v) (string_bytes w) (nat_list_eq_equiv.symm key.now (string_bytes v) ∙ yes) ∙ nat_list_eq_equiv.symm (string_bytes v) (string_bytes w) };

    #[inline(always)]
    fn names(&self, value: &String) -> bool {
        value.as_str() == *self
    }
}

impl<T: Eq + Hash> Key<Vec<T>> for &[T] {
    ghost names = { λ key v. pointwise T.eq v.items key.now };

    ghost hashed_alike = { λ key v h. (items_Alike (record { fed = T.respects_eq })).fed v.items key.now h };

    ghost names_one = { λ key v w yes. (lists_equiv T.Eq.laws).symm w.items key.now ∙ (lists_equiv T.Eq.laws).congr key.now v.items w.items ((lists_equiv T.Eq.laws).symm key.now v.items ∙ yes) ∙ (lists_equiv T.Eq.laws).symm v.items w.items };

    #[inline(always)]
    fn names(&self, value: &Vec<T>) -> bool {
        value.as_slice() == *self
    }
}

impl<T: Eq + Hash> Key<Box<T>> for &T {
    ghost names = { λ key v. T.eq key.now v.value };

    ghost hashed_alike = { λ key v h. sym (T.respects_eq key.now v.value h) };

    ghost names_one = { λ key v w yes. T.Eq.laws.congr key.now v.value w.value yes ∙ T.Eq.laws.symm v.value w.value };

    #[inline(always)]
    fn names(&self, value: &Box<T>) -> bool {
        (*self).eq(value.as_ref())
    }
}
