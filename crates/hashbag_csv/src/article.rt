//! The types of an article: `String` and `Vec<String>`.
ghost use Rattle.std.specs.Prelude.{◌≡◌, [], ◌∷◌, map, IfErr, IfOk};
ghost use Rattle.std.specs.String.{string_bytes};
ghost use Rattle.hashbag_csv.specs.Articles.{same_article};
ghost use Rattle.hashbag_csv.specs.BadLines.{IsTextError};
ghost use Rattle.hashbag_csv.specs.LineColumns.{last_fields};
ghost use Rattle.hashbag_csv.specs.Readers.{Record};
ghost use Rattle.hashbag_csv.specs.ArticleLaws.{one_same, all_same};

use crate::fault::SheetError;
use crate::key_form::KeyForm;
use crate::lines::{fields_of, key_field};
use crate::sheet::{Column, Sheet};
use std::alloc::Global;
use std::hash::Hash;
use std::slice;

/// An article: the fields of a line in the key columns, in the order of the columns. `==` compares the fields. A `String` is the field of
/// one column. It needs half the memory and time of a `Vec<String>`, which has the fields of any number of columns.
pub trait Article: Ord + Hash + Sized {
    /// The article's fields, as bytes.
    ghost fields: { Self → Record };

    /// Returns the article of the record that was read last: the record's fields in `columns`, in the form `form`.
    ///
    /// # Errors
    ///
    /// `Line` if a field isn't UTF-8. `Memory` if an allocation fails; for a `String` also if `columns` hasn't exactly one column.
    fn read(
        alloc: Global,
        sheet: &Sheet<'_>,
        columns: &[Column<'_>],
        form: KeyForm,
    ) -> Result<Self, SheetError>
        ensures fields { IfOk result (λ article. fields article ≡ last_fields form columns.now sheet.now) }
        ensures fault { IfErr result (λ e. IsTextError e) };

    /// Returns the article's fields.
    fn texts(&self) -> &[String]
        ensures { map string_bytes result.now ≡ fields self.now };

    // `==` compares the fields.
    ghost same: { (x y : Self) → Self.eq x y ≡ same_article (fields x) (fields y) };
}

impl Article for String {
    ghost fields = { λ s. string_bytes s ∷ [] };

    ghost same = { λ x y. one_same x y };

    fn read(
        alloc: Global,
        sheet: &Sheet<'_>,
        columns: &[Column<'_>],
        form: KeyForm,
    ) -> Result<String, SheetError> {
        let [column] = columns else {
            return Err(SheetError::Memory);
        };
        key_field(alloc, sheet, *column, form)
    }

    fn texts(&self) -> &[String] {
        slice::from_ref(self)
    }
}

impl Article for Vec<String> {
    ghost fields = { λ v. map string_bytes v.items };

    ghost same = { λ x y. all_same x.items y.items };

    fn read(
        alloc: Global,
        sheet: &Sheet<'_>,
        columns: &[Column<'_>],
        form: KeyForm,
    ) -> Result<Vec<String>, SheetError> {
        fields_of(alloc, sheet, columns, form)
    }

    fn texts(&self) -> &[String] {
        self.as_slice()
    }
}
