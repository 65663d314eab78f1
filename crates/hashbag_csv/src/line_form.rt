//! How the lines of a list are read.
ghost use Rattle.std.specs.Prelude.{◌≡◌, None, false};

use crate::key_form::KeyForm;
use crate::number_form::NumberForm;

/// How the lines of a list are read.
#[derive(Clone, Copy, PartialEq, Eq, Debug)]
pub struct LineForm {
    /// In which form the fields of an article are compared, and shown.
    pub key: KeyForm,
    /// How the field of a number may be written.
    pub number: NumberForm,
    /// Whether a record may have fewer fields than the header. The missing fields are empty.
    pub allows_short: bool,
    /// Whether the list has no header. Its columns are then named `1`, `2` and so on.
    pub no_header: bool,
}

impl LineForm {
    /// Returns the form in which fields are compared as they are, numbers are never empty and have no group marks, no field is missing,
    /// and the list has a header.
    pub fn plain() -> LineForm
        ensures trim { result.key.trim ≡ false }
        ensures fold { result.key.fold ≡ false }
        ensures blank_is_zero { result.number.blank_is_zero ≡ false }
        ensures group { result.number.group ≡ None }
        ensures allows_short { result.allows_short ≡ false }
        ensures no_header { result.no_header ≡ false }
    {
        LineForm {
            key: KeyForm {
                trim: false,
                fold: false,
            },
            number: NumberForm {
                blank_is_zero: false,
                group: None,
            },
            allows_short: false,
            no_header: false,
        }
    }
}
