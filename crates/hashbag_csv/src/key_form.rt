//! In which form the fields of an article are compared, and shown.

/// The form in which the fields of an article are compared and shown. A field is changed by each flag that is true.
#[derive(Clone, Copy, PartialEq, Eq, Debug)]
pub struct KeyForm {
    /// Whether the spaces and tabs at both ends are removed.
    pub trim: bool,
    /// Whether the case is then folded: upper and lower case become one.
    pub fold: bool,
}
