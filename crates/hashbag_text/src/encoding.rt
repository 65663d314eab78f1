//! The encodings, by their names.
ghost use Rattle.std.specs.Prelude.{◌≡◌};
ghost use Rattle.std.specs.Str.{str_eq_ignore_ascii_case};
ghost use Rattle.hashbag_text.specs.Names.{encodings, named_in};

/// An encoding other than UTF-8.
#[derive(Clone, Copy, PartialEq, Eq, Debug)]
pub enum Encoding {
    /// UTF-16 whose first two bytes are its byte order mark.
    Utf16,
    /// UTF-16, the lesser byte of each unit first. A byte order mark is text.
    Utf16Le,
    /// UTF-16, the greater byte of each unit first. A byte order mark is text.
    Utf16Be,
    /// ISO-8859-1: each byte is the character of its number.
    Latin1,
    /// Windows-1252: as Latin-1, but for 27 characters from 0x80 to 0x9F. Five bytes there are no character.
    Windows1252,
}

impl Encoding {
    /// Returns the encoding with this name, in upper or lower case, and `None` for `UTF-8` and for any other name.
    pub fn named(name: &str) -> Option<Encoding>
        // The meaning of the name in the table `encodings`.
        ensures { result ≡ named_in encodings (str_eq_ignore_ascii_case name.now) }
    {
        let is = |other: &str| name.eq_ignore_ascii_case(other);
        if is("UTF-16") {
            Some(Encoding::Utf16)
        } else if is("UTF-16LE") {
            Some(Encoding::Utf16Le)
        } else if is("UTF-16BE") {
            Some(Encoding::Utf16Be)
        } else if is("Latin-1") {
            Some(Encoding::Latin1)
        } else if is("Windows-1252") {
            Some(Encoding::Windows1252)
        } else {
            None
        }
    }
}
