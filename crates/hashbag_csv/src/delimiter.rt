//! What is between the fields of a record.
ghost use Rattle.std.specs.Prelude.{◌≡◌};
ghost use Rattle.hashbag_csv.specs.Names.{delimiter_named};

/// The byte between two fields.
#[derive(Clone, Copy, PartialEq, Eq, Debug)]
pub enum Delimiter {
    /// `,`
    Comma,
    /// `;`
    Semicolon,
    /// A tab.
    Tab,
}

impl Delimiter {
    /// Returns the byte itself.
    pub fn byte(self) -> u8
        ensures comma { self ≡ Delimiter.Comma → result ≡ 44 }
        ensures semicolon { self ≡ Delimiter.Semicolon → result ≡ 59 }
        ensures tab { self ≡ Delimiter.Tab → result ≡ 9 }
    {
        match self {
            Delimiter::Comma => b',',
            Delimiter::Semicolon => b';',
            Delimiter::Tab => b'\t',
        }
    }

    /// Returns the delimiter with this name: `,`, `;`, `tab` or `\t`. Returns a comma for any other name.
    pub fn named(name: &str) -> Delimiter
        ensures { result ≡ delimiter_named name.now }
    {
        match name {
            ";" => Delimiter::Semicolon,
            "tab" | "\\t" => Delimiter::Tab,
            _ => Delimiter::Comma,
        }
    }
}
