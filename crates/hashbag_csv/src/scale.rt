//! How numbers with decimals are written, and the greatest number that is read.
ghost use Rattle.std.specs.Prelude.{◌≡◌, ◌≤◌, ◌<◌, MatchOption};
ghost use Rattle.hashbag_csv.specs.Decimals.{most_decimals};

/// What is between the whole part of a number and its decimals.
#[derive(Clone, Copy, PartialEq, Eq, Debug)]
pub enum Mark {
    /// `.`
    Point,
    /// `,`
    Comma,
}

impl Mark {
    ghost use Rattle.hashbag_csv.specs.Marks.{code_of};

    /// Returns the mark as a character.
    pub fn character(self) -> char
        ensures { result ≡ code_of self }
    {
        match self {
            Mark::Point => '.',
            Mark::Comma => ',',
        }
    }
}

/// The number of decimals, 0 to 9, the mark before the decimals, and the greatest number. Numbers are in units of the last decimal: with
/// two decimals `1.50` is 150.
#[derive(Clone, Copy, PartialEq, Eq, Debug)]
pub struct Scale {
    /// The number of decimals.
    pub decimals: u32,
    /// The mark before the decimals.
    pub mark: Mark,
    /// The greatest number that is read, and the greatest total.
    pub most: usize,
    ghost few: { decimals ≤ most_decimals },
}

impl Scale {
    ghost use Rattle.hashbag_csv.specs.Scales.{IsWidestScale};

    /// Returns the scale of whole numbers: no decimals, the mark `.`, and `usize::MAX` as the greatest number.
    pub fn whole() -> Scale
        ensures decimals { result.decimals ≡ 0 }
        ensures mark { result.mark ≡ Mark.Point }
        ensures most { result.most ≡ usize.MAX }
    {
        Scale {
            decimals: 0,
            mark: Mark::Point,
            most: usize::MAX,
        }
    }

    /// Returns the scale with this number of decimals after this mark, or `None` for more than 9 decimals. The greatest number is
    /// `usize::MAX` units.
    pub fn new(decimals: u32, mark: Mark) -> Option<Scale>
        // The result is `None` if `decimals` is above 9; else it is a scale with `decimals`, `mark` and the greatest number `usize::MAX`.
        ensures { MatchOption result (most_decimals < decimals) (λ scale. IsWidestScale decimals mark scale) }
    {
        if decimals > 9 {
            return None;
        }
        Some(Scale {
            decimals,
            mark,
            most: usize::MAX,
        })
    }

    /// Returns the scale with another greatest number, in units of the last decimal.
    pub fn at_most(self, most: usize) -> Scale
        ensures decimals { result.decimals ≡ self.decimals }
        ensures mark { result.mark ≡ self.mark }
        ensures most { result.most ≡ most }
    {
        Scale {
            decimals: self.decimals,
            mark: self.mark,
            most,
        }
    }
}
