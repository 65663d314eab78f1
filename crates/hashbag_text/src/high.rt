//! The first units of surrogate pairs.
ghost use Rattle.std.specs.Prelude.{◌≡◌, true, false, MatchOption};
ghost use Rattle.core.specs.Char.Utf16.{is_high_surrogate};

/// The first unit of a surrogate pair.
#[derive(Clone, Copy)]
pub struct High {
    unit: u16,
    ghost is_high: { is_high_surrogate unit ≡ true },
}

impl High {
    /// Returns the first unit of a pair, if this is one.
    pub fn of_unit(unit: u16) -> Option<High>
        // The result is `None` if the unit is no high surrogate, the first unit of a pair; else it has this unit.
        ensures { MatchOption result (is_high_surrogate unit ≡ false) (λ high. high.unit ≡ unit) }
    {
        if unit < 0xD800 || 0xDC00 <= unit {
            return None;
        }
        Some(High { unit })
    }

    /// Returns the unit.
    pub fn unit(self) -> u16
        ensures unit { result ≡ self.unit }
        ensures high { is_high_surrogate result ≡ true }
    {
        self.unit
    }
}
