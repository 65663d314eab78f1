//! How the files of a stock are written. The database keeps this.
ghost use Rattle.std.specs.Prelude.{◌≡◌};
ghost use Rattle.hashbag_ledger_lib.specs.Styles.{plain_style};

use hashbag_csv::delimiter::Delimiter;
use hashbag_csv::scale::Mark;

/// How the files of a stock are written.
#[derive(Clone, Copy, PartialEq, Eq, Debug)]
pub struct Style {
    /// How many decimals numbers have.
    pub scale: u32,
    /// The mark before the decimals.
    pub mark: Mark,
    /// What is between fields.
    pub delimiter: Delimiter,
}

impl Style {
    /// Returns the style with `scale` decimals after a point, and with commas between fields.
    pub fn plain(scale: u32) -> Style
        ensures { result ≡ plain_style scale }
    {
        Style {
            scale,
            mark: Mark::Point,
            delimiter: Delimiter::Comma,
        }
    }
}
