//! Quotes that are out of place in a record.
ghost use Rattle.std.specs.Prelude.{◌≡◌, true};
ghost use Rattle.hashbag_csv.specs.Sheets.{is_quote_fault};

use crate::fault::Fault;

const QUOTE: u8 = b'"';

// Where in a record a byte is.
#[derive(Clone, Copy)]
enum QuoteState {
    // At the beginning of a field.
    Start,
    // In a field without quotes.
    Bare,
    // In a field in quotes.
    Quoted,
    // After a quote within a field in quotes: the quote ends the field, or is the first of two.
    Closed,
}

/// What is wrong with a quote.
#[derive(Clone, Copy, PartialEq, Eq, Debug)]
pub enum Misplaced {
    /// A quote that opens a field is never closed.
    Open,
    /// Text follows the quote that closes a field.
    Closed,
    /// A field that doesn't begin with a quote has one.
    Bare,
}

impl Misplaced {
    /// Returns the fault of a line with a quote that is misplaced in this way.
    pub fn fault(self) -> Fault
        ensures { is_quote_fault result ≡ true }
    {
        match self {
            Misplaced::Open => Fault::OpenQuote,
            Misplaced::Closed => Fault::TextAfterQuote,
            Misplaced::Bare => Fault::StrayQuote,
        }
    }
}

// Returns the state after a byte, or why a quote is misplaced.
fn next_state(state: QuoteState, byte: u8, delimiter: u8) -> Result<QuoteState, Misplaced> {
    let ends_field = byte == delimiter || byte == b'\n' || byte == b'\r';
    match state {
        QuoteState::Quoted if byte == QUOTE => Ok(QuoteState::Closed),
        QuoteState::Quoted => Ok(QuoteState::Quoted),
        QuoteState::Start | QuoteState::Closed if byte == QUOTE => Ok(QuoteState::Quoted),
        _ if ends_field => Ok(QuoteState::Start),
        QuoteState::Closed => Err(Misplaced::Closed),
        _ if byte == QUOTE => Err(Misplaced::Bare),
        _ => Ok(QuoteState::Bare),
    }
}

/// Returns the index of a record's first misplaced quote, and why it is misplaced, or `None`. If a field in quotes isn't closed, or text follows its
/// closing quote, the index is of the field's opening quote.
pub fn misplaced_quote(record: &[u8], delimiter: u8) -> Option<(usize, Misplaced)> {
    let mut state = QuoteState::Start;
    // The index of the last quote that opens a field, or of a stray quote.
    let mut at = 0;
    for (index, byte) in record.iter().enumerate() {
        if *byte == QUOTE && !matches!(state, QuoteState::Quoted | QuoteState::Closed) {
            at = index;
        }
        match next_state(state, *byte, delimiter) {
            Ok(next) => state = next,
            Err(misplaced) => return Some((at, misplaced)),
        }
    }
    match state {
        QuoteState::Quoted => Some((at, Misplaced::Open)),
        _ => None,
    }
}
