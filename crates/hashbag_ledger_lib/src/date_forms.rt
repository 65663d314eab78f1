//! The forms of dates in files: `28.02.2026`, for example. A stock keeps dates as ISO writes them, `2026-02-28`.
ghost use Rattle.std.specs.Prelude.{◌≡◌, ◌<◌, ◌==◌, IfOk, string_bytes};
ghost use Rattle.std.specs.List.{after_first, before_first};
ghost use Rattle.hashbag_ledger_lib.specs.DateForms.{first_part, form_named, iso_of, joined, last_part, second_part};

use std::alloc::{AllocError, Global};

/// How a date is written. Years have four digits, months and days two.
#[derive(Clone, Copy, PartialEq, Eq, Debug)]
pub enum DateForm {
    /// `2026-02-28`, as ISO writes it.
    Iso,
    /// `28.02.2026`.
    DayDots,
    /// `28/02/2026`.
    DaySlashes,
    /// `02/28/2026`.
    MonthSlashes,
}

impl DateForm {
    /// Returns the form with this name: `DD.MM.YYYY`, `DD/MM/YYYY` or `MM/DD/YYYY`. Returns `Iso` for any other name.
    pub fn named(name: &str) -> DateForm
        ensures { result ≡ form_named name.now }
    {
        match name {
            "DD.MM.YYYY" => DateForm::DayDots,
            "DD/MM/YYYY" => DateForm::DaySlashes,
            "MM/DD/YYYY" => DateForm::MonthSlashes,
            _ => DateForm::Iso,
        }
    }

    /// Returns the name of this form, and 28 February 2026 in it.
    pub fn example(self) -> (&'static str, &'static str) {
        match self {
            DateForm::Iso => ("YYYY-MM-DD", "2026-02-28"),
            DateForm::DayDots => ("DD.MM.YYYY", "28.02.2026"),
            DateForm::DaySlashes => ("DD/MM/YYYY", "28/02/2026"),
            DateForm::MonthSlashes => ("MM/DD/YYYY", "02/28/2026"),
        }
    }
}

// Returns the text before the first mark and the text behind it: the whole text and an empty one if there is no mark.
fn cut(text: &str, mark: char) -> (&str, &str)
    requires { mark < 128 }
    ensures first { result.0.now ≡ before_first (λ b. b == mark) text.now }
    ensures rest { result.1.now ≡ after_first (λ b. b == mark) text.now }
{
    text.split_once(mark).unwrap_or((text, ""))
}

// Returns the three parts of a text that the first two marks split.
fn parts(text: &str, mark: char) -> (&str, &str, &str)
    requires { mark < 128 }
    ensures first { result.0.now ≡ first_part mark text.now }
    ensures second { result.1.now ≡ second_part mark text.now }
    ensures last { result.2.now ≡ last_part mark text.now }
{
    let (first, rest) = cut(text, mark);
    let (second, last) = cut(rest, mark);
    (first, second, last)
}

// Returns a year, a month and a day with hyphens between them.
fn joined(alloc: Global, year: &str, month: &str, day: &str) -> Result<String, AllocError>
    ensures { IfOk result (λ text. string_bytes text ≡ joined year.now month.now day.now) }
{
    let mut text = String::from_str(alloc, year)?;
    text.push('-')?;
    text.push_str(month)?;
    text.push('-')?;
    text.push_str(day)?;
    Ok(text)
}

/// Returns a date of this form as ISO writes it. For any other text it returns a text that is no date.
///
/// # Errors
///
/// An allocation fails.
pub fn iso_of(alloc: Global, form: DateForm, text: &str) -> Result<String, AllocError>
    ensures { IfOk result (λ iso. string_bytes iso ≡ iso_of form text.now) }
{
    match form {
        DateForm::Iso => return String::from_str(alloc, text),
        DateForm::DayDots => {
            let (day, month, year) = parts(text, '.');
            return joined(alloc, year, month, day);
        }
        DateForm::DaySlashes => {
            let (day, month, year) = parts(text, '/');
            return joined(alloc, year, month, day);
        }
        DateForm::MonthSlashes => {
            let (month, day, year) = parts(text, '/');
            return joined(alloc, year, month, day);
        }
    }
}
