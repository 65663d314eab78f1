//! The inputs: files by their names, and `-` for standard input.
use crate::bag::Bag;
use crate::blocks::HostBlocks;
use crate::output::{HostOutput, look_of};
use hashbag_csv::delimiter::Delimiter;
use hashbag_csv::fault::in_file;
use hashbag_shell::input::shown_name;
use hashbag_shell::text::of_decoding;
use hashbag_shell::trouble::Trouble;
use hashbag_text::encoding::Encoding;
use hashbag_text::whole::decode;
use hashbag_words_lib::columns::count_column;
use hashbag_words_lib::feeding::Counter;
use hashbag_words_lib::inputs::{Blocks, count_all};
use hashbag_words_lib::jobs::{self, Reading};
use hashbag_words_lib::row_counter::RowCounter;
use hashbag_words_lib::rows::RowForm;
use hashbag_words_lib::rule::Rule;
use hashbag_words_lib::settings::Settings;
use hashbag_words_lib::shown_text::Shown;
use memchr::memchr;
use regex::Regex;
use std::mem;

/// What a job works with: what the arguments ask for, and the inputs.
#[derive(Drop)]
pub struct Work<'s, 'a, 'm> {
    /// The runtime.
    pub rt: &'s HostRuntime,
    /// What the arguments ask for.
    pub settings: &'s Settings<'a, 'm>,
    /// The names of all inputs.
    pub names: &'s [&'a str],
    /// The pattern whose matches are counted, if there is one.
    pub pattern: Option<&'s Regex>,
    /// The encoding of the inputs, `None` for UTF-8.
    pub encoding: Option<Encoding>,
    /// The inputs themselves.
    pub blocks: HostBlocks<'s, 'a>,
}

impl<'s, 'a, 'm> Work<'s, 'a, 'm> {
    /// Counts the contents of the inputs of these names, in order.
    ///
    /// # Errors
    ///
    /// What is wrong with an input or one of its lines, or a failed allocation. What came before the error may be counted.
    pub fn count_all<C: Counter>(
        &mut self,
        counter: &mut C,
        names: &[&'a str],
    ) -> Result<(), Trouble<'a>> {
        let (alloc, encoding) = (self.rt.alloc(), self.encoding);
        count_all(alloc, &mut self.blocks, counter, encoding, names)
    }

    // Returns how the inputs are read.
    fn reading(&self) -> Reading {
        Reading {
            encoding: self.encoding,
            bad_lines: self.settings.bad_lines,
        }
    }

    /// Counts the tokens of all inputs, and returns the text that shows the tokens.
    ///
    /// # Errors
    ///
    /// Same as [`jobs::show_tokens`].
    pub fn show_tokens<'b>(
        &mut self,
        rule: Rule<'_>,
        bag: &'b mut Bag,
    ) -> Result<Shown<'b>, Trouble<'a>> {
        let (alloc, reading) = (self.rt.alloc(), self.reading());
        let (choice, look) = (self.settings.choice, look_of(self.rt, self.settings));
        let inputs = &mut self.blocks;
        jobs::show_tokens(alloc, inputs, bag, rule, reading, self.names, choice, look)
    }

    /// Writes each token of all inputs as a line.
    ///
    /// # Errors
    ///
    /// Same as [`jobs::write_tokens`].
    pub fn write_tokens(
        &mut self,
        rule: Rule<'_>,
        output: HostOutput<'s, 'a>,
    ) -> (HostOutput<'s, 'a>, Result<(), Trouble<'a>>) {
        let (alloc, reading) = (self.rt.alloc(), self.reading());
        jobs::write_tokens(alloc, &mut self.blocks, output, rule, reading, self.names)
    }

    /// Adds up neighbouring rows of the inputs, whose lines are in order, and writes the sums. Returns whether no row was shown.
    ///
    /// # Errors
    ///
    /// Same as [`jobs::write_sums`].
    pub fn write_sums(
        &mut self,
        output: HostOutput<'s, 'a>,
    ) -> (HostOutput<'s, 'a>, Result<bool, Trouble<'a>>) {
        let (alloc, reading) = (self.rt.alloc(), self.reading());
        let (choice, format) = (self.settings.choice, self.settings.format);
        jobs::write_sums(
            alloc,
            &mut self.blocks,
            output,
            reading,
            self.names,
            choice,
            format,
        )
    }

    /// Adds the counts of all inputs, whose lines have this form, and returns the text that shows the sums.
    ///
    /// # Errors
    ///
    /// Same as [`jobs::show_rows`].
    pub fn show_rows<'b>(
        &mut self,
        form: RowForm,
        bag: &'b mut Bag,
    ) -> Result<Shown<'b>, Trouble<'a>> {
        let (alloc, reading) = (self.rt.alloc(), self.reading());
        let (choice, look) = (self.settings.choice, look_of(self.rt, self.settings));
        let inputs = &mut self.blocks;
        jobs::show_rows(alloc, inputs, bag, form, reading, self.names, choice, look)
    }

    /// Returns the text that shows the tokens of a bag.
    ///
    /// # Errors
    ///
    /// Same as [`jobs::show_bag`].
    pub fn show<'b>(&mut self, bag: &'b mut Bag) -> Result<Shown<'b>, Trouble<'a>> {
        self.blocks.end_report();
        let look = look_of(self.rt, self.settings);
        jobs::show_bag(self.rt.alloc(), bag, self.settings.choice, look)
    }

    // Returns the text of the input of this name. It is decoded if the encoding of the inputs is given; else the bytes are returned as they are.
    fn whole_text(&mut self, name: &'a str) -> Result<Vec<u8>, Trouble<'a>> {
        let bytes = self.blocks.read_whole(name)?;
        let Some(encoding) = self.encoding else {
            return Ok(bytes);
        };
        match decode(self.rt.alloc(), encoding, bytes.as_slice()) {
            Ok(text) => Ok(text.into_bytes()),
            Err(error) => Err(of_decoding(self.rt.alloc(), shown_name(name), error)),
        }
    }

    /// Counts the fields of the column of this name in all inputs. Each input has its own header, and is read whole.
    ///
    /// # Errors
    ///
    /// What is wrong with an input or one of its records, or a failed allocation. What came before the error may be counted.
    pub fn count_columns(
        &mut self,
        column: &str,
        delimiter: Delimiter,
        fold: bool,
        bag: &mut Bag,
    ) -> Result<(), Trouble<'a>> {
        for name in self.names {
            let text = self.whole_text(name)?;
            let alloc = self.rt.alloc();
            let counted = count_column(alloc, bag, fold, &text, column, delimiter);
            in_file(alloc, shown_name(name), counted)?;
            if self.encoding.is_none() && memchr(0, &text).is_some() {
                self.blocks.report_nul(shown_name(name));
            }
        }
        Ok(())
    }

    /// Adds the counts of the files of these names to the bag, in order. Their lines have this form.
    ///
    /// # Errors
    ///
    /// What is wrong with a file or one of its lines, or a failed allocation. Then the bag may have some of the counts.
    pub fn add_all(
        &mut self,
        form: RowForm,
        bag: &mut Bag,
        names: &[&'a str],
    ) -> Result<(), Trouble<'a>> {
        let alloc = self.rt.alloc();
        let none = Bag::with_hasher(alloc, *bag.hasher());
        let given = mem::replace(bag, none);
        let mut counter = RowCounter::new(alloc, given, form, self.settings.bad_lines);
        let added = self.count_all(&mut counter, names);
        *bag = counter.into_sink();
        added
    }
}
