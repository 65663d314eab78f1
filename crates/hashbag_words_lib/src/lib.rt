//! Counts of words, lines, fields or matches in text: the pure part of the program `hashbag_words`.
//!
//! - [`rule`] decides what of a line is counted. [`fields`] finds the fields of a line. [`counting`] counts a line, and [`counter`] the
//!   lines of texts that arrive in blocks. [`columns`] counts the fields of a column of CSV.
//! - [`rows`] reads a line of counts, and [`row_counter`] files of counts that arrive in blocks. [`sinks`] says what tokens and rows are given
//!   to: a bag, or [`token_lines`] or [`sums`] of sorted rows, which are written to a [`text_output`].
//! - [`inputs`] counts all inputs of a call, and [`jobs`] does a whole job: from the bytes of its inputs to the text that is written.
//! - [`choice`] selects the counts that are shown. [`writing`] and [`row_text`] build their text. [`shards`] divides all
//!   tokens by a fixed hash, [`shares`] writes a count as percent of a total, and [`bars`] writes rows with bars for a terminal.
#![tactic(auto)]

pub mod bars;
pub mod block_reader;
pub mod choice;
pub mod columns;
pub mod counter;
pub mod counting;
pub mod errors;
pub mod feeding;
pub mod fields;
pub mod inputs;
pub mod jobs;
pub mod lines;
pub mod merging;
pub mod options;
pub mod row_counter;
pub mod row_text;
pub mod rows;
pub mod rule;
pub mod settings;
pub mod shards;
pub mod shares;
pub mod shown_text;
pub mod sinks;
pub mod sorting;
pub mod sums;
pub mod tape;
pub mod text_output;
pub mod token_lines;
pub mod trace;
pub mod troubles;
pub mod writing;
