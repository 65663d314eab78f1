//! The records of a CSV text under its header.
ghost use Rattle.std.specs.Prelude.{◌≡◌, false, IfOk};
ghost use Rattle.csv.specs.Reading.{has_failed};
ghost use Rattle.csv.specs.Records.{fields_of};
ghost use Rattle.hashbag_csv.specs.Lines.{column_numbers};
ghost use Rattle.hashbag_csv.specs.Readers.{IsReader};

use crate::delimiter::Delimiter;
use crate::escaped::shown;
use crate::fault::{Fault, SheetError};
use crate::line_form::LineForm;
use crate::quotes::misplaced_quote;
use crate::trims::trim;
use csv::{ByteRecord, Position, Reader, ReaderBuilder};
use hashbag_shell::tips::Nearest;
use std::alloc::{AllocError, Global};
use std::fmt::Write;
use std::str;

// A byte order mark, which some programs write at the beginning of a text.
const BYTE_ORDER_MARK: &[u8] = b"\xef\xbb\xbf";

// How a message names a column whose name isn't UTF-8.
const NOT_UTF8: &str = "one that is not UTF-8";

// A message names at most this many columns.
const MOST_NAMED: usize = 12;

// Returns the name of the first delimiter other than `own` in these bytes, or `None`.
fn delimiter_in(bytes: &[u8], own: u8) -> Option<&'static str> {
    for byte in bytes {
        match *byte {
            byte if byte == own => {}
            b';' => return Some(";"),
            b'\t' => return Some("tab"),
            b',' => return Some(","),
            _ => {}
        }
    }
    None
}

// Returns whether a text begins with a byte order mark of UTF-16.
fn is_utf16(text: &[u8]) -> bool {
    text.starts_with(b"\xff\xfe") || text.starts_with(b"\xfe\xff")
}

// Returns the number of line feeds in these bytes.
fn line_feeds_in(bytes: &[u8]) -> u64 {
    let mut lines = 0u64;
    for byte in bytes {
        if *byte == b'\n' {
            lines = lines.saturating_add(1);
        }
    }
    lines
}

// Returns the line where the record read at `position` begins. The position is before the empty lines that the reader skips, so this
// function counts the empty lines.
fn line_number_of(text: &[u8], position: Position) -> u64 {
    let mut line = position.line();
    let rest = text.get(position.byte() as usize..).unwrap_or(&[]);
    for byte in rest {
        match byte {
            b'\n' => line = line.saturating_add(1),
            b'\r' => {}
            _ => break,
        }
    }
    line
}

// Returns the record of the numbers from 1 to `columns`.
fn numbers_to(alloc: Global, columns: usize) -> Result<ByteRecord, AllocError>
    ensures { IfOk result (λ numbers. fields_of numbers ≡ column_numbers columns) }
{
    let mut record = ByteRecord::new(alloc);
    'columns: for before in 0..columns {
        let number = (before + 1).to_string(alloc)?;
        record.push_field(number.as_bytes())?;
    }
    Ok(record)
}

/// A column of a sheet.
#[derive(Clone, Copy)]
pub struct Column<'n> {
    name: &'n str,
    // The index of the column's field; the number of fields of the header if the header lacks the column.
    place: usize,
}

/// A CSV text whose records are read one after the other.
///
/// The first record is the header, unless the list has no header. Each other record has as many fields as the header, or fewer if that is allowed.
/// A byte order mark and empty lines are skipped. A record ends at `\n`, `\r` or `\r\n`. A field may be in quotes, and two quotes in such a field
/// are one. A misplaced quote is an error.
#[derive(Drop)]
pub struct Sheet<'a> {
    alloc: Global,
    text: &'a [u8],
    delimiter: Delimiter,
    reader: Reader<&'a [u8]>,
    // The record that was read last, the header at first.
    record: ByteRecord,
    // The number of fields of the header.
    width: usize,
    // Whether a later record may have fewer fields.
    allows_short: bool,
    ghost reads: { has_failed reader ≡ false → IsReader delimiter reader },
}

impl<'a> Sheet<'a> {
    ghost use Rattle.std.specs.Prelude.{ℕ, ◌≢◌, ◌∷◌, [], Bool, get_or, true, IfErr, IfOk, IfSome, IsTrue, IsUtf8, ◌↔◌};
    ghost use Rattle.hashbag_csv.specs.BadLines.{IsTextError};
    ghost use Rattle.hashbag_csv.specs.KeyForms.{trimmed};
    ghost use Rattle.hashbag_csv.specs.Lines.{with_header, list_in, place_of};
    ghost use Rattle.hashbag_csv.specs.Readers.{IsNext, records_in};
    ghost use Rattle.hashbag_csv.specs.Sheets.{IsAtHeader, IsColumnError, IsOnlyAt, IsOpened, IsReadError, KeepsHeader, ReadsOne, fits_sheet, is_short_allowed, last_field, left, place, read_last};

    /// Opens the sheet of a text with commas between fields, and reads its header.
    pub fn open(alloc: Global, text: &'a [u8]) -> Result<Sheet<'a>, SheetError>
        // The header was read last. `left` are the records after it.
        ensures { IfOk result (λ sheet. records_in Delimiter.Comma text.now ≡ read_last sheet ∷ left sheet) }
    {
        Sheet::open_with(alloc, text, Delimiter::Comma)
    }

    /// Opens the sheet of a text with this delimiter between fields, and reads its header.
    pub fn open_with(
        alloc: Global,
        text: &'a [u8],
        delimiter: Delimiter,
    ) -> Result<Sheet<'a>, SheetError>
        // The header was read last. `left` are the records after it.
        ensures { IfOk result (λ sheet. records_in delimiter text.now ≡ read_last sheet ∷ left sheet) }
    {
        let sheet = Sheet::open_lines(alloc, text, delimiter, false)?;
        Ok(sheet)
    }

    /// Opens the sheet of a list whose lines are in the form `form`, and reads its header. If the form has no header, the columns are named
    /// `1`, `2` and so on, one for each field of the first record. Returns `None` if the form has no header and the list no record.
    pub fn open_list(
        alloc: Global,
        text: &'a [u8],
        delimiter: Delimiter,
        form: LineForm,
    ) -> Result<Option<Sheet<'a>>, SheetError>
        // `read_last` is the header, or the numbers that replace a missing header. `left` are the records after it. The result is `None` if there is
        // no record.
        ensures records { IfOk result (IsOpened (list_in delimiter form text.now)) }

        // The header has as many fields as the record that was read last. Records may have fewer fields exactly if `form.allows_short`.
        ensures width { IfOk result (λ opened. IfSome opened (IsAtHeader form.allows_short)) }
    {
        if form.no_header {
            return Sheet::open_numbered(alloc, text, delimiter, form.allows_short);
        }
        let sheet = Sheet::open_lines(alloc, text, delimiter, form.allows_short)?;
        Ok(Some(sheet))
    }

    /// Opens the sheet of a text with this delimiter between fields, and reads its header. If `allows_short`, a record may have fewer
    /// fields than the header.
    pub fn open_lines(
        alloc: Global,
        text: &'a [u8],
        delimiter: Delimiter,
        allows_short: bool,
    ) -> Result<Sheet<'a>, SheetError>
        // The header was read last. `left` are the records after it.
        ensures records { IfOk result (λ sheet. records_in delimiter text.now ≡ read_last sheet ∷ left sheet) }

        // The header has as many fields as the record that was read last. Records may have fewer fields exactly if `allows_short`.
        ensures width { IfOk result (IsAtHeader allows_short) }
    {
        let mut sheet = Sheet::open_unread(alloc, text, delimiter, allows_short)?;
        if sheet.read_next()? {
            sheet.width = sheet.record.len();
            Ok(sheet)
        } else {
            let fault = Fault::NoHeader;
            Err(SheetError::Line { line: 1, fault })
        }
    }

    // Opens the sheet of a text without a header. The numbers of the first record's fields replace the header. Returns `None` if the text has no
    // record.
    fn open_numbered(
        alloc: Global,
        text: &'a [u8],
        delimiter: Delimiter,
        allows_short: bool,
    ) -> Result<Option<Sheet<'a>>, SheetError>
        ensures records { IfOk result (IsOpened (with_header true (records_in delimiter text.now))) }
        ensures width { IfOk result (λ opened. IfSome opened (IsAtHeader allows_short)) }
    {
        let mut first = Sheet::open_unread(alloc, text, delimiter, allows_short)?;
        if !first.take_record()? {
            return Ok(None);
        }
        let mut sheet = Sheet::open_unread(alloc, text, delimiter, allows_short)?;
        sheet.width = first.record.len();
        sheet.record = numbers_to(alloc, sheet.width)?;
        Ok(Some(sheet))
    }

    // Opens the sheet of a text, and reads nothing of it.
    fn open_unread(
        alloc: Global,
        text: &'a [u8],
        delimiter: Delimiter,
        allows_short: bool,
    ) -> Result<Sheet<'a>, SheetError>
        ensures left { IfOk result (λ sheet. records_in delimiter text.now ≡ left sheet) }
        ensures short { IfOk result (λ sheet. is_short_allowed sheet ≡ allows_short) }
    {
        if is_utf16(text) {
            let fault = Fault::Utf16;
            return Err(SheetError::Line { line: 1, fault });
        }
        let text = text.strip_prefix(BYTE_ORDER_MARK).unwrap_or(text);
        Ok(Sheet {
            alloc,
            text,
            delimiter,
            reader: ReaderBuilder::new()
                .has_headers(false)
                .flexible(true)
                .delimiter(delimiter.byte())
                .from_reader(alloc, text),
            record: ByteRecord::new(alloc),
            width: 0,
            allows_short,
        })
    }

    /// Reads the next record, and returns whether there was one.
    pub fn read(&mut self) -> Result<bool, SheetError>
        // If `found`, the first record of `left` was read; else `left` was empty.
        ensures next { IfOk result (λ found. IsNext found (read_last self.new) (left self.old) (left self.new)) }

        // The record has as many fields as the header, or fewer if that is allowed.
        ensures fits { IfOk result (λ found. found ≡ true → fits_sheet self.old (read_last self.new) ≡ true) }

        // A quote is misplaced, or the record has the wrong number of fields; or the error is `Memory`.
        ensures fault { IfErr result (λ e. IsReadError (fits_sheet self.old (read_last self.new)) e) }

        // After any error but `Memory` the record has been read, so the next call reads the one after it.
        ensures reads_on { IfErr result (λ e. e ≢ SheetError.Memory → ReadsOne self.old self.new) }

        // The header's number of fields, and whether a record may have fewer, are unchanged.
        ensures same { KeepsHeader self.old self.new }
    {
        let found = self.read_next()?;
        if found && !self.fits() {
            return Err(self.fields_error());
        }
        Ok(found)
    }

    // Whether the record that was read last has as many fields as the header, or fewer if that is allowed.
    fn fits(&self) -> bool
        ensures { result ≡ fits_sheet self.now (read_last self.now) }
    {
        let found = self.record.len();
        if self.allows_short {
            return found <= self.width;
        }
        found == self.width
    }

    // Returns the error of the record that was read last, which doesn't fit the header.
    fn fields_error(&self) -> SheetError
        ensures { (fits : Bool) → fits ≡ false → IsReadError fits result }
    {
        self.bad_line(Fault::Fields {
            found: self.record.len() as u64,
            header: self.width as u64,
        })
    }

    // Reads the next record, which may have any number of fields, and returns whether there was one.
    fn read_next(&mut self) -> Result<bool, SheetError>
        ensures next { IfOk result (λ found. IsNext found (read_last self.new) (left self.old) (left self.new)) }
        ensures fault { IfErr result (λ e. (fits : Bool) → IsReadError fits e) }
        ensures reads_on { IfErr result (λ e. e ≢ SheetError.Memory → ReadsOne self.old self.new) }
        ensures same { KeepsHeader self.old self.new }
    {
        let found = self.take_record()?;
        if !found {
            return Ok(false);
        }
        match self.quote_error() {
            Some(error) => Err(error),
            None => Ok(true),
        }
    }

    // Reads the next record, whose quotes may be anywhere, and returns whether there was one. The text is in memory, so only an allocation
    // fails.
    fn take_record(&mut self) -> Result<bool, SheetError>
        ensures next { IfOk result (λ found. IsNext found (read_last self.new) (left self.old) (left self.new)) }
        ensures fault { IfErr result (λ e. e ≡ SheetError.Memory) }
        ensures same { KeepsHeader self.old self.new }
    {
        match self.reader.read_byte_record(&mut self.record) {
            Ok(found) => return Ok(found),
            Err(_) => return Err(SheetError::Memory),
        }
    }

    // Returns the error of the first misplaced quote in the record that was read last, or `None`.
    fn quote_error(&self) -> Option<SheetError>
        ensures { IfSome result (λ e. (fits : Bool) → IsReadError fits e) }
    {
        let start = self.record.position()?;
        let (from, end) = (
            start.byte() as usize,
            self.reader.position().byte() as usize,
        );
        let bytes = self.text.get(from..end).unwrap_or(&[]);
        let (index, misplaced) = misplaced_quote(bytes, self.delimiter.byte())?;
        let before = line_feeds_in(bytes.get(..index).unwrap_or(&[]));
        Some(SheetError::Line {
            line: start.line().saturating_add(before),
            fault: misplaced.fault(),
        })
    }

    /// Returns the line on which the record that was read last begins, from 1.
    pub fn line(&self) -> u64 {
        match self.record.position() {
            Some(position) => line_number_of(self.text, position),
            None => 1,
        }
    }

    // Returns the bytes of the field at this place in the record that was read last, or no bytes if the record has no such field.
    fn bytes_at(&self, place: usize) -> &[u8]
        ensures { result.now ≡ get_or (read_last self.now) place [] }
    {
        self.record.get(place).unwrap_or(&[])
    }

    // Whether the field at this place is the name.
    fn is_named(&self, place: usize, name: &str) -> bool
        ensures { IsTrue result ↔ (get_or (read_last self.now) place [] ≡ name.now) }
    {
        self.bytes_at(place) == name.as_bytes()
    }

    // Appends the name of the column at this place, as a message shows it.
    fn push_name(&self, text: &mut String, place: usize) -> Result<(), AllocError> {
        match str::from_utf8(self.bytes_at(place)) {
            Ok(name) => write!(text, "`{}`", shown(self.alloc, name)?),
            Err(_) => text.push_str(NOT_UTF8),
        }
    }

    // Appends a hint with the name in the header that is nearest to `name`, if one is near.
    fn push_near(&self, text: &mut String, name: &str) -> Result<(), AllocError> {
        let mut nearest = Nearest::new(name);
        for place in 0..self.record.len() {
            if let Ok(column) = str::from_utf8(self.bytes_at(place)) {
                nearest.offer(self.alloc, column)?;
            }
        }
        match nearest.name() {
            Some(column) => write!(text, "; is it `{}`?", shown(self.alloc, column)?),
            None => Ok(()),
        }
    }

    // Returns the names in the header, at most 12, and at most one hint: another delimiter, if the header has only one name, which contains that
    // delimiter; else the name nearest to `name`, if a name is near; else an encoding, if one of the returned names isn't UTF-8.
    fn names_shown(&self, name: &str) -> Result<String, AllocError> {
        let mut text = String::new(self.alloc);
        let columns = self.record.len();
        for place in 0..columns.min(MOST_NAMED) {
            if place > 0 {
                text.push_str(", ")?;
            }
            self.push_name(&mut text, place)?;
        }
        if columns > MOST_NAMED {
            write!(text, " and {} more", columns - MOST_NAMED)?;
        }
        if columns == 1
            && let Some(other) = delimiter_in(self.bytes_at(0), self.delimiter.byte())
        {
            write!(text, "; is the delimiter `{other}`?")?;
            return Ok(text);
        }
        let names = text.len();
        self.push_near(&mut text, name)?;
        if text.len() == names && text.contains(NOT_UTF8) {
            text.push_str("; if it is Windows-1252, `--encoding Windows-1252` reads it")?;
        }
        Ok(text)
    }

    /// Returns the column with this name in the header. Call it before the first [`Sheet::read`], which replaces the header.
    pub fn column<'n>(&self, name: &'n str) -> Result<Column<'n>, SheetError>
        // Only the column's field of the header is `name`. The error says that no field is `name`, or that several fields are; or it is `Memory`.
        ensures column { IfOk result (λ column. IsOnlyAt name.now (read_last self.now) (place column)) }
        ensures fault { IfErr result (λ e. IsColumnError name.now (read_last self.now) e) }
    {
        let mut found = None;
        for place in 0..self.record.len() {
            if self.is_named(place, name) {
                if found.is_some() {
                    let fault = Fault::TwoColumns(shown(self.alloc, name)?);
                    return Err(self.bad_line(fault));
                }
                found = Some(place);
            }
        }
        match found {
            Some(place) => Ok(Column { name, place }),
            None => {
                let names = self.names_shown(name)?;
                let name = shown(self.alloc, name)?;
                Err(self.bad_line(Fault::NoColumn { name, names }))
            }
        }
    }

    /// Returns the column with this name in the header. If the header lacks it, returns a column whose field is empty in each record. Call
    /// it before the first [`Sheet::read`], which replaces the header.
    pub fn column_or_empty<'n>(&self, name: &'n str) -> Result<Column<'n>, SheetError>
        // `place_of` is the index of the first field of the header that is `name`, or the header's number of fields if no field is.
        ensures { IfOk result (λ column. place column ≡ place_of (read_last self.now) name.now) }
    {
        match self.column(name) {
            Ok(column) => Ok(column),
            Err(
                SheetError::Line {
                    fault: Fault::NoColumn { .. },
                    ..
                },
            ) => {
                let place = self.record.len();
                Ok(Column { name, place })
            }
            Err(error) => Err(error),
        }
    }

    // Returns `bytes` as text. The bytes are of the field of `column`. An error names this column.
    fn text_of<'s>(&'s self, column: Column<'_>, bytes: &'s [u8]) -> Result<&'s str, SheetError>
        ensures value { IfOk result (λ text. text.now ≡ bytes.now) }
        ensures fault { IfErr result (λ e. IsTextError e) }
    {
        match str::from_utf8(bytes) {
            Ok(text) => Ok(text),
            Err(_) => {
                let fault = Fault::NotText(shown(self.alloc, column.name)?);
                Err(self.bad_line(fault))
            }
        }
    }

    /// Returns the field of a column in the record that was read last, as text.
    pub fn field(&self, column: Column<'_>) -> Result<&str, SheetError>
        // The text is the field; it is empty if the record has no such field. The error is that a field isn't UTF-8, or `Memory`.
        ensures value { IfOk result (λ text. text.now ≡ last_field self.now column.entry) }
        ensures fault { IfErr result (λ e. IsTextError e) }
    {
        self.text_of(column, self.bytes_at(column.place))
    }

    /// Returns the field of a column in the record that was read last, as text, without the spaces and tabs at both ends.
    pub fn trimmed_field(&self, column: Column<'_>) -> Result<&str, SheetError>
        // The text is the field without these ends; it is empty if the record has no such field. The error is that a field isn't UTF-8, or `Memory`.
        ensures value { IfOk result (λ text. text.now ≡ trimmed (last_field self.now column.entry)) }
        ensures fault { IfErr result (λ e. IsTextError e) }
    {
        self.text_of(column, trim(self.bytes_at(column.place)))
    }

    /// Returns an error with this fault, at the line on which the record that was read last begins.
    pub fn bad_line(&self, fault: Fault) -> SheetError
        // The error is `Line` with this fault. Which line it has isn't stated.
        ensures { (line : ℕ) × (result ≡ SheetError.Line line fault) }
    {
        let line = self.line();
        SheetError::Line { line, fault }
    }
}
