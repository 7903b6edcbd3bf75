//! The records of a file, as `csv` cuts them, and which of them are rows.

ghost use Rattle.std.specs.Prelude.{◌≡◌, ◌≢◌, ◌<◌, ◌+◌, ◌∷◌, ◌||◌, [], true, false, length, None, Some, slice_index_or, IfOk, IfErr, OnOk, MatchOption, List, ℕ};
ghost use Rattle.csv.specs.Reading.{error_kind, is_flexible, names_headers, reader_config, reader_headers, reader_state, reader_trim, strip_bom};
ghost use Rattle.csv.specs.Records.{fields_of};
ghost use Rattle.csv.specs.declared.parser.State.TheVariants as st;
ghost use Rattle.csv.specs.declared.reader.Trim.TheVariants as trim_of;
ghost use Rattle.pesplib_reader.specs.declared.fault.FaultKind.TheVariants as kind;
ghost use Rattle.pesplib_reader.specs.Left.{IsBetween, IsNextRow, IsOfMemory, IsReading, IsWant, count_of, is_row, left_of, rows_left, source_in, trimmed_fields, unread};
ghost use Rattle.pesplib_reader.specs.Records as file;
ghost use Rattle.pesplib_reader.specs.RowFields.{activity_fields, time_fields};

use crate::rows::{ActivityRow, TimeRow};
use crate::trim::trim;
use crate::{FaultKind, ReadFault};
use csv::{ByteRecord, Error, Reader, ReaderBuilder};
use std::alloc::Global;

/// The records of a file, one at a time.
#[derive(Drop)]
pub(crate) struct Records<'a> {
    // Positioned after the last record that was read.
    reader: Reader<&'a [u8]>,
    // The last record that was read, without an empty last field.
    last: ByteRecord,
    // The number of records read.
    taken: u64,
    // Whether one of them was neither blank nor a comment.
    is_begun: bool,
}

/// A semicolon if the text has one anywhere, else a comma.
///
/// Even one in a comment decides, because rows are not known before the separator is.
fn separator(bytes: &[u8]) -> u8
    ensures { result ≡ file.separator_of bytes.now }
{
    if bytes.contains(&b';') { b';' } else { b',' }
}

/// A reader at the first record, with the file's separator. Otherwise it has the defaults of `csv`,
/// except that records may have any length, and that there is no header row.
fn reader(alloc: Global, bytes: &[u8]) -> Reader<&[u8]>
    ensures config { reader_config result ≡ file.with_separator (file.separator_of bytes.now) }
    ensures flexible { is_flexible result ≡ true }
    ensures headers { names_headers result ≡ false }
    ensures no_header { reader_headers result ≡ None }
    ensures plain { reader_trim result ≡ trim_of.None }
    ensures start { reader_state result ≡ st.StartRecord }
    ensures source { source_in result ≡ Some (strip_bom bytes.now) }
{
    ReaderBuilder::new()
        .delimiter(separator(bytes))
        .flexible(true)
        .has_headers(false)
        .from_reader(alloc, bytes)
}

/// Reads the next record, and returns whether there was one.
fn read_record(reader: &mut Reader<&[u8]>, fields: &mut ByteRecord) -> Result<bool, Error>
    requires { IsBetween reader.old }
    ensures none { IfOk result (λ found. found ≡ false → left_of reader.old ≡ []) }
    ensures next { IfOk result (λ found. found ≡ true
        → left_of reader.old ≡ fields_of fields.new ∷ left_of reader.new) }
    ensures between { IfOk result (λ found. found ≡ true → IsBetween reader.new) }
    ensures shorter { IfOk result (λ found. found ≡ true
        → length (unread reader.new) < length (unread reader.old)) }
    ensures memory { IfErr result (λ error. IsOfMemory (error_kind error)) }
{
    reader.read_byte_record(fields)
}

/// The field at an index, without blanks around it. It is empty if there is none.
fn field(fields: &ByteRecord, place: usize) -> &[u8]
    ensures { result.now ≡ slice_index_or (trimmed_fields fields.now) place [] }
{
    match fields.get(place) {
        Some(text) => trim(text),
        None => &[],
    }
}

/// Drops the last field, if it is empty.
fn drop_empty_end(fields: &mut ByteRecord)
    ensures { trimmed_fields fields.new ≡ file.fields_in (fields_of fields.old) }
{
    let count = fields.len();
    if count > 0 && field(fields, count - 1).is_empty() {
        fields.truncate(count - 1);
    }
}

/// The first byte of the first field, or 0 if there is none.
fn first_byte(fields: &ByteRecord) -> u8
    ensures { result ≡ file.first_byte (trimmed_fields fields.now) }
{
    match field(fields, 0).first() {
        Some(byte) => *byte,
        None => 0,
    }
}

/// Whether the record is neither blank nor a comment.
fn is_spoken(fields: &ByteRecord) -> bool
    ensures { result ≡ file.are_spoken (trimmed_fields fields.now) }
{
    !fields.is_empty() && first_byte(fields) != b'#'
}

/// Whether the record begins with a letter, as a header does.
fn is_named(fields: &ByteRecord) -> bool
    ensures { result ≡ file.are_named (trimmed_fields fields.now) }
{
    first_byte(fields).is_ascii_alphabetic()
}

/// The fields of a record that has as many as an activity row has.
pub(crate) fn activity_row(fields: &ByteRecord) -> Option<ActivityRow<'_>>
    ensures { MatchOption result (length (trimmed_fields fields.now) ≢ 6)
        (λ row. trimmed_fields fields.now ≡ activity_fields row) }
{
    if fields.len() != 6 {
        return None;
    }
    Some(ActivityRow {
        number: field(fields, 0),
        from: field(fields, 1),
        to: field(fields, 2),
        lower: field(fields, 3),
        upper: field(fields, 4),
        weight: field(fields, 5),
    })
}

/// The fields of a record that has as many as a row of a timetable has.
pub(crate) fn time_row(fields: &ByteRecord) -> Option<TimeRow<'_>>
    ensures { MatchOption result (length (trimmed_fields fields.now) ≢ 2)
        (λ row. trimmed_fields fields.now ≡ time_fields row) }
{
    if fields.len() != 2 {
        return None;
    }
    Some(TimeRow {
        event: field(fields, 0),
        time: field(fields, 1),
    })
}

impl<'a> Records<'a> {
    pub(crate) fn new(alloc: Global, bytes: &'a [u8]) -> Records<'a>
        ensures reading { IsReading result }
        ensures rows { rows_left result ≡ file.rows_of bytes.now }
        ensures count { count_of result ≡ length (file.records_of bytes.now) }
    {
        Records {
            reader: reader(alloc, bytes),
            last: ByteRecord::new(alloc),
            taken: 0,
            is_begun: false,
        }
    }

    /// The last record that was read.
    pub(crate) fn record(&self) -> &ByteRecord
        ensures { result.now ≡ self.now.last }
    {
        &self.last
    }

    /// A fault of the last record that was read.
    pub(crate) fn fault(&self, kind: FaultKind) -> ReadFault
        ensures { result ≡ record { place = self.now.taken; kind = kind } }
    {
        ReadFault {
            place: self.taken,
            kind,
        }
    }

    /// Reads the next record, and returns whether there was one.
    fn read(&mut self) -> Result<bool, ReadFault>
        requires { IsReading self.old }
        ensures none { IfOk result (λ found. found ≡ false → left_of self.old.reader ≡ []) }
        ensures next { IfOk result (λ found. found ≡ true → (fields : List (List ℕ))
            × (left_of self.old.reader ≡ fields ∷ left_of self.new.reader)
            × (trimmed_fields self.new.last ≡ file.fields_in fields)) }
        ensures reading { IfOk result (λ found. found ≡ true → IsReading self.new) }
        ensures taken { IfOk result (λ found. found ≡ true → self.new.taken ≡ self.old.taken + 1) }
        ensures begun { OnOk result (self.new.is_begun ≡ self.old.is_begun) }
        ensures fault { IfErr result (λ fault.
            fault ≡ record { place = self.old.taken + 1; kind = kind.Memory }) }
    {
        match read_record(&mut self.reader, &mut self.last) {
            Ok(true) => {
                self.taken += 1;
                drop_empty_end(&mut self.last);
                Ok(true)
            }
            Ok(false) => Ok(false),
            // Bytes in memory give no device error. No contract says so, and any error counts as
            // out of memory.
            Err(_) => Err(ReadFault {
                place: self.taken + 1,
                kind: FaultKind::Memory,
            }),
        }
    }

    /// Whether the last record that was read is a row: neither blank, nor a comment, nor the
    /// header.
    fn is_row(&mut self) -> bool
        ensures row { result ≡ is_row self.old.is_begun (trimmed_fields self.old.last) }
        ensures changes { self.new ≡ record self.old {
          is_begun = self.old.is_begun || file.are_spoken (trimmed_fields self.old.last);
        } }
    {
        let is_spoken = is_spoken(&self.last);
        let is_row = is_spoken && (self.is_begun || !is_named(&self.last));
        self.is_begun = self.is_begun || is_spoken;
        is_row
    }

    /// Reads on to the next row, and returns whether there was one.
    pub(crate) fn next(&mut self) -> Result<bool, ReadFault>
        requires { IsReading self.old }
        ensures found { IfOk result (λ found. found ≡ true → IsNextRow self.old self.new) }
        ensures none { IfOk result (λ found. found ≡ false → rows_left self.old ≡ []) }
        ensures want { IfErr result (λ fault. IsWant self.old fault) }
    {
        'records: while self.read()? {
            if self.is_row() {
                return Ok(true);
            }
        }
        Ok(false)
    }
}
