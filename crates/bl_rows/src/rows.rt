//! The reader of rows, fed with pieces of bytes.

ghost use Rattle.std.specs.Prelude.{◌≡◌, ◌≢◌, ◌++◌, ◌+◌, ◌<◌, ◌≤◌, ◌^◌, [], true, false, Option, Some, None, List};
ghost use Rattle.std.specs.Prelude.{ℕ, length, position, ◌==◌, ◌∷◌};
ghost use Rattle.std.specs.Prelude.{MatchOption, Ok, Err, IfOk, IfErr, IfSome, OnOk, OnErr};
ghost use Rattle.bl_rows.specs.Lines.{has_feed};
ghost use Rattle.bl_rows.specs.Fields.{records_in};
ghost use Rattle.bl_rows.specs.Reading.{empty_reading, read_on, rows_in, rows_after, rows_of, fault_in, call_answer, overrun, over_limit as past_limit_at};
ghost use Rattle.bl_rows.specs.Reading.{Unrefused, Front, led_by_rows, judged_line, place_after, fault_at_end, next_tick as tick_after, verdict as verdict_on};
ghost use Rattle.bl_rows.specs.inner.Steps.{IsNextRow, TakesLine, fault_of, rows_by};

use crate::fault::RowFault;
use crate::in_place::{PlainRow, plain_row};
use crate::record::{LONGEST_LINE, MOST_LINES, judge, over_limit};
use crate::verdict::{RowPlace, Verdict};
use bl_tree::row::{Column, Row};
use bl_tree::{List, NoMemory, Text};
use csv::ByteRecord;
use std::alloc::Global;
use std::marker::Model;

/// Reads rows from bytes that come in pieces, cut anywhere (docs/FORMATS.md, "Rows"). It keeps the unfinished line
/// and nothing of the lines before it.
#[derive(Drop)]
pub struct Rows {
    alloc: Global,
    columns: List<Column>,
    at: RowPlace,
    line: Vec<u8>,
    stop: Option<RowFault>,
    ended: bool,
}

impl Model for Rows {
    ghost use Rattle.std.specs.Prelude.{◌≡◌, ◌≤◌, ◌<◌, ◌^◌, ℕ, Some, false, length};
    ghost use Rattle.bl_rows.specs.Reading.{Reading};
    ghost use Rattle.bl_rows.specs.Lines.{has_feed};

    ghost Value = { Reading };

    ghost view = { λ rows. record { columns = rows.columns; at = rows.at; line = rows.line.items; stop = rows.stop; ended = rows.ended } };

    ghost invariant = { λ rows. (length rows.columns < 2 ^ 32) × (rows.at.lines ≤ 1000000)
        × ((t : ℕ) → rows.at.ticks ≡ Some t → t ≤ rows.at.lines)
        × (has_feed rows.line.items ≡ false) × (length rows.line.items ≤ 65536) };
}

impl Rows {
    /// A reader that has read nothing, for these inputs. Fails only for want of memory.
    #[tactic(auto, unfolding(crate::specs::Reading::rows_after, crate::specs::Reading::rows_of))]
    pub fn new(alloc: Global, ins: &List<Column>) -> Result<Rows, NoMemory>
        ensures begun { IfOk result (λ rows. rows ≡ empty_reading ins.now) }
        ensures told { IfOk result (λ rows. (bytes : List ℕ) → rows_after rows bytes ≡ rows_of bytes ins.now) }
    {
        if ins.len() > u32::MAX as usize {
            return Err(NoMemory);
        }
        Ok(Rows {
            alloc,
            columns: copy_columns(alloc, ins)?,
            at: RowPlace {
                lines: 0,
                ticks: None,
            },
            line: Vec::new(alloc),
            stop: None,
            ended: false,
        })
    }

    /// How many whole lines it has read.
    pub fn lines(&self) -> u32
        ensures lines { result ≡ self.now.at.lines }
        ensures few { result ≤ 1000000 }
    {
        self.at.lines
    }

    /// Reads on, and appends the rows of the lines that become whole. A fault comes at the first bad line: at its line
    /// feed, or already at the first byte past a limit. It comes again at every later call, want of memory too.
    pub fn feed(&mut self, piece: &[u8], into: &mut Vec<Row>) -> Result<(), RowFault>
        requires { self.old.ended ≡ false }
        ensures answer { Unrefused result (result ≡ call_answer (fault_in self.old piece.now)) }
        ensures rows { Unrefused result (into.new.items ≡ into.old.items ++ rows_in self.old piece.now) }
        ensures front { Front into.old.items into.new.items (rows_in self.old piece.now) }
        ensures state { OnOk result (self.new ≡ read_on self.old piece.now) }
        ensures any_cut { (rest : List ℕ) → Unrefused result
            (rows_after self.old (piece.now ++ rest) ≡ led_by_rows (rows_in self.old piece.now) (rows_after self.new rest)) }
        ensures joins { OnOk result ((more : List ℕ) → (rows_in self.old (piece.now ++ more) ≡ rows_in self.old piece.now ++ rows_in self.new more)
            × (fault_in self.old (piece.now ++ more) ≡ fault_in self.new more)) }
        ensures stop { IfErr result (λ fault. self.new.stop ≡ Some fault) }
        ensures repeats { IfSome self.old.stop (λ fault. (result ≡ Err fault) × (self.new ≡ self.old)) }
        ensures short { length self.new.line ≤ 65536 }
        ensures open { self.new.ended ≡ false }
    {
        if let Some(fault) = self.stop {
            return Err(fault);
        }
        let taken = self.take_lines(piece, into);
        self.answer(taken)
    }

    /// Says that the bytes end, and appends the row of the unfinished line if it is one. After Ok neither call may be
    /// made again.
    pub fn finish(&mut self, into: &mut Vec<Row>) -> Result<(), RowFault>
        requires { self.old.ended ≡ false }
        ensures answer { Unrefused result (result ≡ call_answer (rows_after self.old []).fault) }
        ensures rows { Unrefused result (into.new.items ≡ into.old.items ++ (rows_after self.old []).rows) }
        ensures front { Front into.old.items into.new.items (rows_after self.old []).rows }
        ensures stop { IfErr result (λ fault. self.new.stop ≡ Some fault) }
        ensures repeats { IfSome self.old.stop (λ fault. (result ≡ Err fault) × (self.new ≡ self.old)) }
        ensures open { IfErr result (λ fault. self.new.ended ≡ false) }
        ensures ended { OnOk result (self.new.ended ≡ true) }
    {
        if let Some(fault) = self.stop {
            return Err(fault);
        }
        let taken = self.take_last(into);
        self.answer(taken)?;
        self.ended = true;
        Ok(())
    }

    // The answer of a call that took these lines, and the fault that later calls repeat.
    fn answer(&mut self, taken: Result<(), NoMemory>) -> Result<(), RowFault>
        ensures taken { OnOk taken ((result ≡ call_answer self.old.stop) × (self.new ≡ self.old)) }
        ensures refused { OnErr taken ((result ≡ Err RowFault.NoMemory) × (self.new ≡ record self.old { stop = Some RowFault.NoMemory })) }
        ensures short { length self.new.line ≤ 65536 }
    {
        if taken.is_err() {
            self.stop = Some(RowFault::NoMemory);
        }
        match self.stop {
            Some(fault) => Err(fault),
            None => Ok(()),
        }
    }

    // Takes the whole lines of a piece, and keeps the rest.
    fn take_lines(&mut self, piece: &[u8], into: &mut Vec<Row>) -> Result<(), NoMemory>
        requires { self.old.stop ≡ None }
        ensures stop { OnOk result (self.new.stop ≡ fault_in self.old piece.now) }
        ensures rows { OnOk result (into.new.items ≡ into.old.items ++ rows_in self.old piece.now) }
        ensures front { Front into.old.items into.new.items (rows_in self.old piece.now) }
        ensures state { OnOk result (self.new.stop ≡ None → self.new ≡ read_on self.old piece.now) }
        ensures columns { self.new.columns ≡ self.old.columns }
        ensures ended { self.new.ended ≡ self.old.ended }
    {
        let mut fields = ByteRecord::new(self.alloc);
        let mut rest = piece;
        'lines: while self.stop.is_none() {
            match self.take_next(rest, &mut fields, into)? {
                Some(taken) => rest = &rest[taken..],
                None => return self.keep(rest),
            }
        }
        Ok(())
    }

    // Takes the first line of these bytes, where a line feed ends it, and gives how many bytes it takes with that.
    fn take_next(
        &mut self,
        rest: &[u8],
        fields: &mut ByteRecord,
        into: &mut Vec<Row>,
    ) -> Result<Option<usize>, NoMemory>
        requires stop { self.old.stop ≡ None }
        ensures taken { IfOk result (λ found. IfSome found (λ taken. TakesLine self.old rest.now into.old.items taken into.new.items self.new)) }
        ensures feedless { IfOk result (λ found. found ≡ None → has_feed rest.now ≡ false) }
        ensures same { IfOk result (λ found. found ≡ None → self.new ≡ self.old) }
        ensures no_row { IfOk result (λ found. found ≡ None → into.new.items ≡ into.old.items) }
        ensures none { OnErr result (into.new.items ≡ into.old.items) }
        ensures columns { self.new.columns ≡ self.old.columns }
        ensures ended { self.new.ended ≡ self.old.ended }
    {
        if let Some(found) = self.plain_row(rest)? {
            self.apply(Verdict::Numbers(found.row), into)?;
            return Ok(Some(found.end + 1));
        }
        match first_line(rest) {
            Some((line, _)) => {
                self.take_line(line, fields, into)?;
                Ok(Some(line.len() + 1))
            }
            None => Ok(None),
        }
    }

    // The row that the first line of these bytes gives, where a row is wanted and the line is plain.
    fn plain_row(&self, rest: &[u8]) -> Result<Option<PlainRow>, NoMemory>
        ensures { IfOk result (λ found. IfSome found (λ it. IsNextRow self.now rest.now it.row it.end)) }
    {
        let Some(ticks) = self.at.ticks else {
            return Ok(None);
        };
        if self.has_begun_line() || self.at.lines >= MOST_LINES {
            return Ok(None);
        }
        match plain_row(self.alloc, &self.columns, ticks + 1, rest)? {
            Some(found) if found.end <= LONGEST_LINE => Ok(Some(found)),
            _ => Ok(None),
        }
    }

    // Keeps the bytes of an unfinished line, or stops where they are too many.
    #[tactic(auto, using(crate::proofs::Verdicts::kept_short, crate::proofs::Cuts::feedless_append))]
    fn keep(&mut self, rest: &[u8]) -> Result<(), NoMemory>
        requires stop { self.old.stop ≡ None }
        requires rest { has_feed rest.now ≡ false }
        ensures stop { OnOk result (self.new.stop ≡ overrun self.old.at (self.old.line ++ rest.now)) }
        ensures line { OnOk result (self.new.stop ≡ None → self.new.line ≡ self.old.line ++ rest.now) }
        ensures at { self.new.at ≡ self.old.at }
        ensures columns { self.new.columns ≡ self.old.columns }
        ensures ended { self.new.ended ≡ self.old.ended }
    {
        if let Some(fault) = self.overrun(rest) {
            self.stop = Some(fault);
            return Ok(());
        }
        self.line.extend_from_slice(rest)?;
        Ok(())
    }

    // The fault of the line with these bytes at its end, where it is past a limit.
    fn past_limit(&self, end: &[u8]) -> Option<RowFault>
        ensures { result ≡ past_limit_at self.now.at (length (self.now.line ++ end.now)) }
    {
        over_limit(self.at, self.line.len() + end.len())
    }

    // The same of a line that goes on, and that may not have begun.
    fn overrun(&self, end: &[u8]) -> Option<RowFault>
        ensures { result ≡ overrun self.now.at (self.now.line ++ end.now) }
    {
        if self.line.is_empty() && end.is_empty() {
            return None;
        }
        self.past_limit(end)
    }

    // Takes the line that ends with these bytes.
    #[tactic(auto, using(crate::proofs::Verdicts::past_limit, crate::proofs::Verdicts::in_limit))]
    fn take_line(
        &mut self,
        end: &[u8],
        fields: &mut ByteRecord,
        into: &mut Vec<Row>,
    ) -> Result<(), NoMemory>
        requires stop { self.old.stop ≡ None }
        requires end { has_feed end.now ≡ false }
        ensures stop { OnOk result (self.new.stop ≡ fault_of (verdict_on self.old.columns self.old.at (self.old.line ++ end.now))) }
        ensures at { OnOk result (self.new.at ≡ place_after self.old.at (verdict_on self.old.columns self.old.at (self.old.line ++ end.now))) }
        ensures rows { OnOk result (into.new.items ≡ into.old.items ++ rows_by (verdict_on self.old.columns self.old.at (self.old.line ++ end.now))) }
        ensures line { OnOk result (self.new.stop ≡ None → self.new.line ≡ []) }
        ensures none { OnErr result (into.new.items ≡ into.old.items) }
        ensures columns { self.new.columns ≡ self.old.columns }
        ensures ended { self.new.ended ≡ self.old.ended }
    {
        if let Some(fault) = self.past_limit(end) {
            self.stop = Some(fault);
            return Ok(());
        }
        let verdict = self.judge_line(end, fields)?;
        self.apply(verdict, into)
    }

    // What the line is that ends with these bytes. None of it is kept.
    #[tactic(auto, using(crate::proofs::Cuts::feedless_append))]
    fn judge_line(&mut self, end: &[u8], fields: &mut ByteRecord) -> Result<Verdict, NoMemory>
        requires lines { self.old.at.lines < 1000000 }
        requires end { has_feed end.now ≡ false }
        requires size { length self.old.line + length end.now ≤ 65536 }
        ensures verdict { IfOk result (λ found. found ≡ judged_line self.old.columns self.old.at (records_in (self.old.line ++ end.now))) }
        ensures line { OnOk result (self.new ≡ record self.old { line = [] }) }
        ensures same { self.new ≡ record self.old { line = self.new.line } }
    {
        if self.line.is_empty() {
            return judge(self.alloc, &self.columns, self.at, end, fields);
        }
        self.line.extend_from_slice(end)?;
        let verdict = judge(
            self.alloc,
            &self.columns,
            self.at,
            self.line.as_slice(),
            fields,
        )?;
        self.line.clear();
        Ok(verdict)
    }

    // Goes on after a line.
    fn apply(&mut self, verdict: Verdict, into: &mut Vec<Row>) -> Result<(), NoMemory>
        requires lines { self.old.at.lines < 1000000 }
        requires stop { self.old.stop ≡ None }
        requires line { self.old.line ≡ [] }
        ensures stop { OnOk result (self.new.stop ≡ fault_of verdict) }
        ensures at { OnOk result (self.new.at ≡ place_after self.old.at verdict) }
        ensures rows { OnOk result (into.new.items ≡ into.old.items ++ rows_by verdict) }
        ensures line { self.new.line ≡ [] }
        ensures none { OnErr result (into.new.items ≡ into.old.items) }
        ensures columns { self.new.columns ≡ self.old.columns }
        ensures ended { self.new.ended ≡ self.old.ended }
    {
        match verdict {
            Verdict::Passed => self.at.lines += 1,
            Verdict::Header => {
                self.at = RowPlace {
                    lines: self.at.lines + 1,
                    ticks: Some(0),
                };
            }
            Verdict::Numbers(row) => {
                if into.push(row).is_err() {
                    return Err(NoMemory);
                }
                self.at = next_tick(self.at);
            }
            Verdict::Bad(fault) => self.stop = Some(fault),
        }
        Ok(())
    }

    // Takes the unfinished line where there is one, and asks for the header.
    fn take_last(&mut self, into: &mut Vec<Row>) -> Result<(), NoMemory>
        requires { self.old.stop ≡ None }
        ensures stop { OnOk result (self.new.stop ≡ (rows_after self.old []).fault) }
        ensures rows { OnOk result (into.new.items ≡ into.old.items ++ (rows_after self.old []).rows) }
        ensures front { Front into.old.items into.new.items (rows_after self.old []).rows }
        ensures ended { self.new.ended ≡ self.old.ended }
    {
        self.take_rest(into)?;
        self.ask_for_header();
        Ok(())
    }

    // Takes the unfinished line where there is one.
    fn take_rest(&mut self, into: &mut Vec<Row>) -> Result<(), NoMemory>
        requires { self.old.stop ≡ None }
        ensures stop { OnOk result (fault_at_end self.new.at self.new.stop ≡ (rows_after self.old []).fault) }
        ensures rows { OnOk result (into.new.items ≡ into.old.items ++ (rows_after self.old []).rows) }
        ensures front { Front into.old.items into.new.items (rows_after self.old []).rows }
        ensures ended { self.new.ended ≡ self.old.ended }
    {
        if !self.has_begun_line() {
            return Ok(());
        }
        let mut fields = ByteRecord::new(self.alloc);
        self.take_line(&[], &mut fields, into)
    }

    // Whether the unfinished line has any bytes.
    fn has_begun_line(&self) -> bool
        ensures none { result ≡ false → self.now.line ≡ [] }
        ensures some { result ≡ true → self.now.line ≢ [] }
        ensures feedless { has_feed self.now.line ≡ false }
    {
        !self.line.is_empty()
    }

    // Stops a reader of bytes that end without a header.
    fn ask_for_header(&mut self)
        ensures stop { self.new.stop ≡ fault_at_end self.old.at self.old.stop }
        ensures ended { self.new.ended ≡ self.old.ended }
    {
        if self.stop.is_none() && self.at.ticks.is_none() {
            self.stop = Some(RowFault::BadHeader {
                line: self.at.lines + 1,
            });
        }
    }
}

// Where a reader stands after a row.
fn next_tick(at: RowPlace) -> RowPlace
    requires lines { at.lines < 1000000 }
    requires ticks { (t : ℕ) → at.ticks ≡ Some t → t ≤ at.lines }
    ensures place { result ≡ record { lines = at.lines + 1; ticks = tick_after at.ticks } }
    ensures ticks { (t : ℕ) → result.ticks ≡ Some t → t ≤ result.lines }
{
    RowPlace {
        lines: at.lines + 1,
        ticks: match at.ticks {
            Some(t) => Some(t + 1),
            None => None,
        },
    }
}

// The place of the first line feed.
fn first_feed(bytes: &[u8]) -> Option<usize>
    ensures { result ≡ position (λ b. b == 10) bytes.now }
{
    bytes.iter().position(|b| *b == b'\n')
}

// The first line that a line feed ends, and the bytes after that.
fn first_line(bytes: &[u8]) -> Option<(&[u8], &[u8])>
    ensures { MatchOption result (has_feed bytes.now ≡ false) (λ parts. (has_feed parts.0.now ≡ false)
        × (bytes.now ≡ parts.0.now ++ 10 ∷ parts.1.now)) }
{
    match first_feed(bytes) {
        Some(end) => Some((&bytes[..end], &bytes[end + 1..])),
        None => None,
    }
}

fn copy_columns(alloc: Global, columns: &List<Column>) -> Result<List<Column>, NoMemory>
    ensures { IfOk result (λ copy. copy ≡ columns.now) }
{
    let mut copies = List::new(alloc);
    'columns: for column in columns.iter() {
        copies.push(Column {
            name: Text::copy_of(alloc, column.name.as_str())?,
            ty: column.ty,
        })?;
    }
    Ok(copies)
}
