//! The packages of an undo text.

ghost use Rattle.std.specs.Prelude.{◌≡◌, ◌<◌, ◌≤◌, ◌+◌, ◌-◌, ◌*◌, ◌++◌, ◌∷◌, ◌^◌, ℕ, [], All, IfOk, codes, get_or, length, min, slice_range, true};
ghost use Rattle.std.specs.List.{concat, range_with_len};
ghost use Rattle.line_pages.specs.Pieces.{piece_text};
ghost use Rattle.cohort_sizes.specs.Births.{born_count};
ghost use Rattle.schema_facts.specs.Layout.{layout_of};
ghost use Rattle.schema_facts.specs.TableFacts.{max_line};
ghost use Rattle.life_intervals.specs.Generator.{generator_of, last_unit, rows_in_all, table_of};
ghost use Rattle.life_intervals.specs.Intervals.{is_live};
ghost use Rattle.row_lines.specs.Runs.{line_for};
ghost use Rattle.undo_streams.specs.Packages.{AreChanges, count_of, most_bytes, room_of, text_numbered};
ghost use Rattle.undo_streams.specs.Parts.{adding, adding_each, dropping, dropping_each, setting, setting_each, taken_by};
ghost use Rattle.undo_streams.specs.UndoText.{undo_lines_of};

use crate::changes::Changes;
use life_intervals::Rows;
use line_pages::{PageBuf, Piece};
use out_of_memory::Memory;
use range_workers::Packer;
use row_lines::{RunBuf, RunLines, SpareBufs};
use schema_plan::Plan;
use std::alloc::Global;
use std::marker::{Brand, Model};
use std::sync::ledger::{Blank, Ledger};
use step_count::Steps;

/// The most bytes of a line of an undo text before the row's own: a word, a place and the delimiters after both.
pub const WORD_AND_PLACE: u64 = 26;

/// The packages of the undo text of a table at a unit, each of at most `size` lines. First come the lines that drop the inserted rows. Then
/// come the lines that set back the updated rows, and last the lines that add the deleted rows again. A package is made from what the unit
/// changes and from the table's lines at the unit before. A contract sees the plan, the table, the unit and the number of lines of a package.
pub struct UndoPacker<'a> {
    rows: &'a Rows<'a>,
    before: RunLines<'a>,
    table: u32,
    unit: u64,
    changes: Changes<'a>,
    size: u64,
    count: u64,
    room: usize,
    spare: SpareBufs,
}

impl Drop for UndoPacker<'_> {
    fn drop(self) {
        let UndoPacker {
            rows: _,
            before: _,
            table: _,
            unit: _,
            changes: _,
            size: _,
            count: _,
            room: _,
            spare,
        } = self;
        drop(spare);
    }
}

impl<'a> Model for UndoPacker<'a> {
    ghost use Rattle.undo_streams.specs.Kept.{AreKept};
    ghost use Rattle.undo_streams.specs.Packages.{Packages};

    ghost Value = { Packages };

    ghost view = { λ p. record { plan = p.rows.now; table = p.table; unit = p.unit; size = p.size } };

    ghost invariant = { λ p. AreKept (record { plan = p.rows.now; table = p.table; unit = p.unit; size = p.size }) p.before p.changes p.count p.room };
}

/// The lines from position `first` up to position `end`.
#[derive(Clone, Copy)]
struct Entries {
    first: u64,
    end: u64,
}

/// Returns the lines of one part among lines of all parts, counted from the part's first. The part has `count` lines, and `others` lines
/// stand before it.
fn taken(lines: Entries, others: u64, count: u64) -> Entries
    requires { lines.first ≤ lines.end }
    ensures first { result.first ≡ taken_by lines.first others count }
    ensures end { result.end ≡ taken_by lines.end others count }
    ensures ordered { result.first ≤ result.end }
    ensures within { result.end ≤ count }
{
    Entries {
        first: lines.first.saturating_sub(others).min(count),
        end: lines.end.saturating_sub(others).min(count),
    }
}

/// Returns a word of at most four bytes with the delimiter after it.
fn word_of(plan: &Plan, word: &[u8]) -> Piece
    requires { length word.now ≤ 4 }
    ensures { piece_text result ≡ word.now ++ (layout_of plan.now).delimiter ∷ [] }
{
    Piece::of(word).with(plan.delimiter())
}

/// Appends the line that drops a row. `word` is its word.
fn put_drop<L: Ledger>(
    rows: &Rows<'_>,
    table: u32,
    ordinal: u64,
    word: &Piece,
    page: &mut PageBuf,
    steps: &mut Steps<L>,
)
    requires table { table < length rows.now.schema.tables }
    requires row { ordinal < rows_in_all rows.now table }
    requires word { piece_text word.now ≡ codes "drop" ++ (layout_of rows.now).delimiter ∷ [] }
    requires room { length page.old.text + most_bytes rows.now table ≤ page.old.room }
    ensures text { page.new ≡ record page.old { text = page.old.text ++ dropping rows.now table ordinal } }
    ensures size { length (dropping rows.now table ordinal) ≤ most_bytes rows.now table }
{
    page.put_piece(word);
    page.put_number(rows.key(table, ordinal, steps));
    page.put_piece(&Piece::of_byte(b'\n'));
}

/// Appends the lines that drop `count` rows, from ordinal `first` on.
fn put_drops<L: Ledger>(
    rows: &Rows<'_>,
    table: u32,
    first: u64,
    count: u64,
    page: &mut PageBuf,
    steps: &mut Steps<L>,
)
    requires table { table < length rows.now.schema.tables }
    requires rows { first + count ≤ rows_in_all rows.now table }
    requires room { length page.old.text + count * most_bytes rows.now table ≤ page.old.room }
    ensures text { page.new ≡ record page.old { text = page.old.text ++ dropping_each rows.now table (range_with_len first count) } }
    ensures size { length (dropping_each rows.now table (range_with_len first count)) ≤ count * most_bytes rows.now table }
{
    let _limits = rows.plan().table(table); // it has at most 2^40 rows
    let word = word_of(rows.plan(), b"drop");
    for number in 0..count {
        put_drop(rows, table, first + number, &word, page, steps);
    }
}

/// Appends the line at the unit before of row number `i` of a list.
fn put_row<L: Ledger>(
    before: &RunLines<'_>,
    ordinals: &[u64],
    i: usize,
    work: &mut RunBuf,
    page: &mut PageBuf,
    steps: &mut Steps<L>,
)
    requires i { i < length ordinals.now }
    requires born { get_or ordinals.now i 0 < born_count (table_of before.now.plan before.now.table).births before.now.unit }
    requires alive { is_live (generator_of before.now.plan) before.now.table before.now.unit (get_or ordinals.now i 0) ≡ true }
    requires room { length page.old.text + max_line (layout_of before.now.plan) before.now.table ≤ page.old.room }
    ensures text { page.new ≡ record page.old { text = page.old.text ++ line_for before.now (get_or ordinals.now i 0) } }
    ensures size { length (line_for before.now (get_or ordinals.now i 0)) ≤ max_line (layout_of before.now.plan) before.now.table }
{
    before.put_listed(&ordinals[i..i + 1], work, page, steps);
}

/// Appends the lines that set rows back.
fn put_sets<L: Ledger>(
    plan: &Plan,
    before: &RunLines<'_>,
    updated: &[u64],
    work: &mut RunBuf,
    page: &mut PageBuf,
    steps: &mut Steps<L>,
)
    requires plan { before.now.plan ≡ plan.now }
    requires born { All (λ ordinal. ordinal < born_count (table_of before.now.plan before.now.table).births before.now.unit) updated.now }
    requires alive { All (λ ordinal. is_live (generator_of before.now.plan) before.now.table before.now.unit ordinal ≡ true) updated.now }
    requires room { length page.old.text + length updated.now * most_bytes before.now.plan before.now.table ≤ page.old.room }
    ensures text { page.new ≡ record page.old { text = page.old.text ++ setting_each before.now updated.now } }
    ensures size { length (setting_each before.now updated.now) ≤ length updated.now * most_bytes before.now.plan before.now.table }
{
    let word = word_of(plan, b"set");
    for i in 0..updated.len() {
        page.put_piece(&word);
        put_row(before, updated, i, work, page, steps);
    }
}

/// Appends the line that adds row number `i` of a list again, at its place in the table. `word` is its word.
fn put_add<L: Ledger>(
    before: &RunLines<'_>,
    ordinals: &[u64],
    i: usize,
    place: u64,
    word: &Piece,
    delimiter: &Piece,
    work: &mut RunBuf,
    page: &mut PageBuf,
    steps: &mut Steps<L>,
)
    requires i { i < length ordinals.now }
    requires born { get_or ordinals.now i 0 < born_count (table_of before.now.plan before.now.table).births before.now.unit }
    requires alive { is_live (generator_of before.now.plan) before.now.table before.now.unit (get_or ordinals.now i 0) ≡ true }
    requires word { piece_text word.now ≡ codes "add" ++ (layout_of before.now.plan).delimiter ∷ [] }
    requires delimiter { piece_text delimiter.now ≡ (layout_of before.now.plan).delimiter ∷ [] }
    requires room { length page.old.text + most_bytes before.now.plan before.now.table ≤ page.old.room }
    ensures text { page.new ≡ record page.old { text = page.old.text ++ adding before.now (get_or ordinals.now i 0) place } }
    ensures size { length (adding before.now (get_or ordinals.now i 0) place) ≤ most_bytes before.now.plan before.now.table }
{
    page.put_piece(word);
    page.put_number(place);
    page.put_piece(delimiter);
    put_row(before, ordinals, i, work, page, steps);
}

/// Appends the lines that add rows again, each at its place.
fn put_adds<L: Ledger>(
    plan: &Plan,
    before: &RunLines<'_>,
    deleted: &[u64],
    places: &[u64],
    work: &mut RunBuf,
    page: &mut PageBuf,
    steps: &mut Steps<L>,
)
    requires plan { before.now.plan ≡ plan.now }
    requires born { All (λ ordinal. ordinal < born_count (table_of before.now.plan before.now.table).births before.now.unit) deleted.now }
    requires alive { All (λ ordinal. is_live (generator_of before.now.plan) before.now.table before.now.unit ordinal ≡ true) deleted.now }
    requires places { length places.now ≡ length deleted.now }
    requires room { length page.old.text + length deleted.now * most_bytes before.now.plan before.now.table ≤ page.old.room }
    ensures text { page.new ≡ record page.old { text = page.old.text ++ adding_each before.now deleted.now places.now } }
    ensures size { length (adding_each before.now deleted.now places.now) ≤ length deleted.now * most_bytes before.now.plan before.now.table }
{
    let word = word_of(plan, b"add");
    let delimiter = Piece::of_byte(plan.delimiter());
    for i in 0..deleted.len() {
        let place = places[i];
        put_add(
            before, deleted, i, place, &word, &delimiter, work, page, steps,
        );
    }
}

/// Appends lines of an undo text to an empty page.
fn put_undo<B: Ledger>(
    rows: &Rows<'_>,
    before: &RunLines<'_>,
    table: u32,
    unit: u64,
    changes: &Changes<'_>,
    lines: Entries,
    work: &mut RunBuf,
    page: &mut PageBuf,
    blank: Blank,
)
    requires name { blank.name ≡ B.name }
    requires parts { blank.parts ≡ B.parts }
    requires some { 0 < blank.parts }
    requires table { table < length rows.now.schema.tables }
    requires later { 1 ≤ unit }
    requires unit { unit ≤ last_unit rows.now }
    requires before { before.now ≡ record { plan = rows.now; table = table; unit = unit - 1 } }
    requires changes { AreChanges rows.now table unit changes.now }
    requires ordered { lines.first ≤ lines.end }
    requires empty { page.old.text ≡ [] }
    requires room { min (lines.end - lines.first) (length (undo_lines_of rows.now unit table)) * most_bytes rows.now table ≤ page.old.room }
    ensures text { page.new ≡ record page.old { text = concat (slice_range (undo_lines_of rows.now unit table) lines.first lines.end) } }
    ensures size { length (concat (slice_range (undo_lines_of rows.now unit table) lines.first lines.end)) ≤ min (lines.end - lines.first) (length (undo_lines_of rows.now unit table)) * most_bytes rows.now table }
{
    let mut steps = Steps::<B>::new(blank);
    let steps = &mut steps;
    let plan = rows.plan();
    let _sound = plan.schema(); // so the simulation is its closed form
    let inserted = changes.inserted;
    let (updated, deleted) = (changes.updated, changes.deleted);
    let Entries { first, end } = taken(lines, 0, inserted.size);
    put_drops(
        rows,
        table,
        inserted.first + first,
        end - first,
        page,
        steps,
    );
    let others = inserted.size;
    let Entries { first, end } = taken(lines, others, updated.len() as u64);
    let listed = &updated[first as usize..end as usize];
    put_sets(plan, before, listed, work, page, steps);
    let others = others + updated.len() as u64;
    let Entries { first, end } = taken(lines, others, deleted.len() as u64);
    let listed = &deleted[first as usize..end as usize];
    let places = &changes.places[first as usize..end as usize];
    put_adds(plan, before, listed, places, work, page, steps);
}

/// Counts the lines of the undo text of the changes.
fn line_count(plan: &Plan, table: u32, unit: u64, changes: &Changes<'_>) -> u64
    requires table { table < length plan.now.schema.tables }
    requires later { 1 ≤ unit }
    requires unit { unit ≤ last_unit plan.now }
    requires changes { AreChanges plan.now table unit changes.now }
    ensures count { result ≡ length (undo_lines_of plan.now unit table) }
    ensures few { result ≤ 2 ^ 42 }
{
    let _sound = plan.schema(); // so the simulation is its closed form
    changes.inserted.size + changes.updated.len() as u64 + changes.deleted.len() as u64
}

impl<'a> UndoPacker<'a> {
    /// Returns the packages of the undo text of a table at unit `t`, each of at most `size` lines. `before` gives the table's lines at the
    /// unit before. Returns `Memory` if memory runs out.
    pub fn new(
        alloc: Global,
        rows: &'a Rows<'a>,
        before: RunLines<'a>,
        table: u32,
        t: u64,
        changes: Changes<'a>,
        size: u64,
    ) -> Result<UndoPacker<'a>, Memory>
        requires table { table < length rows.now.schema.tables }
        requires later { 1 ≤ t }
        requires unit { t ≤ last_unit rows.now }
        requires before { before ≡ record { plan = rows.now; table = table; unit = t - 1 } }
        requires changes { AreChanges rows.now table t changes }
        requires some_line { 1 ≤ size }
        requires size_limit { size ≤ 1000000 }
        ensures { IfOk result (λ packer. packer ≡ record { plan = rows.now; table = table; unit = t; size = size }) }
    {
        let plan = rows.plan();
        let _limits = plan.schema(); // no line is longer than 65,536 bytes
        let lines = line_count(plan, table, t, &changes);
        let spare = SpareBufs::new(alloc)?;
        Ok(UndoPacker {
            rows,
            before,
            table,
            unit: t,
            changes,
            size,
            count: (lines + (size - 1)) / size,
            room: (size.min(lines) * (WORD_AND_PLACE + plan.max_line(table))) as usize,
            spare,
        })
    }

    /// Makes a package with working lists of its own.
    #[inline(never)]
    fn pack_anew(&self, n: u64, page: &mut PageBuf)
        requires number { n < count_of self.now }
        requires empty { page.old.text ≡ [] }
        requires room { room_of self.now ≤ page.old.room }
        ensures text { page.new ≡ record page.old { text = text_numbered self.now n } }
        ensures size { length (text_numbered self.now n) ≤ room_of self.now }
    {
        self.pack_with(n, &mut RunBuf::new(), page);
    }

    /// Makes a package with the working lists `work`.
    fn pack_with(&self, n: u64, work: &mut RunBuf, page: &mut PageBuf)
        requires number { n < count_of self.now }
        requires empty { page.old.text ≡ [] }
        requires room { room_of self.now ≤ page.old.room }
        ensures text { page.new ≡ record page.old { text = text_numbered self.now n } }
        ensures size { length (text_numbered self.now n) ≤ room_of self.now }
    {
        let first = n * self.size;
        let lines = Entries {
            first,
            end: first + self.size,
        };
        put_undo::<Brand>(
            self.rows,
            &self.before,
            self.table,
            self.unit,
            &self.changes,
            lines,
            work,
            page,
            Blank::new(1),
        );
    }
}

impl<'a> Packer for UndoPacker<'a> {
    ghost text = { text_numbered };

    ghost count = { count_of };

    ghost room = { room_of };

    fn count(&self) -> u64 {
        self.count
    }

    fn room(&self) -> usize {
        self.room
    }

    fn pack(&self, n: u64, page: &mut PageBuf) {
        match self.spare.of(n) {
            Some(mut work) => self.pack_with(n, &mut work, page),
            None => self.pack_anew(n, page),
        }
    }
}
