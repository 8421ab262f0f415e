//! Command lines with their files, and what must come, table by table.

mod bound_rows;
mod break_rows;
mod broken_region_rows;
mod check_rows;
mod cuts;
mod finding_rows;
mod guests;
mod hostile_rows;
mod learnt_rows;
mod measure_rows;
mod region_rows;
mod region_verdict_rows;
mod region_word_rows;
mod report_rows;
mod source_rows;
mod together_rows;
mod trial_rows;
mod verdict_guests;
mod verdict_rows;

/// What a file holds, or what must be put.
#[derive(Clone, Copy)]
pub enum Content {
    /// This text.
    Text(&'static str),
    /// These bytes.
    Raw(&'static [u8]),
    /// The program file of this code, one segment at 0x10000.
    Code(&'static [u32]),
    /// The first bytes of such a file, at most `HEAD`.
    Head(usize),
    /// So many bytes 0.
    Zeros(usize),
}

/// What fails while a row is answered.
#[derive(Clone, Copy)]
pub enum Failing {
    Nothing,
    /// The load of this number, counted from 1.
    Load(u64),
    /// The put, which takes so many bytes.
    Put(u32),
}

/// A command line, and what must come.
#[derive(Clone, Copy)]
pub struct Row {
    /// What is tested.
    pub name: &'static str,
    /// The words, with one space between two; a space at the end has an empty word after it.
    pub words: &'static str,
    /// The files under their names, beside and before `INPUTS`.
    pub files: &'static [(&'static str, Content)],
    pub failing: Failing,
    /// How many loads are made.
    pub loads: u64,
    pub status: u8,
    /// The text that is put.
    pub text: Content,
}

/// The tables.
pub const TABLES: [&[Row]; 36] = [
    &check_rows::JUDGED,
    &check_rows::REJECTED,
    &check_rows::REFUSED,
    &finding_rows::CLEAN,
    &finding_rows::UNCLEAR,
    &finding_rows::REGIONS,
    &bound_rows::BOUNDED,
    &bound_rows::ANY_PUBLIC,
    &bound_rows::UNCLEAR,
    &bound_rows::REFUSED,
    &source_rows::ROWS,
    &break_rows::CROSSINGS,
    &break_rows::BREAKS,
    &region_rows::READ,
    &region_rows::REFUSED,
    &region_word_rows::NAMED,
    &region_word_rows::REFUSED,
    &measure_rows::MEASURED,
    &measure_rows::REFUSED,
    &together_rows::MEASURED,
    &together_rows::REFUSED,
    &report_rows::REPORTS,
    &report_rows::TABLES,
    &report_rows::FOLDS,
    &learnt_rows::LEARNT,
    &learnt_rows::REFUSED,
    &trial_rows::ROWS,
    &hostile_rows::FAILING,
    &hostile_rows::FILES,
    &hostile_rows::GUESTS,
    &verdict_rows::WITHOUT_REGIONS,
    &region_verdict_rows::RUN,
    &region_verdict_rows::SKIPPED,
    &region_verdict_rows::LEFT,
    &broken_region_rows::BROKEN,
    &broken_region_rows::NOT_LEFT,
];
