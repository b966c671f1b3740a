//! Why a request isn't carried out: the fault of the stage that found it. The fault of a stage isn't changed.

ghost use Rattle.std.specs.Prelude.{◌≡◌};
ghost use Rattle.refusals.specs.Messages.{message_of};
ghost use Rattle.refusals.specs.Statuses.{applying_status, reading_status, status_of};
ghost use Rattle.refusals.specs.declared.refusal.DetailsCause.TheVariants as details_cause;
ghost use Rattle.refusals.specs.declared.refusal.DictionaryCause.TheVariants as dictionary_cause;
ghost use Rattle.refusals.specs.declared.refusal.InputCause.TheVariants as input_cause;
ghost use Rattle.refusals.specs.declared.refusal.PlanFault.TheVariants as plan_fault;
ghost use Rattle.refusals.specs.declared.refusal.JobFault.TheVariants as job_fault;
ghost use Rattle.refusals.specs.declared.refusal.Refusal.TheVariants as refusal;

use crate::FileName;
use crate::message::{line, put_refusal};
use dictionaries::DictFault;
use out_of_memory::Memory;
use pd_outside::{Message, ReadFault};
use request_words::{OptionName, UsageFault};
use schema_check::CheckFault;
use schema_read::ReadSchemaFault;
use stream_apply::ApplyFault;

/// Why a request isn't carried out.
#[derive(Clone, Copy, Debug, PartialEq, Eq)]
pub enum Refusal {
    /// The words give no request.
    Words(UsageFault),
    /// The request gives no job.
    Job(JobFault),
}

/// Why a request gives no job.
#[derive(Clone, Copy, Debug, PartialEq, Eq)]
pub enum JobFault {
    /// The schema has no plan.
    Plan(PlanFault),
    /// The schema doesn't have what the option names.
    Range(OptionName),
    /// A file that is to be applied isn't read or can't be applied.
    Input(InputFault),
    /// The file of a declaration gives no detail table.
    Details(DetailsCause),
    /// Memory ran out.
    Memory,
}

/// Why a schema's name gives no plan.
#[derive(Clone, Copy, Debug, PartialEq, Eq)]
pub enum PlanFault {
    /// The schema's text wasn't read.
    Reading(ReadFault),
    /// The text is no schema.
    Schema(ReadSchemaFault),
    /// A dictionary that the schema cites isn't read.
    Dictionary(DictionaryFault),
    /// The schema breaks a rule, or memory ran out.
    Check(CheckFault),
}

/// Which dictionary isn't read, and why.
#[derive(Clone, Copy, Debug, PartialEq, Eq)]
pub struct DictionaryFault {
    /// The dictionary's number in the order of first citation, counted from 1.
    pub number: u64,
    /// Why it isn't read.
    pub cause: DictionaryCause,
}

/// Why a file gives no dictionary.
#[derive(Clone, Copy, Debug, PartialEq, Eq)]
pub enum DictionaryCause {
    /// The file wasn't read.
    Reading(ReadFault),
    /// Its bytes are no dictionary.
    Grammar(DictFault),
    /// Memory ran out.
    Memory,
}

/// Which file isn't applied, and why.
#[derive(Clone, Copy, Debug, PartialEq, Eq)]
pub struct InputFault {
    /// The file's name, without its directory.
    pub file: FileName,
    /// Why it isn't applied.
    pub cause: InputCause,
}

/// Why a file isn't applied.
#[derive(Clone, Copy, Debug, PartialEq, Eq)]
pub enum InputCause {
    /// The file wasn't read.
    Reading(ReadFault),
    /// Its bytes are no lines of a table, or don't fit the table to which they are applied.
    Applying(ApplyFault),
    /// A record of its CSV is bad. This is the number of the first bad one, counted from 1.
    BadRecord(u64),
    /// A line of the file can't be undone.
    Reverting(LineFault),
}

/// Which line of a file can't be undone, and why.
#[derive(Clone, Copy, Debug, PartialEq, Eq)]
pub struct LineFault {
    /// The line's number, counted from 1.
    pub line: u64,
    /// What is wrong with the line.
    pub reason: LineReason,
}

/// What is wrong with a line of an undo text.
#[derive(Clone, Copy, Debug, PartialEq, Eq)]
pub enum LineReason {
    /// The line isn't of the right form.
    BadLine,
    /// An earlier line has the line's key.
    DoubleKey,
    /// The table doesn't hold the line's key.
    NoSuchKey,
    /// The table already holds the line's key.
    KeyExists,
    /// The line's place isn't greater than that of the line added before, or is past the end of the list.
    BadPlace,
}

/// Why the file of a declaration gives no detail table.
#[derive(Clone, Copy, Debug, PartialEq, Eq)]
pub enum DetailsCause {
    /// The file wasn't read.
    Reading(ReadFault),
    /// The bytes aren't a TOML document.
    Syntax,
    /// A key is missing, is of another type, or has no place there.
    WrongForm,
    /// A word list that the declaration cites isn't read.
    Dictionary(DictionaryFault),
    /// The declaration breaks the rule of this number, and none before it. The number 1 means E1.
    Rule(u32),
    /// Memory ran out.
    Memory,
}

impl Refusal {
    /// Returns the exit status.
    pub fn status(&self) -> u8
        ensures { result ≡ status_of self.now }
    {
        match self {
            Refusal::Words(UsageFault::Memory) => 7,
            Refusal::Words(_) => 2,
            Refusal::Job(fault) => fault.status(),
        }
    }

    /// Returns the message: one line with its line feed.
    pub fn message(self) -> Message
        ensures { result ≡ message_of self }
    {
        let mut words = Message::new();
        put_refusal(&mut words, self);
        line(words.text())
    }
}

impl JobFault {
    ghost use Rattle.refusals.specs.Statuses.{job_status};

    fn status(&self) -> u8
        ensures { result ≡ job_status self.now }
    {
        match self {
            JobFault::Plan(fault) => fault.status(),
            JobFault::Range(_) => 8,
            JobFault::Input(fault) => fault.cause.status(),
            JobFault::Details(cause) => cause.status(),
            JobFault::Memory => 7,
        }
    }
}

impl DetailsCause {
    ghost use Rattle.refusals.specs.Statuses.{details_status};

    fn status(self) -> u8
        ensures { result ≡ details_status self }
    {
        match self {
            DetailsCause::Reading(fault) => reading_status(fault),
            DetailsCause::Syntax | DetailsCause::WrongForm => 3,
            DetailsCause::Dictionary(fault) => fault.cause.status(),
            DetailsCause::Rule(_) => 4,
            DetailsCause::Memory => 7,
        }
    }
}

impl PlanFault {
    ghost use Rattle.refusals.specs.Statuses.{plan_status};

    fn status(self) -> u8
        ensures { result ≡ plan_status self }
    {
        match self {
            PlanFault::Reading(fault) => reading_status(fault),
            PlanFault::Schema(ReadSchemaFault::Memory | ReadSchemaFault::ParseMemory)
            | PlanFault::Check(CheckFault::Memory) => 7,
            PlanFault::Schema(_) => 3,
            PlanFault::Dictionary(fault) => fault.cause.status(),
            PlanFault::Check(_) => 4,
        }
    }
}

impl DictionaryCause {
    ghost use Rattle.refusals.specs.Statuses.{cause_status};

    fn status(self) -> u8
        ensures { result ≡ cause_status self }
    {
        match self {
            DictionaryCause::Reading(fault) => reading_status(fault),
            DictionaryCause::Grammar(DictFault::Memory) | DictionaryCause::Memory => 7,
            DictionaryCause::Grammar(_) => 4,
        }
    }
}

impl InputCause {
    ghost use Rattle.refusals.specs.Statuses.{input_cause_status};

    fn status(self) -> u8
        ensures { result ≡ input_cause_status self }
    {
        match self {
            InputCause::Reading(fault) => reading_status(fault),
            InputCause::Applying(fault) => applying_status(fault),
            InputCause::BadRecord(_) | InputCause::Reverting(_) => 9,
        }
    }
}

/// Returns the status for a file that wasn't read.
fn reading_status(fault: ReadFault) -> u8
    ensures { result ≡ reading_status fault }
{
    match fault {
        ReadFault::Failed => 5,
        ReadFault::TooLong => 10,
        ReadFault::Memory => 7,
    }
}

/// Returns the status for bytes that aren't applied.
fn applying_status(fault: ApplyFault) -> u8
    ensures { result ≡ applying_status fault }
{
    match fault {
        ApplyFault::Memory => 7,
        _ => 9,
    }
}

impl From<UsageFault> for Refusal {
    ghost from_gives = { λ fault made. made ≡ refusal.Words fault };

    fn from(fault: UsageFault) -> Refusal {
        Refusal::Words(fault)
    }
}

impl From<JobFault> for Refusal {
    ghost from_gives = { λ fault made. made ≡ refusal.Job fault };

    fn from(fault: JobFault) -> Refusal {
        Refusal::Job(fault)
    }
}

impl From<PlanFault> for JobFault {
    ghost from_gives = { λ fault made. made ≡ job_fault.Plan fault };

    fn from(fault: PlanFault) -> JobFault {
        JobFault::Plan(fault)
    }
}

impl From<InputFault> for JobFault {
    ghost from_gives = { λ fault made. made ≡ job_fault.Input fault };

    fn from(fault: InputFault) -> JobFault {
        JobFault::Input(fault)
    }
}

impl From<DetailsCause> for JobFault {
    ghost from_gives = { λ cause made. made ≡ job_fault.Details cause };

    fn from(cause: DetailsCause) -> JobFault {
        JobFault::Details(cause)
    }
}

impl From<Memory> for JobFault {
    ghost from_gives = { λ fault made. made ≡ job_fault.Memory };

    fn from(_: Memory) -> JobFault {
        JobFault::Memory
    }
}

impl From<ReadFault> for PlanFault {
    ghost from_gives = { λ fault made. made ≡ plan_fault.Reading fault };

    fn from(fault: ReadFault) -> PlanFault {
        PlanFault::Reading(fault)
    }
}

impl From<ReadSchemaFault> for PlanFault {
    ghost from_gives = { λ fault made. made ≡ plan_fault.Schema fault };

    fn from(fault: ReadSchemaFault) -> PlanFault {
        PlanFault::Schema(fault)
    }
}

impl From<CheckFault> for PlanFault {
    ghost from_gives = { λ fault made. made ≡ plan_fault.Check fault };

    fn from(fault: CheckFault) -> PlanFault {
        PlanFault::Check(fault)
    }
}

impl From<DictionaryFault> for PlanFault {
    ghost from_gives = { λ fault made. made ≡ plan_fault.Dictionary fault };

    fn from(fault: DictionaryFault) -> PlanFault {
        PlanFault::Dictionary(fault)
    }
}

impl From<ReadFault> for DetailsCause {
    ghost from_gives = { λ fault made. made ≡ details_cause.Reading fault };

    fn from(fault: ReadFault) -> DetailsCause {
        DetailsCause::Reading(fault)
    }
}

impl From<DictionaryFault> for DetailsCause {
    ghost from_gives = { λ fault made. made ≡ details_cause.Dictionary fault };

    fn from(fault: DictionaryFault) -> DetailsCause {
        DetailsCause::Dictionary(fault)
    }
}

impl From<ReadFault> for DictionaryCause {
    ghost from_gives = { λ fault made. made ≡ dictionary_cause.Reading fault };

    fn from(fault: ReadFault) -> DictionaryCause {
        DictionaryCause::Reading(fault)
    }
}

impl From<DictFault> for DictionaryCause {
    ghost from_gives = { λ fault made. made ≡ dictionary_cause.Grammar fault };

    fn from(fault: DictFault) -> DictionaryCause {
        DictionaryCause::Grammar(fault)
    }
}

impl From<Memory> for DictionaryCause {
    ghost from_gives = { λ fault made. made ≡ dictionary_cause.Memory };

    fn from(_: Memory) -> DictionaryCause {
        DictionaryCause::Memory
    }
}

impl From<ReadFault> for InputCause {
    ghost from_gives = { λ fault made. made ≡ input_cause.Reading fault };

    fn from(fault: ReadFault) -> InputCause {
        InputCause::Reading(fault)
    }
}

impl From<ApplyFault> for InputCause {
    ghost from_gives = { λ fault made. made ≡ input_cause.Applying fault };

    fn from(fault: ApplyFault) -> InputCause {
        InputCause::Applying(fault)
    }
}
