//! The messages and the words in them.

ghost use Rattle.std.specs.Prelude.{◌≡◌, ◌≤◌, ◌+◌, ◌++◌, length, codes, decimal};
ghost use Rattle.refusals.specs.Messages.{applying_text, broken_text, cause_text, dashed_text, details_text, expected_text, grammar_fault_text, grammar_text, input_text, job_fault_text, keeper_failed_text, key_text, line_fault_text, message_line, option_text, place_text, plan_fault_text, reading_dictionary_text, reading_details_text, reading_input_text, reading_text, reason_text, refusal_text, rule_text, schema_fault_text, shape_text, usage_text, wanted_text, write_failed_text};

use crate::FileName;
use crate::refusal::{
    DetailsCause, DictionaryCause, DictionaryFault, InputCause, InputFault, JobFault, LineReason,
    PlanFault, Refusal,
};
use dictionaries::DictFault;
use itoa::Buffer;
use pd_outside::{Message, ReadFault};
use request_words::{OptionName, UsageFault};
use schema_check::CheckFault;
use schema_read::{Expected, Place, ReadSchemaFault, SchemaKey};
use stream_apply::ApplyFault;

/// Returns a message: the program's name, these words and a line feed.
pub(crate) fn line(words: &[u8]) -> Message
    requires { length words.now + 7 ≤ Message.ROOM }
    ensures { result ≡ message_line words.now }
{
    let mut message = Message::new();
    message.put(b"pdgf: ");
    message.put(words);
    message.put(b"\n");
    message
}

/// Returns the message of a failed write.
pub fn write_failed_message() -> Message
    ensures { result ≡ write_failed_text }
{
    line(b"write failed")
}

/// Returns the message of a store that failed.
pub fn keeper_failed_message() -> Message
    ensures { result ≡ keeper_failed_text }
{
    line(b"keeper failed")
}

/// Appends the words of a refusal.
pub(crate) fn put_refusal(message: &mut Message, refusal: Refusal)
    requires { length message.old + 150 ≤ Message.ROOM }
    ensures text { message.new ≡ message.old ++ refusal_text refusal }
    ensures short { length message.new ≤ length message.old + 150 }
{
    match refusal {
        Refusal::Words(fault) => put_usage(message, fault),
        Refusal::Job(fault) => put_job_fault(message, fault),
    }
}

/// Appends why a request gives no job.
fn put_job_fault(message: &mut Message, fault: JobFault)
    requires { length message.old + 150 ≤ Message.ROOM }
    ensures text { message.new ≡ message.old ++ job_fault_text fault }
    ensures short { length message.new ≤ length message.old + 150 }
{
    match fault {
        JobFault::Plan(fault) => put_plan_fault(message, fault),
        JobFault::Range(name) => put_named(message, b"out of range: ", name),
        JobFault::Input(fault) => put_input_fault(message, fault),
        JobFault::Details(cause) => put_details_fault(message, cause),
        JobFault::Memory => message.put(b"out of memory"),
    }
}

/// Appends why a text is no schema.
fn put_schema_fault(message: &mut Message, fault: ReadSchemaFault)
    requires { length message.old + 150 ≤ Message.ROOM }
    ensures text { message.new ≡ message.old ++ schema_fault_text fault }
    ensures short { length message.new ≤ length message.old + 150 }
{
    match fault {
        ReadSchemaFault::Syntax => message.put(b"schema: not TOML"),
        ReadSchemaFault::Shape {
            place,
            key,
            expected,
        } => put_shape(message, place, key, expected),
        ReadSchemaFault::Memory | ReadSchemaFault::ParseMemory => message.put(b"out of memory"),
    }
}

/// Appends why a schema's name gives no plan.
fn put_plan_fault(message: &mut Message, fault: PlanFault)
    requires { length message.old + 150 ≤ Message.ROOM }
    ensures text { message.new ≡ message.old ++ plan_fault_text fault }
    ensures short { length message.new ≤ length message.old + 150 }
{
    match fault {
        PlanFault::Reading(fault) => message.put(reading_words(fault).as_bytes()),
        PlanFault::Schema(fault) => put_schema_fault(message, fault),
        PlanFault::Dictionary(fault) => put_dictionary_fault(message, fault),
        PlanFault::Check(
            CheckFault::Rule {
                number,
                table,
                column,
            },
        ) => put_rule(message, number, table, column),
        PlanFault::Check(CheckFault::Memory) => message.put(b"out of memory"),
    }
}

/// Appends why the file of a declaration gives no detail table.
fn put_details_fault(message: &mut Message, cause: DetailsCause)
    requires { length message.old + 100 ≤ Message.ROOM }
    ensures text { message.new ≡ message.old ++ details_text cause }
    ensures short { length message.new ≤ length message.old + 100 }
{
    match cause {
        DetailsCause::Reading(fault) => message.put(reading_details_words(fault).as_bytes()),
        DetailsCause::Syntax => message.put(b"details: not TOML"),
        DetailsCause::WrongForm => message.put(b"details: wrong form"),
        DetailsCause::Dictionary(fault) => put_dictionary_fault(message, fault),
        DetailsCause::Rule(number) => put_counted(message, b"rule E", u64::from(number)),
        DetailsCause::Memory => message.put(b"out of memory"),
    }
}

/// Appends why a dictionary isn't read.
fn put_dictionary_fault(message: &mut Message, fault: DictionaryFault)
    requires { length message.old + 100 ≤ Message.ROOM }
    ensures text { message.new ≡ message.old ++ cause_text fault.number fault.cause }
    ensures short { length message.new ≤ length message.old + 100 }
{
    match fault.cause {
        DictionaryCause::Reading(cause) => put_reading_fault(message, fault.number, cause),
        DictionaryCause::Grammar(cause) => put_grammar_fault(message, fault.number, cause),
        DictionaryCause::Memory => message.put(b"out of memory"),
    }
}

/// Appends why the dictionary of this number isn't read.
fn put_reading_fault(message: &mut Message, number: u64, fault: ReadFault)
    requires { length message.old + 50 ≤ Message.ROOM }
    ensures text { message.new ≡ message.old ++ reading_dictionary_text number fault }
    ensures short { length message.new ≤ length message.old + 50 }
{
    match fault {
        ReadFault::Failed => message.put(b"read failed"),
        ReadFault::TooLong => put_counted(message, b"too long: dictionary ", number),
        ReadFault::Memory => message.put(b"out of memory"),
    }
}

/// Appends why the bytes of the dictionary of this number are no dictionary.
fn put_grammar_fault(message: &mut Message, number: u64, fault: DictFault)
    requires { length message.old + 100 ≤ Message.ROOM }
    ensures text { message.new ≡ message.old ++ grammar_fault_text number fault }
    ensures short { length message.new ≤ length message.old + 100 }
{
    match fault {
        DictFault::Memory => message.put(b"out of memory"),
        _ => put_broken(message, number, fault),
    }
}

/// Appends the number of a dictionary, and what is wrong with its bytes.
fn put_broken(message: &mut Message, number: u64, fault: DictFault)
    requires { length message.old + 100 ≤ Message.ROOM }
    ensures text { message.new ≡ message.old ++ broken_text number fault }
    ensures short { length message.new ≤ length message.old + 100 }
{
    put_counted(message, b"dictionary ", number);
    put_grammar(message, fault);
}

/// Appends what is wrong with a dictionary's bytes, after its number.
fn put_grammar(message: &mut Message, fault: DictFault)
    requires { length message.old + 50 ≤ Message.ROOM }
    ensures text { message.new ≡ message.old ++ grammar_text fault }
    ensures short { length message.new ≤ length message.old + 50 }
{
    match fault {
        DictFault::NotUtf8 { at } => put_counted(message, b": not UTF-8 at byte ", at),
        DictFault::LongEntry { line } => put_counted(message, b": long entry at line ", line),
        DictFault::BadWeight { line } => put_counted(message, b": bad weight at line ", line),
        DictFault::TooMany { line } => put_counted(message, b": too many entries at line ", line),
        DictFault::Empty => message.put(b": empty"),
        DictFault::Memory => message.put(b": out of memory"),
    }
}

/// Appends why a file isn't applied.
fn put_input_fault(message: &mut Message, fault: InputFault)
    requires { length message.old + 120 ≤ Message.ROOM }
    ensures text { message.new ≡ message.old ++ input_text fault.file fault.cause }
    ensures short { length message.new ≤ length message.old + 120 }
{
    match fault.cause {
        InputCause::Reading(cause) => put_reading_input(message, fault.file, cause),
        InputCause::Applying(cause) => put_applying(message, fault.file, cause),
        InputCause::BadRecord(number) => {
            put_line_fault(message, b"apply: ", fault.file, number, b"bad record")
        }
        InputCause::Reverting(cause) => put_line_fault(
            message,
            b"revert: ",
            fault.file,
            cause.line,
            reason_words(cause.reason).as_bytes(),
        ),
    }
}

/// Appends why the file of this name isn't read.
fn put_reading_input(message: &mut Message, file: FileName, fault: ReadFault)
    requires { length message.old + 80 ≤ Message.ROOM }
    ensures text { message.new ≡ message.old ++ reading_input_text file fault }
    ensures short { length message.new ≤ length message.old + 80 }
{
    match fault {
        ReadFault::Failed => message.put(b"read failed"),
        ReadFault::TooLong => {
            message.put(b"too long: ");
            message.put(file.as_bytes());
        }
        ReadFault::Memory => message.put(b"out of memory"),
    }
}

/// Appends why the bytes of the file of this name aren't applied.
fn put_applying(message: &mut Message, file: FileName, fault: ApplyFault)
    requires { length message.old + 120 ≤ Message.ROOM }
    ensures text { message.new ≡ message.old ++ applying_text file fault }
    ensures short { length message.new ≤ length message.old + 120 }
{
    let verb = b"apply: ";
    match fault {
        ApplyFault::BadLine { line } => put_line_fault(message, verb, file, line, b"bad line"),
        ApplyFault::DoubleKey { line } => put_line_fault(message, verb, file, line, b"double key"),
        ApplyFault::NoSuchKey { line } => put_line_fault(message, verb, file, line, b"no such key"),
        ApplyFault::KeyExists { line } => put_line_fault(message, verb, file, line, b"key exists"),
        ApplyFault::Memory => message.put(b"out of memory"),
    }
}

/// Returns what is wrong with a line of an undo text.
fn reason_words(reason: LineReason) -> &'static str
    ensures text { result.now ≡ reason_text reason }
    ensures short { length result.now ≤ 11 }
{
    match reason {
        LineReason::BadLine => "bad line",
        LineReason::DoubleKey => "double key",
        LineReason::NoSuchKey => "no such key",
        LineReason::KeyExists => "key exists",
        LineReason::BadPlace => "bad place",
    }
}

/// Appends what was done with a file, the number of a line, and what is wrong with that line.
fn put_line_fault(message: &mut Message, verb: &[u8], file: FileName, number: u64, words: &[u8])
    requires room { length message.old + length words.now + 100 ≤ Message.ROOM }
    requires verb { length verb.now ≤ 8 }
    ensures text { message.new ≡ message.old ++ line_fault_text verb.now file number words.now }
    ensures short { length message.new ≤ length message.old + length words.now + 100 }
{
    message.put(verb);
    message.put(file.as_bytes());
    put_counted(message, b" line ", number);
    message.put(b": ");
    message.put(words);
}

/// Appends what is wrong with the words of a command line.
fn put_usage(message: &mut Message, fault: UsageFault)
    requires { length message.old + 40 ≤ Message.ROOM }
    ensures text { message.new ≡ message.old ++ usage_text fault }
    ensures short { length message.new ≤ length message.old + 40 }
{
    match fault {
        UsageFault::Words => message.put(b"usage: bad words"),
        UsageFault::Mode => message.put(b"usage: unknown mode"),
        UsageFault::Unwanted(name) => put_named(message, b"usage: unwanted ", name),
        UsageFault::Missing(name) => put_named(message, b"usage: missing ", name),
        UsageFault::Number(name) => put_named(message, b"usage: bad number for ", name),
        UsageFault::EmptyDirectory(name) => put_named(
            message,
            b"usage: empty directory for ",
            name,
        ),
        UsageFault::Format => message.put(b"usage: bad format"),
        UsageFault::Header => message.put(b"usage: bad header"),
        UsageFault::Memory => message.put(b"out of memory"),
    }
}

/// Appends what is wrong at a key of a schema, with the key's place.
fn put_shape(message: &mut Message, place: Place, key: SchemaKey, expected: Expected)
    requires { length message.old + 150 ≤ Message.ROOM }
    ensures text { message.new ≡ message.old ++ shape_text place key expected }
    ensures short { length message.new ≤ length message.old + 150 }
{
    message.put(b"schema: ");
    put_place(message, place);
    put_key(message, key, expected);
}

/// Appends the number of a broken rule and the place at which it is broken.
fn put_rule(message: &mut Message, number: u32, table: u64, column: u64)
    requires { length message.old + 150 ≤ Message.ROOM }
    ensures text { message.new ≡ message.old ++ rule_text number table column }
    ensures short { length message.new ≤ length message.old + 150 }
{
    put_counted(message, b"rule V", u64::from(number));
    message.put(b" at ");
    put_place(
        message,
        Place {
            table,
            column,
            branch: 0,
        },
    );
}

/// Appends a place in a schema.
fn put_place(message: &mut Message, place: Place)
    requires { length message.old + 82 ≤ Message.ROOM }
    ensures text { message.new ≡ message.old ++ place_text place.table place.column place.branch }
    ensures short { length message.new ≤ length message.old + 82 }
{
    if place.table == 0 {
        message.put(b"top");
        return;
    }
    put_counted(message, b"table ", place.table);
    if place.column == 0 {
        return;
    }
    put_counted(message, b" column ", place.column);
    if place.branch == 0 {
        return;
    }
    put_counted(message, b" branch ", place.branch);
}

/// Appends what is wrong at a key, after its place.
fn put_key(message: &mut Message, key: SchemaKey, expected: Expected)
    requires { length message.old + 60 ≤ Message.ROOM }
    ensures text { message.new ≡ message.old ++ key_text key expected }
    ensures short { length message.new ≤ length message.old + 60 }
{
    match key {
        SchemaKey::Other => message.put(b": no such key"),
        _ => put_wanted(message, key, expected),
    }
}

/// Appends a key and the type that it wants, after its place.
fn put_wanted(message: &mut Message, key: SchemaKey, expected: Expected)
    requires { length message.old + 60 ≤ Message.ROOM }
    ensures text { message.new ≡ message.old ++ wanted_text key expected }
    ensures short { length message.new ≤ length message.old + 60 }
{
    message.put(b" key ");
    message.put(key.name().as_bytes());
    message.put(b": expected ");
    message.put(expected_words(expected).as_bytes());
}

/// Appends words and then an option.
fn put_named(message: &mut Message, words: &[u8], name: OptionName)
    requires { length message.old + length words.now + 10 ≤ Message.ROOM }
    ensures text { message.new ≡ message.old ++ (words.now ++ option_text name) }
    ensures short { length message.new ≤ length message.old + length words.now + 10 }
{
    message.put(words);
    put_option(message, name);
}

/// Appends an option as it stands among the words of a command line.
fn put_option(message: &mut Message, name: OptionName)
    requires { length message.old + 10 ≤ Message.ROOM }
    ensures text { message.new ≡ message.old ++ option_text name }
    ensures short { length message.new ≤ length message.old + 10 }
{
    match name {
        OptionName::Schema => message.put(b"SCHEMA"),
        _ => put_dashed(message, name),
    }
}

/// Appends two hyphens and an option's name.
fn put_dashed(message: &mut Message, name: OptionName)
    requires { length message.old + 10 ≤ Message.ROOM }
    ensures text { message.new ≡ message.old ++ dashed_text name }
    ensures short { length message.new ≤ length message.old + 10 }
{
    message.put(b"--");
    message.put(name.word().as_bytes());
}

/// Appends words and then a number.
fn put_counted(message: &mut Message, words: &[u8], number: u64)
    requires { length message.old + length words.now + 20 ≤ Message.ROOM }
    ensures text { message.new ≡ message.old ++ (words.now ++ decimal number) }
    ensures short { length message.new ≤ length message.old + length words.now + 20 }
{
    let mut digits = Buffer::new();
    message.put(words);
    message.put(digits.format(number).as_bytes());
}

/// Returns why a schema's text wasn't read.
fn reading_words(fault: ReadFault) -> &'static str
    ensures text { result.now ≡ reading_text fault }
    ensures short { length result.now ≤ 16 }
{
    match fault {
        ReadFault::Failed => "read failed",
        ReadFault::TooLong => "too long: schema",
        ReadFault::Memory => "out of memory",
    }
}

/// Returns why the file that declares a detail table wasn't read.
fn reading_details_words(fault: ReadFault) -> &'static str
    ensures text { result.now ≡ reading_details_text fault }
    ensures short { length result.now ≤ 17 }
{
    match fault {
        ReadFault::Failed => "read failed",
        ReadFault::TooLong => "too long: details",
        ReadFault::Memory => "out of memory",
    }
}

/// Returns the words for the type that a key wants.
fn expected_words(expected: Expected) -> &'static str
    ensures text { result.now ≡ expected_text expected }
    ensures short { length result.now ≤ 31 }
{
    match expected {
        Expected::Whole => "whole number",
        Expected::TextValue => "text",
        Expected::Flag => "true or false",
        Expected::DelimiterName => "\"tab\" or \"bar\"",
        Expected::TableList => "list of tables",
        Expected::TwoWholes => "two whole numbers",
        Expected::KindName => "name of a kind",
        Expected::LeafName => "name of a leaf kind",
        Expected::DateText => "date YYYY-MM-DD",
        Expected::TextList => "list of texts",
        Expected::Wholes => "list of whole numbers",
        Expected::PartList => "list of texts and cited columns",
        Expected::WindowValue => "whole number or \"all\"",
        Expected::InsertValue => "whole number or list of pairs",
        Expected::DeleteName => "\"cascade\" or \"null\"",
        Expected::DealName => "\"turn\" or \"drawn\"",
        Expected::NoSuchKey => "no such key",
    }
}
