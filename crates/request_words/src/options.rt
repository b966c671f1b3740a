//! The options: how each is written, and which mode takes it.

ghost use Rattle.std.specs.Prelude.{◌≡◌};
ghost use Rattle.request_words.specs.Options.{form_in, format_named, header_named, input_form, input_format_named, may_take, mode_named, needs, option_line, takes};

use crate::usage::{Format, Header, Mode, OptionName};

/// What an option's value must be.
#[derive(Clone, Copy, Debug, PartialEq, Eq)]
pub(crate) enum Form {
    /// Any text.
    Text,
    /// A number of one to twenty digits, below 2^64.
    Number,
    /// A number from 1 to the stated one.
    FromOneTo(u64),
    /// A text that isn't empty.
    Directory,
    /// The name of a format.
    FormatName,
    /// The name of a format in which rows are read, too.
    InputFormat,
    /// The name of what files in CSV begin with.
    HeaderName,
}

/// What a mode does with an option.
#[derive(Clone, Copy, Debug, PartialEq, Eq)]
pub(crate) enum Take {
    /// The mode doesn't take the option.
    Unwanted,
    /// The mode can take the option.
    Optional(Form),
    /// The mode can take the option, and uses the stated number if the option isn't given.
    Preset(Form, u64),
    /// The mode needs the option.
    Needed(Form),
}

/// The options that are written with two hyphens, in the order of trying them.
pub(crate) const OPTIONS: [OptionName; 16] = [
    OptionName::Unit,
    OptionName::From,
    OptionName::To,
    OptionName::Table,
    OptionName::Key,
    OptionName::In,
    OptionName::Out,
    OptionName::Workers,
    OptionName::Package,
    OptionName::Node,
    OptionName::Nodes,
    OptionName::Size,
    OptionName::Format,
    OptionName::Store,
    OptionName::Spec,
    OptionName::Header,
];

/// Returns the mode of a name; None if no mode has it.
pub(crate) fn mode_named(word: &str) -> Option<Mode>
    ensures { result ≡ mode_named word.now }
{
    match word {
        "check" => Some(Mode::Check),
        "snapshot" => Some(Mode::Snapshot),
        "unit" => Some(Mode::Unit),
        "row" => Some(Mode::Row),
        "apply" => Some(Mode::Apply),
        "sample" => Some(Mode::Sample),
        "play" => Some(Mode::Play),
        "details" => Some(Mode::Details),
        "details-unit" => Some(Mode::DetailsUnit),
        "details-apply" => Some(Mode::DetailsApply),
        "undo" => Some(Mode::Undo),
        "revert" => Some(Mode::Revert),
        _ => None,
    }
}

/// Returns the format of a name; None if no format has it.
pub(crate) fn format_named(word: &str) -> Option<Format>
    ensures { result ≡ format_named word.now }
{
    match word {
        "sql" => Some(Format::Sql),
        _ => input_format_named(word),
    }
}

/// Returns the format of a name if rows are read in it, too; None if they aren't, or no format has the name.
pub(crate) fn input_format_named(word: &str) -> Option<Format>
    ensures { result ≡ input_format_named word.now }
{
    match word {
        "copy" => Some(Format::Copy),
        "csv" => Some(Format::Csv),
        _ => None,
    }
}

/// Returns what files in CSV begin with, by its name; None if nothing has the name.
pub(crate) fn header_named(word: &str) -> Option<Header>
    ensures { result ≡ header_named word.now }
{
    match word {
        "none" => Some(Header::None),
        "names" => Some(Header::Names),
        _ => None,
    }
}

/// Returns what a mode does with an option.
pub(crate) fn takes(mode: Mode, name: OptionName) -> Take
    ensures { result ≡ takes mode name }
{
    let (_, _, preset) = option_line(name);
    let form = form_in(mode, name);
    if needs(mode, name) {
        return Take::Needed(form);
    }
    if !may_take(mode, name) {
        return Take::Unwanted;
    }
    match preset {
        None => Take::Optional(form),
        Some(number) => Take::Preset(form, number),
    }
}

impl OptionName {
    ghost use Rattle.std.specs.Prelude.{◌≡◌, ◌≤◌, length};
    ghost use Rattle.request_words.specs.Options.{word_of};

    /// Returns the option's name, in ASCII, as it is written after two hyphens.
    pub fn word(self) -> &'static str
        ensures word { result.now ≡ word_of self }
        ensures short { length result.now ≤ 8 }
    {
        let (word, _, _) = option_line(self);
        word
    }
}

/// Returns an option's name as written after two hyphens, the form of its value, and the preset, if it has one.
fn option_line(name: OptionName) -> (&'static str, Form, Option<u64>)
    ensures { (result.0.now, result.1, result.2) ≡ option_line name }
{
    match name {
        OptionName::Schema => ("schema", Form::Text, None),
        OptionName::Unit => ("unit", Form::Number, None),
        OptionName::From => ("from", Form::Number, None),
        OptionName::To => ("to", Form::Number, None),
        OptionName::Table => ("table", Form::Text, None),
        OptionName::Key => ("key", Form::Number, None),
        OptionName::In => ("in", Form::Directory, None),
        OptionName::Out => ("out", Form::Directory, None),
        OptionName::Workers => ("workers", Form::FromOneTo(64), Some(4)),
        OptionName::Package => ("package", Form::FromOneTo(1_000_000), None),
        OptionName::Node => ("node", Form::Number, Some(0)),
        OptionName::Nodes => ("nodes", Form::FromOneTo(1_024), Some(1)),
        OptionName::Size => ("size", Form::FromOneTo(1_000), None),
        OptionName::Format => ("format", Form::FormatName, None),
        OptionName::Store => ("store", Form::Text, None),
        OptionName::Spec => ("spec", Form::Text, None),
        OptionName::Header => ("header", Form::HeaderName, None),
    }
}

/// Returns what an option's value must be in a mode.
fn form_in(mode: Mode, name: OptionName) -> Form
    ensures { result ≡ form_in mode name }
{
    let (_, form, _) = option_line(name);
    match mode {
        Mode::Apply => input_form(form),
        _ => form,
    }
}

/// Returns what a value of this form must be in a mode that reads rows.
fn input_form(form: Form) -> Form
    ensures { result ≡ input_form form }
{
    match form {
        Form::FormatName => Form::InputFormat,
        _ => form,
    }
}

/// Whether a mode needs an option.
fn needs(mode: Mode, name: OptionName) -> bool
    ensures { result ≡ needs mode name }
{
    use OptionName::{From, In, Key, Schema, Size, Spec, Store, Table, To, Unit};
    match mode {
        Mode::Check => matches!(name, Schema),
        Mode::Snapshot | Mode::Unit | Mode::Undo => matches!(name, Schema | Unit),
        Mode::Row => matches!(name, Schema | Unit | Table | Key),
        Mode::Apply | Mode::Revert => matches!(name, Schema | From | To | In),
        Mode::Sample => matches!(name, Size),
        Mode::Play => matches!(name, Schema | To | Store),
        Mode::Details | Mode::DetailsUnit => matches!(name, Schema | Unit | Spec),
        Mode::DetailsApply => matches!(name, Schema | From | To | In | Spec),
    }
}

/// Whether a mode can take an option that it doesn't need.
fn may_take(mode: Mode, name: OptionName) -> bool
    ensures { result ≡ may_take mode name }
{
    use OptionName::{Format, Header, Node, Nodes, Out, Package, Table, Workers};
    match mode {
        Mode::Check | Mode::Row | Mode::Play => false,
        Mode::Snapshot | Mode::Unit => matches!(
            name,
            Table | Out | Workers | Package | Node | Nodes | Format | Header
        ),
        Mode::Apply => matches!(name, Table | Out | Format | Header),
        Mode::Sample => matches!(name, Workers | Package),
        Mode::Details | Mode::DetailsUnit => matches!(name, Out | Workers | Package),
        Mode::DetailsApply => matches!(name, Out),
        Mode::Undo => matches!(name, Table | Out | Workers | Package),
        Mode::Revert => matches!(name, Table | Out),
    }
}
