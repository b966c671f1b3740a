//! The form of the words after the program's name, and what each word stands for. No memory is taken here.

ghost use Rattle.std.specs.Prelude.{◌<◌, ◌+◌, ◌≡◌, ◌^◌, length, map, option_map, string_bytes, None};
ghost use Rattle.std.specs.List.{list_any};
ghost use Rattle.std.specs.Option.{option_copied};
ghost use Rattle.clap.specs.Lexer.{long_of, name_and_value, strip_byte};
ghost use Rattle.request_words.specs.Form.{can_follow, entries, goes_on, given_in, has_form, has_hyphen, stands_for, is_one_of, is_option_word, mode_in, option_parts, place_word, word_for};
ghost use Rattle.request_words.specs.Options.{word_of};

use crate::options::OPTIONS;
use crate::usage::OptionName;

/// Whether the words after the program's name have the form.
pub(crate) fn has_form(words: &[String]) -> bool
    ensures { result ≡ has_form (map string_bytes words.now) }
{
    goes_on(words, false, 0)
}

/// Returns the word for the mode, if there is one.
pub(crate) fn mode_in(words: &[String]) -> Option<&str>
    ensures { option_copied result ≡ mode_in (map string_bytes words.now) }
{
    word_for("mode", words, None, 0)
}

/// Returns the word that is given for an option, if there is one.
pub(crate) fn given_in(words: &[String], name: OptionName) -> Option<&str>
    ensures { option_copied result ≡ given_in (map string_bytes words.now) name }
{
    word_for(name.word(), words, None, 0)
}

/// Whether words continue the form. `due` tells that the word before is an option whose value follows. `count` is how many of the
/// words before belong to no option.
#[tactic(auto, unfolding(crate::specs::Form::goes_on))]
fn goes_on(words: &[String], due: bool, count: u8) -> bool
    requires { count < 3 }
    ensures { result ≡ goes_on (map string_bytes words.now) due count }
{
    let [word, rest @ ..] = words else {
        return !due && count >= 1;
    };
    let word = word.as_str();
    if due {
        return !has_hyphen(word) && goes_on(rest, false, count);
    }
    if !has_hyphen(word) {
        return count < 2 && goes_on(rest, false, count + 1);
    }
    let Some((name, value)) = option_parts(word) else {
        return false;
    };
    if !is_option_word(name, OPTIONS.as_slice()) || stands_in(name, rest) {
        return false;
    }
    match value {
        None => goes_on(rest, true, count),
        Some(value) => can_follow(value) && goes_on(rest, false, count),
    }
}

/// Returns the first word that stands for `wanted`, if there is one. `due` is the option whose value is the next word. `count` is
/// how many of the words before belong to no option.
#[tactic(auto, unfolding(crate::specs::Form::entries))]
fn word_for<'a>(
    wanted: &str,
    words: &'a [String],
    due: Option<&'a str>,
    count: usize,
) -> Option<&'a str>
    requires { count + length words.now < 2 ^ 64 }
    ensures { option_copied result
        ≡ word_for wanted.now (entries (map string_bytes words.entry.now) (option_copied due.entry) count) }
{
    let [word, rest @ ..] = words else {
        return None;
    };
    let word = word.as_str();
    if let Some(name) = due {
        return if name == wanted {
            Some(word)
        } else {
            word_for(wanted, rest, None, count)
        };
    }
    if !has_hyphen(word) {
        return if place_word(count) == wanted {
            Some(word)
        } else {
            word_for(wanted, rest, None, count + 1)
        };
    }
    let (name, value) = option_parts(word)?;
    match value {
        None => word_for(wanted, rest, Some(name), count),
        Some(value) if name == wanted => Some(value),
        Some(_) => word_for(wanted, rest, None, count),
    }
}

/// Returns what a word stands for that belongs to no option: the mode first, then the schema.
fn place_word(count: usize) -> &'static str
    ensures { result.now ≡ place_word count }
{
    if count == 0 {
        "mode"
    } else {
        OptionName::Schema.word()
    }
}

fn has_hyphen(word: &str) -> bool
    ensures { result ≡ has_hyphen word.now }
{
    match word.as_bytes() {
        [] => false,
        [first, ..] => *first == b'-',
    }
}

/// Whether a value can follow `=`.
fn can_follow(value: &str) -> bool
    ensures { result ≡ can_follow value.now }
{
    !value.is_empty() && !has_hyphen(value)
}

/// Whether one of the options has the name.
fn is_option_word(name: &str, options: &[OptionName]) -> bool
    ensures { result ≡ is_one_of (map word_of options.now) name.now }
{
    match options {
        [] => false,
        [first, rest @ ..] => first.word() == name || is_option_word(name, rest),
    }
}

/// Whether an option of the name stands among words.
fn stands_in(name: &str, words: &[String]) -> bool
    ensures { result ≡ list_any (stands_for name.now) (map string_bytes words.now) }
{
    match words {
        [] => false,
        [word, rest @ ..] => stands_for(name, word.as_str()) || stands_in(name, rest),
    }
}

fn stands_for(name: &str, word: &str) -> bool
    ensures { result ≡ stands_for name.now word.now }
{
    match option_parts(word) {
        Some((found, _)) => found == name,
        None => false,
    }
}

/// Splits an option's word into the name and the value after `=`, if there is one. Returns None if the word is no option.
fn option_parts(word: &str) -> Option<(&str, Option<&str>)>
    ensures { option_map option_parts result ≡ long_of word.now }
{
    let rest = behind_hyphen(behind_hyphen(word)?)?;
    if rest.is_empty() {
        return None;
    }
    Some(name_and_value(rest))
}

/// Returns what follows a leading hyphen; None if no hyphen leads.
fn behind_hyphen(word: &str) -> Option<&str>
    ensures { option_map (λ rest. rest.now) result ≡ strip_byte 45 word.now }
{
    word.strip_prefix('-')
}

/// Splits a text into what stands before the first `=` and what follows it. Without `=`, the whole text stands before.
fn name_and_value(text: &str) -> (&str, Option<&str>)
    ensures { option_parts result ≡ name_and_value text.now }
{
    match text.split_once('=') {
        Some((name, value)) => (name, Some(value)),
        None => (text, None),
    }
}
