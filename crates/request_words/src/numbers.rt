//! The numbers that words stand for.

ghost use Rattle.std.specs.Prelude.{◌≡◌, Some, None, if◌then◌else◌};
ghost use Rattle.std.specs.Char.{is_ascii_digit};
ghost use Rattle.std.specs.List.{list_all};
ghost use Rattle.std.specs.Option.{option_copied};
ghost use Rattle.std.specs.Str.Parse.{digits_value};
ghost use Rattle.request_words.specs.Options.{is_number, number_given, number_in};

use crate::options::{Form, Take};

/// Returns the number that an option has in a mode: the given number, or the preset if none is given. `take` is what the mode does
/// with the option. Returns None if there is no number.
pub(crate) fn number_given(take: Take, value: Option<&str>) -> Option<u64>
    ensures { result ≡ number_given take (option_copied value.entry) }
{
    match (take, value) {
        (Take::Unwanted, _) | (Take::Optional(_) | Take::Needed(_), None) => None,
        (Take::Preset(_, number), None) => Some(number),
        (Take::Optional(form) | Take::Preset(form, _) | Take::Needed(form), Some(word)) => {
            number_in(form, word)
        }
    }
}

/// Returns the number that a word stands for in a form; None if it stands for none.
pub(crate) fn number_in(form: Form, word: &str) -> Option<u64>
    ensures { result ≡ number_in form word.now }
{
    match form {
        Form::Text | Form::Directory | Form::FormatName | Form::InputFormat | Form::HeaderName =>
            None,
        Form::Number => read_number(word),
        Form::FromOneTo(most) => read_number(word).filter(|number| 1 <= *number && *number <= most),
    }
}

/// Returns the number that one to twenty decimal digits stand for; None if it needs more than 64 bits, or the word has another
/// form.
fn read_number(word: &str) -> Option<u64>
    ensures { result ≡ (if is_number word.now then Some (digits_value 10 word.now) else None) }
{
    if word.is_empty() || word.len() > 20 || !are_digits(word.as_bytes()) {
        return None;
    }
    word.parse::<u64>().ok()
}

fn are_digits(word: &[u8]) -> bool
    ensures { result ≡ list_all is_ascii_digit word.now }
{
    word.iter().all(|byte| byte.is_ascii_digit())
}
