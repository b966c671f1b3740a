//! The laws of CSV. Each law is the contract of a function that does nothing.

ghost use Rattle.std.specs.Prelude.{◌≡◌, ◌++◌, ℕ, List, length};
ghost use Rattle.row_text.specs.Fields.{IsDelimiter};
ghost use Rattle.csv_face.specs.Csv.{BeginInAscii, BeginsWithDigit, IsCopyText, IsCsvOf, Row, csv_text, names_text};
ghost use Rattle.csv_face.specs.Reading.{HasBadNamed, HasBadRecord, IsNamedReadAs, IsReadAs};

/// Rows that are written as CSV are read back as their text, if it begins with a digit. It does if its first field is a key. The CSV reads as
/// no other text, and no record is bad.
pub fn csv_is_read_back()
    ensures read { (delimiter fields : ℕ) (rows : List Row) (text : List ℕ) → IsDelimiter delimiter → IsCopyText delimiter fields rows text →
        BeginsWithDigit text → IsReadAs delimiter fields (csv_text rows) text }
    ensures one { (delimiter fields : ℕ) (bytes text other : List ℕ) →
        IsReadAs delimiter fields bytes text → IsReadAs delimiter fields bytes other → text ≡ other }
    ensures none_bad { (delimiter fields : ℕ) (bytes text : List ℕ) (number : ℕ) →
        IsReadAs delimiter fields bytes text → ¬ HasBadRecord fields bytes number }
{}

/// Names and rows that are written as CSV are read back as the rows' text, if the first name begins with a byte of ASCII. The CSV reads as no
/// other text, and no record is bad.
pub fn named_csv_is_read_back()
    ensures read { (delimiter : ℕ) (names : List (List ℕ)) (rows : List Row) (text : List ℕ) → BeginInAscii names →
        IsCopyText delimiter (length names) rows text → IsNamedReadAs delimiter names (names_text names ++ csv_text rows) text }
    ensures one { (delimiter : ℕ) (names : List (List ℕ)) (bytes text other : List ℕ) →
        IsNamedReadAs delimiter names bytes text → IsNamedReadAs delimiter names bytes other → text ≡ other }
    ensures none_bad { (delimiter : ℕ) (names : List (List ℕ)) (bytes text : List ℕ) (number : ℕ) →
        IsNamedReadAs delimiter names bytes text → ¬ HasBadNamed names bytes number }
{}

/// Bytes have at most one record that is the first bad one, with names as the first record or without.
pub fn one_record_is_the_first_bad_one()
    ensures rows { (fields : ℕ) (bytes : List ℕ) (number other : ℕ) →
        HasBadRecord fields bytes number → HasBadRecord fields bytes other → number ≡ other }
    ensures named { (names : List (List ℕ)) (bytes : List ℕ) (number other : ℕ) →
        HasBadNamed names bytes number → HasBadNamed names bytes other → number ≡ other }
{}

/// A text has one CSV.
pub fn a_text_has_one_csv()
    ensures { (delimiter : ℕ) (text csv other : List ℕ) → IsDelimiter delimiter →
        IsCsvOf delimiter text csv → IsCsvOf delimiter text other → csv ≡ other }
{}

/// The CSV of two texts with rows of as many fields, one after the other, is the CSV of the texts, one after the other. So shares that are
/// written as CSV are joined as they are.
pub fn joined_csv_is_the_csv_of_the_joined()
    ensures copy { (delimiter fields : ℕ) (rows others : List Row) (text other : List ℕ) →
        IsCopyText delimiter fields rows text → IsCopyText delimiter fields others other → IsCopyText delimiter fields (rows ++ others) (text ++ other) }
    ensures csv { (rows others : List Row) → csv_text (rows ++ others) ≡ csv_text rows ++ csv_text others }
{}
