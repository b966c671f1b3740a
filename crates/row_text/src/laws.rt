//! The laws of fields as they are written, each the contract of a function that does nothing.

ghost use Rattle.std.specs.Prelude.{◌≡◌, ◌≢◌, ℕ, ◌<◌, ◌≤◌, ◌*◌, ◌^◌, ◌++◌, List, ◌∷◌, Option, Contains, codes, decimal, length};
ghost use Rattle.row_text.specs.Fields.{EndsField, IsDelimiter, field_text, escaped_text};
ghost use Rattle.row_text.specs.Lines.{IsLineBody};

/// The text of two parts is written as the first part and then the second.
pub fn text_is_written_piece_by_piece()
    ensures { (delimiter : ℕ) (xs ys : List ℕ) →
        escaped_text delimiter (xs ++ ys) ≡ escaped_text delimiter xs ++ escaped_text delimiter ys }
{}

/// A text is written with at most two bytes for each of its own.
pub fn text_is_at_most_doubled()
    ensures { (delimiter : ℕ) (bytes : List ℕ) → length (escaped_text delimiter bytes) ≤ 2 * length bytes }
{}

/// A number of 64 bits is written as its digits.
pub fn number_is_written_as_its_digits()
    ensures { (delimiter number : ℕ) → number < 2 ^ 64 → escaped_text delimiter (decimal number) ≡ decimal number }
{}

/// A field is written with no line feed and no tab, whatever it holds.
pub fn field_is_within_its_line()
    ensures line_feed { (delimiter : ℕ) (field : Option (List ℕ)) → ¬ Contains (field_text delimiter field) 10 }
    ensures tab { (delimiter : ℕ) (field : Option (List ℕ)) → ¬ Contains (field_text delimiter field) 9 }
{}

/// Different texts are written differently, and no text is written like a null field.
pub fn text_can_be_read_back()
    ensures text { (delimiter : ℕ) (xs ys : List ℕ) →
        escaped_text delimiter xs ≡ escaped_text delimiter ys → xs ≡ ys }
    ensures null { (delimiter : ℕ) (bytes : List ℕ) → escaped_text delimiter bytes ≢ codes "\\N" }
{}

/// A line that goes on with a field can be read in only one way. Its bytes tell where the field ends, what it holds, and whether
/// the line ends there.
pub fn field_can_be_read_back()
    ensures { (delimiter end other_end : ℕ) (field other : Option (List ℕ)) (rest other_rest : List ℕ) →
        IsDelimiter delimiter → EndsField delimiter end → EndsField delimiter other_end →
        field_text delimiter field ++ end ∷ rest ≡ field_text delimiter other ++ other_end ∷ other_rest →
        (field ≡ other) × (end ≡ other_end) × (rest ≡ other_rest) }
{}

/// A line body can be read in only one way: different lists of fields are written differently.
pub fn line_can_be_read_back()
    ensures { (delimiter : ℕ) (fields others : List (Option (List ℕ))) (bytes : List ℕ) →
        IsDelimiter delimiter → IsLineBody delimiter fields bytes → IsLineBody delimiter others bytes → fields ≡ others }
{}

/// A line body holds no line feed, so the first line feed after it ends its line.
pub fn line_body_holds_no_line_feed()
    ensures { (delimiter : ℕ) (fields : List (Option (List ℕ))) (bytes : List ℕ) →
        IsDelimiter delimiter → IsLineBody delimiter fields bytes → ¬ Contains bytes 10 }
{}
