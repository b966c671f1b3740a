//! The three parts of an undo text.

ghost use Rattle.std.specs.Prelude.{◌≡◌, ◌≢◌, IfSome, MatchOption};
ghost use Rattle.undo_streams.specs.Reverting.{kind_of, rank_of, word_of};
ghost use Rattle.undo_streams.specs.declared.part.Part.{Part};

use stream_apply::InputKind;

/// The parts of an undo text, in order: lines that are dropped, set and added.
#[derive(Clone, Copy)]
pub(crate) enum Part {
    Drops,
    Sets,
    Adds,
}

impl Part {
    /// Returns the part whose lines begin with a word, or None if no part's lines do.
    pub(crate) fn of_word(word: &[u8]) -> Option<Part>
        ensures { MatchOption result ((part : Part) → word.now ≢ word_of part) (λ part. word.now ≡ word_of part) }
    {
        if word == b"drop".as_slice() {
            Some(Part::Drops)
        } else if word == b"set".as_slice() {
            Some(Part::Sets)
        } else if word == b"add".as_slice() {
            Some(Part::Adds)
        } else {
            None
        }
    }

    /// Returns the place of the part among the three, from 0.
    pub(crate) fn rank(self) -> u8
        ensures { result ≡ rank_of self }
    {
        match self {
            Part::Drops => 0,
            Part::Sets => 1,
            Part::Adds => 2,
        }
    }

    /// Returns the kind of the part's lines after the word and the place.
    pub(crate) fn kind(self) -> InputKind
        ensures { result ≡ kind_of self }
    {
        match self {
            Part::Drops => InputKind::Deletes,
            Part::Sets => InputKind::Updates,
            Part::Adds => InputKind::Inserts,
        }
    }
}
