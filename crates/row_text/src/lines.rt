//! The lines of a text.

ghost use Rattle.std.specs.Prelude.{◌≡◌, ◌≤◌, length, drop, Contains, MatchOption};
ghost use Rattle.row_text.specs.Lines.{IsLineAt};

/// The bounds of a line in a text, as indices of bytes: its start, and the place of its line feed.
#[derive(Clone, Copy, Debug, PartialEq, Eq)]
pub struct LineAt {
    pub start: usize,
    pub end: usize,
}

/// Returns the line that starts at index `from`. Returns None exactly if there is no line feed from there on.
pub fn next_line(bytes: &[u8], from: usize) -> Option<LineAt>
    requires { from ≤ length bytes.now }
    ensures { MatchOption result
        (¬ Contains (drop from bytes.now) 10)
        (λ line. (line.start ≡ from) × IsLineAt bytes.now from line.end) }
{
    for end in from..bytes.len() {
        if bytes[end] == b'\n' {
            return Some(LineAt { start: from, end });
        }
    }
    None
}
