//! The bytes between fields and after lines.

ghost use Rattle.std.specs.Prelude.{◌≡◌, ◌<◌, [], ◌∷◌, ◌++◌, codes, length};
ghost use Rattle.line_pages.specs.Pieces.{piece_text};
ghost use Rattle.row_lines.specs.TableLines.{behind_of};

use line_pages::Piece;
use schema_plan::Plan;

/// Returns the byte after the field of the column at a place: the delimiter, or the line feed after the last column.
pub(crate) fn byte_behind(plan: &Plan, table: u32, column: usize) -> u8
    requires table { table < length plan.now.schema.tables }
    requires column { column < 64 }
    ensures { result ≡ behind_of plan.now table column }
{
    if column + 1 == plan.columns(table).len() {
        b'\n'
    } else {
        plan.delimiter()
    }
}

/// Returns a null and the byte after it.
pub(crate) fn null_piece(behind: u8) -> Piece
    ensures { piece_text result ≡ codes "\\N" ++ behind ∷ [] }
{
    Piece::of_byte(behind).prepend(b'N').prepend(b'\\')
}
