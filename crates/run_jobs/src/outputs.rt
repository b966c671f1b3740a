//! Where the files of a job go, and what they hold.

ghost use Rattle.std.specs.Prelude.{◌≡◌};
ghost use Rattle.std.specs.Option.{option_copied};

use schema_model::Text as Name;
use update_box::Content;

/// The name of the standard output.
pub const STANDARD_OUTPUT: &str = "-";

/// Returns the name of a directory, if there is one.
pub fn name_of(name: &Option<Name>) -> Option<&str>
    ensures { option_copied result ≡ name.now }
{
    match name {
        None => None,
        Some(name) => Some(name.as_str()),
    }
}

/// The contents of a snapshot's files, for each table.
pub const SNAPSHOT_CONTENTS: [Content; 1] = [Content::Snapshot];

/// The contents of a unit's files, for each table.
pub const UNIT_CONTENTS: [Content; 3] = [Content::Deleted, Content::Updated, Content::Inserted];
