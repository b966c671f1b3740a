//! What a run ended with, and the hints that follow from it.

ghost use Rattle.std.specs.Prelude.{◌≡◌};

use crate::details::{put_details_hints, put_details_rule};
use crate::files::{put_store_hints, put_too_long, put_unread, put_unwritten, put_wrong_list};
use crate::range::put_range;
use crate::schema::put_schema_hints;
use crate::usage::put_usage;
use pd_outside::Library;
use request_words::{Request, read_words};
use std::alloc::{AllocError, Global};
use std::io;
use std::io::Write;
use system_files::LastFault;

/// What a run was given and what it ended with.
#[derive(Clone, Copy)]
pub struct Ended<'a> {
    /// The words of the command line, the program's name first.
    pub words: &'a [String],
    /// The exit status.
    pub status: u8,
    /// The message.
    pub message: &'a [u8],
    /// The call on a file that failed last.
    pub fault: Option<LastFault>,
}

impl<'a> Ended<'a> {
    /// Returns what stands in the message after these words, if it begins with them.
    pub(crate) fn behind(&self, words: &str) -> Option<&'a str> {
        let message = std::str::from_utf8(self.message).ok()?;
        let rest = message.strip_prefix("pdgf: ")?.strip_prefix(words)?;
        Some(rest.trim())
    }
}

/// Writes the hints of a run, each on a line of its own. Files are read anew from the library. If memory is wanting, nothing is
/// written.
pub fn tell_hints<L: Library, W: Write>(
    alloc: Global,
    ended: &Ended<'_>,
    library: &mut L,
    output: &mut W,
) -> io::Result<()>
    ensures unwritten { ended.now.status ≡ 0 → output.new ≡ output.old }
    ensures unread { ended.now.status ≡ 0 → library.new ≡ library.old }
{
    if ended.status == 0 {
        return Ok(());
    }
    let mut hints = String::new(alloc);
    put_hints(alloc, ended, library, &mut hints)?;
    output.write_all(hints.as_bytes())
}

/// Appends the hints of a run.
fn put_hints<L: Library>(
    alloc: Global,
    ended: &Ended<'_>,
    library: &mut L,
    hints: &mut String,
) -> Result<(), AllocError> {
    match read_words(alloc, ended.words) {
        Ok(request) => put_hints_of_request(alloc, ended, &request, library, hints),
        Err(fault) => put_usage(ended.words, fault, hints),
    }
}

/// Appends the hints of a run whose words gave a request.
fn put_hints_of_request<L: Library>(
    alloc: Global,
    ended: &Ended<'_>,
    request: &Request,
    library: &mut L,
    hints: &mut String,
) -> Result<(), AllocError> {
    match ended.status {
        3 if ended.behind("details:").is_some() => {
            put_details_hints(alloc, request.spec.as_str(), library, hints)
        }
        4 => put_refused_content(alloc, ended, request, library, hints),
        3 => put_schema_hints(alloc, request.schema.as_str(), library, hints),
        5 => put_unread(alloc, ended, request, library, hints),
        6 => put_unwritten(ended, hints),
        8 => put_range(alloc, ended, request, library, hints),
        10 => put_too_long(alloc, ended, request, library, hints),
        12 => put_store_hints(request.store.as_str(), library, hints),
        _ => Ok(()),
    }
}

/// Appends the hints of a run with a broken rule or a wrong word list.
fn put_refused_content<L: Library>(
    alloc: Global,
    ended: &Ended<'_>,
    request: &Request,
    library: &mut L,
    hints: &mut String,
) -> Result<(), AllocError> {
    if let Some(number) = ended.behind("rule E") {
        return put_details_rule(request.spec.as_str(), number, hints);
    }
    match ended.behind("dictionary ") {
        Some(fault) => put_wrong_list(alloc, fault, request, library, hints),
        None => put_schema_hints(alloc, request.schema.as_str(), library, hints),
    }
}
