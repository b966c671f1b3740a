//! What a call of the program came to.

ghost use Rattle.std.specs.Prelude.{◌≡◌, [], OnOk};
ghost use Rattle.std.specs.Io.KnownBytes.{Appends};
ghost use Rattle.std.specs.Process.{exit_status};
ghost use Rattle.refusals.specs.Messages as text;
ghost use Rattle.refusals.specs.Statuses as status;

use pd_outside::Message;
use refusals::{Refusal, keeper_failed_message, write_failed_message};
use std::io;
use std::io::Write;
use std::process::ExitCode;

/// The result of a call: an exit status and a message for the standard error.
#[derive(Drop)]
pub struct Report {
    /// The exit status.
    pub status: u8,
    /// The message: empty, or ended by a line feed.
    pub message: Message,
}

impl Report {
    /// Writes the message unchanged.
    pub fn tell<W: Write>(&self, output: &mut W) -> io::Result<()>
        ensures { OnOk result (Appends (W.contents output.old) (W.contents output.new) self.now.message) }
    {
        output.write_all(self.message.text())
    }

    /// Returns the exit code of the status.
    pub fn exit_code(&self) -> ExitCode
        ensures { exit_status result ≡ self.now.status }
    {
        ExitCode::from(self.status)
    }
}

/// Returns the report that all is done.
pub(crate) fn done() -> Report
    ensures { result ≡ record { status = status.done_status; message = [] } }
{
    Report {
        status: 0,
        message: Message::new(),
    }
}

/// Returns the report that a write failed.
pub(crate) fn write_failed() -> Report
    ensures { result ≡ record { status = status.write_failed_status; message = text.write_failed_text } }
{
    Report {
        status: 6,
        message: write_failed_message(),
    }
}

/// Returns the report that a call of the keeper failed.
pub(crate) fn keeper_failed() -> Report
    ensures { result ≡ record { status = status.keeper_failed_status; message = text.keeper_failed_text } }
{
    Report {
        status: 12,
        message: keeper_failed_message(),
    }
}

/// Returns the report of a refusal.
pub(crate) fn refused(refusal: Refusal) -> Report
    ensures { result ≡ record { status = status.status_of refusal; message = text.message_of refusal } }
{
    let status = refusal.status();
    let message = refusal.message();
    Report { status, message }
}
