//! Writing, with its faults.

ghost use Rattle.std.specs.Prelude.{◌≡◌, ◌≤◌, ◌<◌, [], false, length, IfOk, IfSome, IsTrue, OnOk, is_err, is_ok, is_some};
ghost use Rattle.std.specs.Io.Buffered.{writer_buffer, writer_contents};
ghost use Rattle.std.specs.Io.KnownBytes.{Keeps, WriteAppends};
ghost use Rattle.pd_outside.specs.Faults.{counted, faults_after};

use pd_outside::Failed;
use std::io;
use std::io::{BufWriter, ErrorKind, Write};

/// What is left to do for an output after all its bytes are handed to it.
pub(crate) trait Finish<W> {
    /// Finishes an output to which all bytes were handed.
    fn finish(&self, output: &W) -> io::Result<()>;
}

/// A file that is written, if one is begun, with the count of faults and whether the last call failed. Each error of the system is
/// one fault, and is counted here, where it comes.
#[derive(Drop)]
pub(crate) struct Writing<W: Write + Drop> {
    /// The begun file.
    begun: Option<BufWriter<W>>,
    /// How many calls failed.
    faults: u64,
    /// Whether the last call failed.
    last_failed: bool,
    /// Why the call failed that failed last.
    reason: Option<io::Error>,
}

impl<W: Write + Drop> Writing<W> {
    /// Returns a writing in which nothing is begun, and no call failed.
    pub(crate) fn new() -> Self
        ensures begun { is_some result.begun ≡ false }
        ensures faults { result.faults ≡ 0 }
        ensures last_failed { result.last_failed ≡ false }
    {
        Writing {
            begun: None,
            faults: 0,
            last_failed: false,
            reason: None,
        }
    }

    /// Begins the file that was opened. If opening it failed, counts a fault, and no file is begun.
    pub(crate) fn begin(&mut self, opened: io::Result<BufWriter<W>>) -> Result<(), Failed>
        ensures failed { is_ok result ≡ is_ok opened }
        ensures begun { is_some self.new.begun ≡ is_ok opened }
        ensures file { IfSome self.new.begun (λ file. IfOk opened (λ given. file ≡ given)) }
        ensures counted { self.new.faults ≡ faults_after result self.old.faults }
        ensures never_falls { self.old.faults ≤ self.new.faults }
        ensures last { self.new.last_failed ≡ is_err result }
    {
        self.begun = None;
        self.last_failed = false;
        match opened {
            Ok(output) => {
                self.begun = Some(output);
                Ok(())
            }
            Err(error) => Err(self.fail(error)),
        }
    }

    /// Appends the first bytes to the file, and returns how many: at least one. If the system takes none, or tells an error, that
    /// counts as a fault.
    pub(crate) fn write(&mut self, bytes: &[u8]) -> Result<usize, Failed>
        requires begun { IsTrue (is_some self.old.begun) }
        ensures some { IfOk result (λ n. 1 ≤ n) }
        ensures within { IfOk result (λ n. n ≤ length bytes.now) }
        ensures put { IfSome self.old.begun (λ before. IfSome self.new.begun (λ now.
            WriteAppends (writer_contents W.contents before) (writer_contents W.contents now) result bytes.now)) }
        ensures begun { IsTrue (is_some self.new.begun) }
        ensures counted { self.new.faults ≡ faults_after result self.old.faults }
        ensures never_falls { self.old.faults ≤ self.new.faults }
        ensures last { self.new.last_failed ≡ is_err result }
    {
        self.last_failed = false;
        let Some(output) = &mut self.begun else {
            unreachable!()
        };
        match output.write(bytes) {
            Ok(n) if n > 0 => Ok(n),
            Ok(_) => Err(self.fail(ErrorKind::WriteZero.into())),
            Err(error) => Err(self.fail(error)),
        }
    }

    /// Hands all gathered bytes on to the buffer's output, finishes the output, and lets go of the file. At `Failed` the file stays
    /// begun.
    pub(crate) fn end<P: Finish<W>>(&mut self, places: &P) -> Result<(), Failed>
        requires begun { IsTrue (is_some self.old.begun) }
        ensures begun { is_some self.new.begun ≡ is_err result }
        ensures counted { self.new.faults ≡ faults_after result self.old.faults }
        ensures never_falls { self.old.faults ≤ self.new.faults }
        ensures last { self.new.last_failed ≡ is_err result }
    {
        self.last_failed = false;
        let Some(output) = &mut self.begun else {
            unreachable!()
        };
        let finished = match hand_on(output) {
            Ok(()) => places.finish(output.get_ref()),
            Err(error) => Err(error),
        };
        match finished {
            Ok(()) => {
                self.begun = None;
                Ok(())
            }
            Err(error) => Err(self.fail(error)),
        }
    }

    /// Returns why the call failed that failed last, or None if none did.
    pub(crate) fn reason(&self) -> Option<io::Error> {
        self.reason
    }

    fn fail(&mut self, reason: io::Error) -> Failed
        ensures begun { self.new.begun ≡ self.old.begun }
        ensures counted { self.new.faults ≡ counted self.old.faults }
        ensures never_falls { self.old.faults ≤ self.new.faults }
        ensures last { IsTrue self.new.last_failed }
    {
        self.last_failed = true;
        self.faults = self.faults.saturating_add(1);
        self.reason = Some(reason);
        Failed
    }
}

/// Hands all gathered bytes on to the buffer's output.
fn hand_on<W: Write + Drop>(output: &mut BufWriter<W>) -> io::Result<()>
    ensures all { OnOk result (writer_buffer output.new ≡ []) }
    ensures kept { Keeps (writer_contents W.contents output.old) (writer_contents W.contents output.new) }
{
    output.flush()
}
