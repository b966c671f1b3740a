//! Reading, with its faults.

ghost use Rattle.std.specs.Prelude.{◌≡◌, ◌≤◌, ◌<◌, ◌+◌, ◌^◌, false, length, IfOk, IfSome, IsTrue, is_ok, is_some};
ghost use Rattle.std.specs.Io.{ReadsAtMost};
ghost use Rattle.std.specs.Io.KnownBytes.{ReadConsumes};
ghost use Rattle.std.specs.Result.{result_unwrap_or};
ghost use Rattle.pd_outside.specs.Faults.{counted, faults_after};

use pd_outside::Failed;
use std::io;
use std::io::{ErrorKind, Read};

/// A file that is read, if one is started, with the count of bytes taken and the count of faults. Each error of the system is one
/// fault, and is counted here, where it comes. A read that a signal breaks off is no fault: it is made again.
#[derive(Drop)]
pub(crate) struct Reading<F> {
    /// The started file.
    started: Option<F>,
    /// How many bytes were taken since the last start.
    taken: u64,
    /// How many calls failed.
    faults: u64,
    /// Why the call failed that failed last.
    reason: Option<io::Error>,
}

impl<F: Read + Drop> Reading<F> {
    /// Returns a reading in which nothing is started or taken, and no call failed.
    pub(crate) fn new() -> Self
        ensures started { is_some result.started ≡ false }
        ensures taken { result.taken ≡ 0 }
        ensures faults { result.faults ≡ 0 }
    {
        Reading {
            started: None,
            taken: 0,
            faults: 0,
            reason: None,
        }
    }

    /// Starts the file that was opened. If opening it failed, counts a fault, and no file is started.
    pub(crate) fn start(&mut self, opened: io::Result<F>) -> Result<(), Failed>
        ensures failed { is_ok result ≡ is_ok opened }
        ensures started { is_some self.new.started ≡ is_ok opened }
        ensures file { IfSome self.new.started (λ file. IfOk opened (λ given. file ≡ given)) }
        ensures taken { self.new.taken ≡ 0 }
        ensures counted { self.new.faults ≡ faults_after result self.old.faults }
        ensures never_falls { self.old.faults ≤ self.new.faults }
    {
        self.taken = 0;
        match opened {
            Ok(file) => {
                self.started = Some(file);
                Ok(())
            }
            Err(error) => Err(self.fail(error)),
        }
    }

    /// Takes bytes of the file into the beginning of `into`, and returns how many: at least one, except at the end of the file. An
    /// error of the system counts as a fault, and no file is started then.
    pub(crate) fn read(&mut self, into: &mut [u8]) -> Result<usize, Failed>
        requires started { IsTrue (is_some self.old.started) }
        requires not_empty { 0 < length into.old }
        requires countable { self.old.taken + length into.old < 2 ^ 64 }
        ensures within { IfOk result (λ n. n ≤ length into.old) }
        ensures bytes { IfSome self.old.started (λ before. IfSome self.new.started (λ now. ReadConsumes (F.remaining before) (F.remaining now) result into.new)) }
        ensures started { is_some self.new.started ≡ is_ok result }
        ensures taken { self.new.taken ≡ self.old.taken + result_unwrap_or result 0 }
        ensures counted { self.new.faults ≡ faults_after result self.old.faults }
        ensures never_falls { self.old.faults ≤ self.new.faults }
    {
        let Some(file) = &mut self.started else {
            unreachable!()
        };
        match read_through(file, into) {
            Ok(n) => {
                self.taken += n as u64;
                Ok(n)
            }
            Err(error) => Err(self.fail(error)),
        }
    }

    /// Returns why the call failed that failed last, or None if none did.
    pub(crate) fn reason(&self) -> Option<io::Error> {
        self.reason
    }

    fn fail(&mut self, reason: io::Error) -> Failed
        ensures stopped { is_some self.new.started ≡ false }
        ensures taken { self.new.taken ≡ self.old.taken }
        ensures counted { self.new.faults ≡ counted self.old.faults }
        ensures never_falls { self.old.faults ≤ self.new.faults }
    {
        self.started = None;
        self.faults = self.faults.saturating_add(1);
        self.reason = Some(reason);
        Failed
    }
}

/// Reads, and reads again if a signal breaks the read off.
fn read_through<F: Read>(file: &mut F, into: &mut [u8]) -> io::Result<usize>
    ensures within { ReadsAtMost result into.new }
    ensures bytes { ReadConsumes (F.remaining file.old) (F.remaining file.new) result into.new }
{
    for _ in 0..u64::MAX {
        match file.read(into) {
            Err(error) if error.kind() == ErrorKind::Interrupted => {}
            answer => return answer,
        }
    }
    file.read(into)
}
