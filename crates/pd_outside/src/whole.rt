//! Whole files that are read, and whole texts that are written.

ghost use Rattle.std.specs.Prelude.{◌≡◌, ◌<◌, ◌≤◌, ◌⊎◌, ◌+◌, ◌^◌, ◌↔◌, false, length, take, IsTrue, IfOk, IfSome, IsErrOf, IsOk, OnOk, OnErr, vec_len};
ghost use Rattle.std.specs.Option.{option_map};
ghost use Rattle.pd_outside.specs.Faults.{CallsMade, FailedAtLast, Unfailed};
ghost use Rattle.pd_outside.specs.Files.{bytes_of};
ghost use Rattle.pd_outside.specs.Library.{Content, read_out, ask, AskedAtMost};
ghost use Rattle.pd_outside.specs.Shelf.{append_bytes, AppendedPrefixOf};

use crate::{Failed, Library, ReadFault, Shelf, WriteFailed};
use std::alloc::{AllocError, Global};

/// The most bytes that one call of `read` asks for.
const CHUNK: usize = 65536;

/// Reads the whole file of a name, if it has at most `limit` bytes.
///
/// Returns `Failed` only if a call of the library failed, and none is made after it. Then no file is started. With any other result no
/// call failed. Returns `TooLong` exactly if `limit` + 1 bytes of the file were taken; no more are ever taken. If the name isn't
/// asked, no byte is taken.
pub fn read_whole<L: Library>(
    alloc: Global,
    library: &mut L,
    name: &str,
    limit: u64,
) -> Result<Vec<u8>, ReadFault>
    requires { limit < 2 ^ 32 }

    ensures whole { IfOk result (λ bytes. IfSome (L.content library.old) (λ c. bytes.items ≡ bytes_of c.files name.now)) }
    ensures read_out { OnOk result (L.content library.new ≡ option_map read_out (L.content library.old)) }
    ensures taken { IfOk result (λ bytes. L.taken library.new ≡ length bytes.items) }
    ensures within { OnOk result (L.taken library.new ≤ limit) }
    ensures at_most { L.taken library.new ≤ limit + 1 }

    ensures too_long { IsErrOf result ReadFault.TooLong ↔ (L.taken library.new ≡ limit + 1) }
    ensures longer { IsErrOf result ReadFault.TooLong → IfSome (L.content library.old) (λ c. limit < length (bytes_of c.files name.now)) }
    ensures failed { IsErrOf result ReadFault.Failed → FailedAtLast (L.counts library.old) (L.counts library.new) }
    ensures stopped { IsErrOf result ReadFault.Failed → L.is_started library.new ≡ false }
    ensures started { IsOk result ⊎ IsErrOf result ReadFault.TooLong → IsTrue (L.is_started library.new) }

    ensures asked { IsOk result ⊎ IsErrOf result ReadFault.TooLong → L.asked library.new ≡ ask name.now (L.asked library.old) }
    ensures asked_at_most { AskedAtMost name.now (L.asked library.old) (L.asked library.new) }
    ensures unasked { (L.asked library.new ≡ ask name.now (L.asked library.old)) ⊎ (L.taken library.new ≡ 0) }
    ensures files { option_map (λ (c : Content). c.files) (L.content library.new) ≡ option_map (λ (c : Content). c.files) (L.content library.old) }
    ensures unfailed { IsErrOf result ReadFault.Failed ⊎ Unfailed (L.counts library.old) (L.counts library.new) }
{
    match library.start(name) {
        Ok(()) => {}
        Err(Failed) => return Err(ReadFault::Failed),
    }
    let mut bytes = Vec::new(alloc);
    let mut buffer = zeros(alloc, CHUNK)?;
    let chunk = buffer.as_mut_slice();
    loop {
        let wanted = CHUNK.min((limit - bytes.len() as u64) as usize + 1);
        let n = match library.read(&mut chunk[..wanted]) {
            Ok(n) => n,
            Err(Failed) => return Err(ReadFault::Failed),
        };
        if n == 0 {
            return Ok(bytes);
        }
        if (limit - bytes.len() as u64) < n as u64 {
            return Err(ReadFault::TooLong);
        }
        bytes.extend_from_slice(&chunk[..n])?;
    }
}

/// Returns a buffer of `n` zeros. It is a function of its own so that no proof of its caller unfolds all the zeros.
fn zeros(alloc: Global, n: usize) -> Result<Vec<u8>, AllocError>
    ensures { IfOk result (λ bytes. vec_len bytes ≡ n) }
{
    Vec::from_elem(alloc, 0, n)
}

/// Appends all the bytes to the begun file, which stays begun. Returns `WriteFailed` only if a call of the shelf failed. Then a prefix of
/// the bytes was appended, and no call came after the failed write.
pub fn write_all<S: Shelf>(shelf: &mut S, bytes: &[u8]) -> Result<(), WriteFailed>
    requires { IsTrue (S.is_begun shelf.old) }
    ensures all { OnOk result (S.held shelf.new ≡ option_map (append_bytes bytes.now) (S.held shelf.old)) }
    ensures prefix { OnErr result (AppendedPrefixOf bytes.now (S.held shelf.old) (S.held shelf.new)) }
    ensures begun { IsTrue (S.is_begun shelf.new) }
    ensures counts { CallsMade result (S.counts shelf.old) (S.counts shelf.new) }
{
    let mut at = 0;
    while at < bytes.len() {
        match shelf.write(&bytes[at..]) {
            Ok(n) => at += n,
            Err(Failed) => return Err(WriteFailed),
        }
    }
    Ok(())
}
