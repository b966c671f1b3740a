//! How a database's file is read and written: with a log beside it, or with a rollback journal.

ghost use Rattle.std.specs.Prelude.{[], ◌∷◌, IfOk, IsTrue, OnOk};
ghost use Rattle.sqlite_disk.specs.Disk.{Follows, Holds, Only, Torn};

use sqlite_disk::Disk;
use std::io;

/// The position of the two bytes of a file's header that tell how the file is written, and how it is read.
const MODE_AT: usize = 18;

/// With a rollback journal, so that no log is looked for.
const WITH_JOURNAL: [u8; 2] = [1, 1];

/// The position of the byte of the header that tells how many bytes of each page are reserved.
const RESERVED_AT: usize = 20;

/// Returns how many bytes of each page a database's file reserves. There a page can have a checksum of its bytes.
pub(crate) fn reserved_bytes<D: Disk>(file: &mut D) -> io::Result<u8>
    requires { IsTrue (D.is_usable file.old) }
    ensures read { IfOk result (λ count. IsTrue (D.is_clean file.new) → Holds (D.seen file.old) 20 (count ∷ [])) }
    ensures usable { IsTrue (D.is_usable file.new) }
{
    let mut reserved = [0];
    file.read_at(RESERVED_AT, &mut reserved)?;
    Ok(reserved[0])
}

/// Makes a database's file one with a rollback journal, and waits until the disk has that. Changes no other byte.
pub(crate) fn set_journal_mode<D: Disk>(file: &mut D) -> io::Result<()>
    requires { IsTrue (D.is_usable file.old) }
    ensures mode { OnOk result (Holds (D.seen file.new) 18 (1 ∷ 1 ∷ [])) }
    ensures others { Torn 18 2 (D.seen file.old) (D.seen file.new) }
    ensures synced { OnOk result (Only (D.seen file.new) (D.may_leave file.new)) }
    ensures crash { Follows (Torn 18 2) (D.may_leave file.old) (D.may_leave file.new) }
{
    file.write_at(MODE_AT, &WITH_JOURNAL)?;
    file.sync()
}
