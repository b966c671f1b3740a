//! Lines in COPY text form that CSV writes alike, but for what stands between two fields.

ghost use Rattle.std.specs.Prelude.{◌≡◌, ◌<◌, ◌≤◌, ◌+◌, ◌++◌, OnOk, false, length, take};
ghost use Rattle.csv_face.specs.Alike.{AreAlike, StandAlike, byte_in_csv, may_differ, with_commas};

use out_of_memory::Memory;

/// How many bytes are looked at together.
const BLOCK: usize = 64;

/// Tells whether CSV may write a byte otherwise than as it stands, where it isn't a delimiter, by the byte after it.
fn may_differ(byte: u8, next: u8) -> bool
    ensures { result ≡ may_differ byte next }
{
    byte == b'"'
        || byte == b','
        || byte == b'\r'
        || (byte == b'\\' && next != b'N')
        || (byte == b'\n' && next == b'\n')
}

/// Tells whether CSV may write a byte of the block that begins at a place otherwise than as it stands.
fn block_may_differ(text: &[u8], start: usize) -> bool
    requires { start + 64 < length text.now }
    ensures { result ≡ false → StandAlike text.now start 64 }
{
    let mut differs = false;
    for place in 0..BLOCK {
        differs |= may_differ(text[start + place], text[start + place + 1]);
    }
    differs
}

/// Returns how many bytes at the beginning of a text, at most `most`, are whole lines, the first of them not empty.
fn whole_size(text: &[u8], most: usize) -> usize
    requires within { most < length text.now }
    requires alike { StandAlike text.now 0 most }
    ensures within { result ≤ length text.now }
    ensures lines { AreAlike (take result text.now) }
{
    if text[0] == b'\n' {
        return 0;
    }
    let mut size = most;
    while size > 0 && text[size - 1] != b'\n' {
        size -= 1;
    }
    size
}

/// Returns how many bytes at the beginning of a text are lines that CSV writes alike. There may be more of them.
pub fn alike_size(text: &[u8]) -> usize
    ensures within { result ≤ length text.now }
    ensures lines { AreAlike (take result text.now) }
{
    let mut size = 0;
    while BLOCK < text.len() - size {
        if block_may_differ(text, size) {
            return whole_size(text, size);
        }
        size += BLOCK;
    }
    if text.is_empty() {
        0
    } else {
        whole_size(text, size)
    }
}

/// Returns the byte that stands in CSV for a byte of a line.
fn byte_in_csv(byte: u8, delimiter: u8) -> u8
    ensures { result ≡ byte_in_csv delimiter byte }
{
    if byte == delimiter { b',' } else { byte }
}

/// Puts commas in the place of the delimiters.
fn put_commas(lines: &mut [u8], delimiter: u8)
    ensures { lines.new ≡ with_commas delimiter lines.old }
{
    for place in 0..lines.len() {
        lines[place] = byte_in_csv(lines[place], delimiter);
    }
}

/// Appends lines that CSV writes alike.
pub fn push_alike(csv: &mut Vec<u8>, lines: &[u8], delimiter: u8) -> Result<(), Memory>
    ensures { OnOk result (csv.new.items ≡ csv.old.items ++ with_commas delimiter lines.now) }
{
    let start = csv.len();
    csv.extend_from_slice(lines)?;
    put_commas(&mut csv.as_mut_slice()[start..], delimiter);
    Ok(())
}
