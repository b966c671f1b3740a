//! The bytes that don't stand for themselves.

ghost use Rattle.std.specs.Prelude.{◌≡◌, ◌<◌, ◌≤◌, ◌+◌, [], ◌∷◌, length, IfNone, IfSome};
ghost use Rattle.std.specs.Bool.{OnFalse, OnTrue};
ghost use Rattle.row_text.specs.Fields.{escaped, escaped_text};

/// Returns the byte that is written after a backslash for this byte. Returns None if the byte stands for itself.
#[inline]
#[tactic(auto, unfolding(crate::specs::Fields::escaped))]
pub(crate) fn letter_of(byte: u8, delimiter: u8) -> Option<u8>
    ensures itself { IfNone result (escaped delimiter byte ≡ byte ∷ []) }
    ensures escape { IfSome result (λ letter. escaped delimiter byte ≡ 92 ∷ letter ∷ []) }
{
    match byte {
        8 => Some(b'b'),
        9 => Some(b't'),
        10 => Some(b'n'),
        11 => Some(b'v'),
        12 => Some(b'f'),
        13 => Some(b'r'),
        b'\\' => Some(b'\\'),
        b'|' if delimiter == b'|' => Some(b'|'),
        _ => None,
    }
}

/// Whether a byte doesn't stand for itself.
#[inline]
fn is_escaped(byte: u8, delimiter: u8) -> bool
    ensures itself { OnFalse result (escaped delimiter byte ≡ byte ∷ []) }
    ensures escape { OnTrue result (length (escaped delimiter byte) ≡ 2) }
{
    ((byte >= 8) & (byte <= 13)) | (byte == b'\\') | ((byte == b'|') & (delimiter == b'|'))
}

/// Whether some byte doesn't stand for itself. The loop looks at each byte without a branch, so that a processor takes many at
/// once.
pub(crate) fn has_escape(bytes: &[u8], delimiter: u8) -> bool
    ensures none { OnFalse result (escaped_text delimiter bytes.now ≡ bytes.now) }
    ensures some { OnTrue result (length bytes.now < length (escaped_text delimiter bytes.now)) }
{
    let mut found: u8 = 0;
    for byte in bytes {
        found = found.max(u8::from(is_escaped(*byte, delimiter)));
    }
    found > 0
}

/// Returns how many of the bytes don't stand for themselves.
pub(crate) fn escape_count(bytes: &[u8], delimiter: u8) -> usize
    ensures count { length bytes.now + result ≡ length (escaped_text delimiter bytes.now) }
    ensures within { result ≤ length bytes.now }
{
    let mut count = 0;
    for byte in bytes {
        count += usize::from(is_escaped(*byte, delimiter));
    }
    count
}
