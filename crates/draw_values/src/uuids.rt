//! UUIDs of version 4, onto a page.

ghost use Rattle.std.specs.Prelude.{◌≡◌, ◌≤◌, ◌+◌, ◌++◌, length};
ghost use Rattle.uuid.specs.Text.{hyphenated_text, lower};
ghost use Rattle.philox_seeds.specs.SeedTree.{draw as draw_of};
ghost use Rattle.draw_values.specs.Uuids.{uuid_bytes, uuid_text};

use line_pages::PageBuf;
use philox_seeds::draw;
use uuid::{Builder, Uuid};

/// The draw of the last eight bytes. The draw before it gives the first eight.
const LAST_BYTES: u32 = 2;

/// Appends the UUID whose first eight bytes are those of `first`: 36 bytes, which must be free.
#[inline(always)]
pub(crate) fn put_uuid(first: u64, seed: u64, buf: &mut PageBuf)
    requires { length buf.old.text + 36 ≤ buf.old.room }
    ensures text { buf.new ≡ record buf.old { text = buf.old.text ++ uuid_text first (draw_of seed 2) } }
    ensures size { length (uuid_text first (draw_of seed 2)) ≡ 36 }
{
    let mut room = Uuid::encode_buffer();
    let text = text_of(uuid_of(first, draw(seed, LAST_BYTES)), &mut room);
    buf.put(text.as_bytes());
}

/// Returns the UUID of two draws. Each gives eight bytes, the most significant one first.
#[inline(always)]
fn uuid_of(first: u64, second: u64) -> Uuid
    ensures { result ≡ uuid_bytes first second }
{
    let mut bytes = [0; 16];
    bytes[..8].copy_from_slice(&first.to_be_bytes());
    bytes[8..].copy_from_slice(&second.to_be_bytes());
    Builder::from_random_bytes(bytes).into_uuid()
}

/// Returns the text of a UUID, with small letters. `room` has room for it.
#[inline(always)]
fn text_of<'a>(id: Uuid, room: &'a mut [u8]) -> &'a str
    requires { 36 ≤ length room.old }
    ensures { result.now ≡ hyphenated_text lower id }
{
    id.hyphenated().encode_lower(room)
}
