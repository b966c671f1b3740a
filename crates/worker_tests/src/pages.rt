//! Pages take what fits, as bytes and as pieces.

use line_pages::{PageBuf, Piece};

// Workers hand such a value on.
fn crosses_threads<T: Send + Sync>(_value: &T) {}

#[test]
fn pages_append(rt: HostRuntime) {
    let mut page = PageBuf::with_room(rt.alloc(), 5).expect(&rt, "memory");
    crosses_threads(&page);
    page.put(b"ab");
    page.put(b"c");
    assert!(rt; page.text() == b"abc".as_slice() && page.free() == 2);
    page.clear();
    assert!(rt; page.free() == 5);
}

// A page of the text's size takes the text as bytes and as a piece.
#[test]
fn pages_are_filled(rt: HostRuntime) {
    for text in [b"".as_slice(), b"a", b"sixteen bytes ab"] {
        let mut page = PageBuf::with_room(rt.alloc(), text.len()).expect(&rt, "memory");
        page.put(text);
        assert!(rt; page.text() == text && page.free() == 0, "{text:?}");
        page.clear();
        if text.len() <= Piece::ROOM {
            page.put_piece(&Piece::of(text));
        }
        assert!(rt; page.text() == text, "{text:?} as a piece");
    }
}
