//! Pages that are offered in another order than their numbers'.

use line_pages::PageBuf;
use ordered_sink::{Numbered, Ordered, Refused};
use std::alloc::Global;
use std::process::Abort;

// Returns a page with a text.
fn page_with(rt: &impl Abort, alloc: Global, text: &str) -> PageBuf {
    let mut page = PageBuf::with_room(alloc, 8).expect(rt, "memory");
    if text.len() <= page.free() {
        page.put(text.as_bytes());
    }
    page
}

// Whether a page was handed out, with a number and a text.
fn is_page(handed: &Option<Numbered>, number: u64, text: &str) -> bool {
    match handed {
        Some(Numbered { n, page }) => *n == number && page.text() == text.as_bytes(),
        None => false,
    }
}

// Of three pages from 5 on the second comes first, and again; two are of no number of the round; the third never comes.
#[test]
fn pages_come_in_the_order_of_their_numbers(rt: HostRuntime) {
    let alloc = rt.alloc();
    let mut pages = Ordered::new(alloc, 3).expect(&rt, "memory");
    pages.restart(5, 3);
    assert!(rt; pages.offer(6, page_with(&rt, alloc, "six")).is_ok());
    assert!(rt; pages.next_page().is_none());
    let again = pages.offer(6, page_with(&rt, alloc, "once more"));
    assert!(rt; matches!(again, Err(Refused::Taken { .. })));
    for number in [8, 4] {
        let other = pages.offer(number, page_with(&rt, alloc, "other"));
        assert!(rt; matches!(other, Err(Refused::Beyond { .. })));
    }
    assert!(rt; pages.offer(5, page_with(&rt, alloc, "five")).is_ok());
    assert!(rt; is_page(&pages.next_page(), 5, "five"));
    assert!(rt; is_page(&pages.next_page(), 6, "six"));
    assert!(rt; pages.next_page().is_none());
    match pages.finish() {
        Ok(()) => assert!(rt; false, "a page is missing"),
        Err(missing) => assert_eq!(rt; missing.first, 7),
    }
}
