// What is read after writes and cuts, by held pages and by a store that counts its places down.
use super::pages::{page, view};
use quorum::Replica;
use std::process::Abort;
use std::test::Fail;
use stores::{
    Breakable, HeldPages, KeptPage, Mode, Page, Store, Writing, carry_out, carry_out_held,
};
use stores_tests::CountedPages;

// A page of replica 1, 2 or 3, told apart by its number.
fn normal(number: u32) -> Page {
    page(Mode::Normal, Some(number), Some(view(number)), None)
}

// What is read at a replica, if there is such a replica.
fn read<S: Store>(store: &S, replica: u8) -> Option<Page> {
    Some(store.read(Replica::new(replica)?))
}

fn check_read<S: Store>(rt: &impl Abort, store: &S, replica: u8, page: Page) {
    assert_eq!(rt; read(store, replica), Some(page), "replica {replica}");
}

fn write(replica: u8, number: u32) -> Writing {
    Writing {
        replica,
        page: normal(number),
        cut: None,
    }
}

fn cut(replica: u8, number: u32, n: u64) -> Writing {
    Writing {
        replica,
        page: normal(number),
        cut: Some(n),
    }
}

#[test]
fn held_pages(rt: HostRuntime) {
    let mut store = HeldPages::new();
    let writings = [
        write(1, 7),
        write(2, 7),
        cut(1, 8, 0),
        cut(2, 8, 1),
        write(3, 9),
        cut(3, 10, u64::MAX),
    ];
    assert_eq!(rt; carry_out(&mut store, &writings), 6);
    check_read(&rt, &store, 0, Page::fresh());
    check_read(&rt, &store, 1, normal(7));
    check_read(&rt, &store, 2, normal(8));
    check_read(&rt, &store, 3, normal(10));
    assert_eq!(rt; store.places(), 65_535);
}

// A writing against the rules, or of no replica, ends the list before it.
#[test]
fn kept_out(rt: HostRuntime) {
    let mut store = HeldPages::new();
    assert_eq!(rt;
        carry_out_held(&mut store, &[write(1, 7), write(4, 7), write(2, 7)]),
        1
    );
    check_read(&rt, &store, 1, normal(7));
    check_read(&rt, &store, 4, Page::fresh());
    check_read(&rt, &store, 2, Page::fresh());
    assert_eq!(rt; carry_out_held(&mut store, &[write(17, 7)]), 0);
}

// Three places, which these writings use. With no place left every write and every cut is refused, and changes nothing.
fn count_down(rt: &impl Abort, store: &mut CountedPages, second: Writing, third: Writing) {
    let writings = [write(1, 7), cut(1, 8, 3), second, third, write(3, 7)];
    assert_eq!(rt; carry_out(store, &writings), 4);
    check_read(rt, store, 1, normal(7));
    check_read(rt, store, 2, normal(7));
    check_read(rt, store, 3, Page::fresh());
    assert_eq!(rt; store.places(), 0);
}

// A cut has its place from the fourth byte-write on, and its page from the eighth.
#[test]
fn counted_down(rt: HostRuntime) -> Result<(), Fail> {
    let mut store = CountedPages::new(rt.alloc(), 3)?;
    count_down(&rt, &mut store, cut(1, 9, 4), cut(2, 7, 8));
    Ok(())
}

// A cut at 7 leaves the old page where two places are left, and the new one where one is.
#[test]
fn counted_down_at_seven(rt: HostRuntime) -> Result<(), Fail> {
    let mut store = CountedPages::new(rt.alloc(), 3)?;
    count_down(&rt, &mut store, cut(1, 9, 7), cut(2, 7, 7));
    Ok(())
}

fn fresh_page(replica: u8) -> Result<KeptPage, Fail> {
    let Some(kept) = KeptPage::new(replica, Page::fresh()) else {
        return Err(Fail::new("a fresh page keeps the rules"));
    };
    Ok(kept)
}

#[test]
fn no_place(rt: HostRuntime) -> Result<(), Fail> {
    let mut store = CountedPages::new(rt.alloc(), 0)?;
    let Err(whole) = store.write(fresh_page(5)?) else {
        return Err(Fail::new("a write has no place"));
    };
    let Err(cut) = store.cut(fresh_page(5)?, 0) else {
        return Err(Fail::new("a cut has no place"));
    };
    let text = format!(in rt.alloc(); "{whole}; {cut}")?;
    assert_eq!(rt;
        text.as_str(),
        "refused 14 at replica 5 by store; refused 14 at replica 5 by store"
    );
    Ok(())
}
