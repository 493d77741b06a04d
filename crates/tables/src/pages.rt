// Pages that keep the rules, and for each rule a page that breaks it alone.
use quorum::ReplicaSet;
use stores::{Mode, Number, Page, Recorded, Stamp, View};

// A view of the replicas 1, 2 and 3.
pub fn view(number: u32) -> View {
    View {
        number: Number(number),
        set: ReplicaSet(0b1110),
    }
}

pub fn recorded(number: u32, stamp: u32) -> Recorded {
    Recorded {
        view: view(number),
        stamp: Stamp(stamp),
    }
}

// A page of this mode, with top stamp 40.
pub fn page(
    mode: Mode,
    mark: Option<u32>,
    component: Option<View>,
    recorded: Option<Recorded>,
) -> Page {
    Page {
        mode,
        top: Stamp(40),
        mark: mark.map(Number),
        component,
        recorded,
    }
}

#[test]
fn good_pages(rt: HostRuntime) {
    let pages = [
        Page::fresh(),
        page(Mode::Waiting, Some(9), None, None),
        page(Mode::Joining, Some(8), None, Some(recorded(8, 40))),
        page(Mode::Normal, Some(7), Some(view(7)), None),
        page(Mode::Normal, Some(0), Some(view(0)), None),
        page(Mode::Normal, Some(8), Some(view(7)), Some(recorded(8, 39))),
        page(Mode::Reconfiguration, Some(8), Some(view(7)), None),
        page(Mode::Reconfiguration, Some(9), None, Some(recorded(8, 0))),
        page(
            Mode::Normal,
            Some(1_000_000_000),
            Some(view(1_000_000_000)),
            None,
        ),
    ];
    for page in &pages {
        assert!(rt; page.keeps_rules(1));
    }
}

#[test]
fn bad_pages(rt: HostRuntime) {
    let pages = [
        // Waiting has neither view, joining only the recorded one, normal the component view, reconfiguration one.
        page(Mode::Waiting, Some(7), Some(view(7)), None),
        page(Mode::Waiting, Some(8), None, Some(recorded(8, 40))),
        page(Mode::Joining, Some(8), Some(view(7)), Some(recorded(8, 40))),
        page(Mode::Joining, Some(8), None, None),
        page(Mode::Normal, Some(8), None, Some(recorded(8, 40))),
        page(Mode::Reconfiguration, Some(8), None, None),
        // The recorded view is numbered one above the component view.
        page(Mode::Normal, Some(9), Some(view(7)), Some(recorded(9, 40))),
        page(Mode::Normal, Some(9), Some(view(8)), Some(recorded(8, 40))),
        // A recorded view is numbered at least 1.
        page(Mode::Joining, Some(8), None, Some(recorded(0, 40))),
        // With either view the mark is present and not below it.
        page(Mode::Normal, None, Some(view(0)), None),
        page(Mode::Normal, Some(6), Some(view(7)), None),
        page(Mode::Joining, None, None, Some(recorded(8, 40))),
        page(Mode::Joining, Some(7), None, Some(recorded(8, 40))),
        // The recorded view's stamp is not above the top stamp.
        page(Mode::Joining, Some(8), None, Some(recorded(8, 41))),
        // No number is above the highest.
        page(Mode::Waiting, Some(1_000_000_001), None, None),
    ];
    for page in &pages {
        assert!(rt; !page.keeps_rules(1));
    }
}

// A page with a view is that of a replica of the view, and of no other; a fresh page is anybody's. Numbers above 15 are asked for too.
#[test]
fn whose_page(rt: HostRuntime) {
    let member = page(Mode::Normal, Some(7), Some(view(7)), None);
    let newcomer = page(Mode::Joining, Some(8), None, Some(recorded(8, 40)));
    for replica in 0..20u8 {
        let held = 1 <= replica && replica <= 3;
        assert_eq!(rt; member.keeps_rules(replica), held);
        assert_eq!(rt; newcomer.keeps_rules(replica), held);
        assert!(rt; Page::fresh().keeps_rules(replica));
    }
}
