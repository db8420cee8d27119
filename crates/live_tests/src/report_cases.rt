//! Worked reports of closed logs, by events and by places.
use crate::calls::By;
use Act::{Load, Store, Swap};
use By::{Child, Main};
use Form::{ByEvent, ByPlace};
use ReportFault::Unnamed;
use closed_report::{NameLists, Place, PlaceRaces, ReportFault};
use event_core::{SiteId, VarId};
use live_monitor::Race;
use rapid_text::Kind;
use test_doubles::rows;

#[derive(Clone, Copy)]
pub enum Act {
    Load,
    Store,
    Swap,
}

/// A call that is accepted where there is memory for it.
pub type Line = (By, Act, VarId, SiteId);

/// How many variables there are, what two threads do after a fork and before a join, both at site a, and how
/// many events the log then has. A log without lines has no fork.
pub struct Logged {
    pub variables: u32,
    pub lines: &'static [Line],
    pub events: u64,
}

/// What a report has a line for: each event that races, or each of these places.
#[derive(Clone, Copy)]
pub enum Form {
    ByEvent,
    ByPlace(&'static [PlaceRaces]),
}

/// What a case shows, the log, the form, the names, whether there is room for the report, the number of races
/// or the fault that is answered, and what is written.
pub type Case = (
    &'static str,
    &'static Logged,
    Form,
    NameLists<'static>,
    bool,
    Result<u64, ReportFault>,
    &'static str,
);

pub const A: SiteId = SiteId(0);

const B: SiteId = SiteId(1);

const C: SiteId = SiteId(2);

const X: VarId = VarId(0);

const Y: VarId = VarId(1);

const EMPTY: &Logged = &Logged {
    variables: 1,
    lines: &[],
    events: 0,
};

const SWAPS: &Logged = &Logged {
    variables: 1,
    lines: &[(Child, Swap, X, B), (Main, Swap, X, C)],
    events: 6,
};

const ACCESSES: &Logged = &Logged {
    variables: 2,
    lines: &[
        (Child, Store, X, B),
        (Main, Store, X, C),
        (Main, Load, X, C),
        (Child, Store, Y, B),
        (Main, Store, Y, C),
        (Main, Store, X, A),
        (Child, Store, X, B),
        (Main, Load, X, C),
    ],
    events: 10,
};

/// Names for the logs of one variable. The site of main's swap has none.
pub const NAMES: NameLists<'static> = NameLists {
    threads: &["main", "child"],
    locks: &["l"],
    variables: &["x"],
    sites: &["a", "b", ""],
};

const TWO_VARIABLES: NameLists<'static> = NameLists {
    variables: &["x", "y"],
    sites: &["a", "b", "c"],
    ..NAMES
};

/// The places of the races: at c with b, first of x and then of y; of x at a with b, and at b with a.
const PLACES: &[PlaceRaces] = rows! {
    PlaceRaces { place: Place { site: C, with: B, var: X }, races: 3, first: Race { event: 2, with: 1 } };
    PlaceRaces { place: Place { site: C, with: B, var: Y }, races: 1, first: Race { event: 5, with: 4 } };
    PlaceRaces { place: Place { site: A, with: B, var: X }, races: 1, first: Race { event: 6, with: 1 } };
    PlaceRaces { place: Place { site: B, with: A, var: X }, races: 1, first: Race { event: 7, with: 6 } };
};

const CASES: &[Case] = rows! {
    "a log without events", EMPTY, ByEvent, NAMES, true, Ok(0),
        "events 0 threads 2 locks 1 variables 1 races 0\n";
    "two swaps", SWAPS, ByEvent, NAMES, true, Ok(2),
        "events 6 threads 2 locks 1 variables 1 races 2\n\
        4|main|r(x)| with 3|child|w(x)|b\n5|main|w(x)| with 3|child|w(x)|b\n";
    "a thread without a name: nothing is written",
        SWAPS, ByEvent, NameLists { threads: &["main"], ..NAMES }, true,
        Err(Unnamed { kind: Kind::Thread, number: 1, event: 0 }), "";
    "a variable without a name", SWAPS, ByEvent, NameLists { variables: &[], ..NAMES }, true,
        Err(Unnamed { kind: Kind::Variable, number: 0, event: 1 }), "";
    "a site without a name", SWAPS, ByEvent, NameLists { sites: &["a", "b"], ..NAMES }, true,
        Err(Unnamed { kind: Kind::Site, number: 2, event: 3 }), "";
    "a report that is not taken", SWAPS, ByEvent, NAMES, false, Err(ReportFault::Write), "";
    "races by place", ACCESSES, ByPlace(PLACES), TWO_VARIABLES, true, Ok(6),
        "events 10 threads 2 locks 1 variables 2 races 6\n\
        races 3 first 3|main|w(x)|c with 2|child|w(x)|b\n\
        races 1 first 6|main|w(y)|c with 5|child|w(y)|b\n\
        races 1 first 7|main|w(x)|a with 2|child|w(x)|b\n\
        races 1 first 8|child|w(x)|b with 7|main|w(x)|a\n";
    "a report by place that is not taken", ACCESSES, ByPlace(PLACES), TWO_VARIABLES, false,
        Err(ReportFault::Write), "";
    "races by place, and a variable without a name",
        ACCESSES, ByPlace(PLACES), NameLists { variables: &["x"], ..TWO_VARIABLES }, true,
        Err(Unnamed { kind: Kind::Variable, number: 1, event: 4 }), "";
};

pub fn cases() -> &'static [Case] {
    CASES
}
