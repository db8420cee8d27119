//! A list of five verdicts, two of which are races.
use crate::expected::expect;
use event_core::{OutOfMemory, Verdict};
use std::alloc::Global;
use std::process::Abort;
use verdict_list::{Race, Verdicts};

const VERDICTS: &[Verdict] = &[
    Verdict::Clear,
    Verdict::Racy(0),
    Verdict::Clear,
    Verdict::Clear,
    Verdict::Racy(3),
];

const RACES: &[Race] = &[Race { event: 1, with: 0 }, Race { event: 4, with: 3 }];

/// A new list makes room, takes the verdicts, tells each, and lists the races in the order of the log.
fn expect_kept(rt: &impl Abort, alloc: Global, asks_again: bool) {
    let mut verdicts = Verdicts::new(alloc);
    let empty = (verdicts.len(), verdicts.has_room(1));
    expect(rt, &"an empty list", empty, (0, false));
    let made = match verdicts.reserve(5) {
        Err(OutOfMemory) if asks_again => verdicts.reserve(5),
        made => made,
    };
    expect(rt, &"room for five verdicts", made, Ok(()));
    let roomy = (verdicts.len(), verdicts.has_room(5));
    expect(rt, &"a list with room", roomy, (0, true));
    for verdict in VERDICTS {
        if verdicts.len() < 5 && verdicts.has_room(1) {
            verdicts.push(*verdict);
        }
    }
    expect(rt, &"a list of five", verdicts.len(), 5);
    for (index, verdict) in (0u64..).zip(VERDICTS) {
        let came = (index < verdicts.len()).then(|| verdicts.at(index));
        expect(rt, &("verdict", index), came, Some(*verdict));
    }
    expect(rt, &"the races", verdicts.races(), RACES);
    drop(verdicts);
}

#[test]
fn verdicts_and_their_races_are_kept(rt: HostRuntime) {
    expect_kept(&rt, rt.alloc(), false);
}

#[test]
fn verdicts_and_their_races_are_kept_where_memory_is_refused(rt: HostRuntime) {
    expect_kept(&rt, rt.alloc(), true);
}
