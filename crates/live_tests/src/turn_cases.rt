//! Worked cases of two threads.
use crate::calls::{Ask, By};
use crate::turns::{Case, Deed};
use Ask::{Acquire, Load, Release, Store};
use By::{Child, Main};
use Deed::{Call, Drop, Fork, Join, JoinInVain, Look, Read, Swap, Try};
use test_doubles::rows;

const CASES: &[Case] = rows! {
    "a lock is acquired once the thread that holds it has released it", 1, 16, rows! {
        Main, Fork, "0: 0 Clear";
        Main, Call(Acquire(0)), "1: 0 Clear";
        Child, Call(Acquire(0)), "Held { by: ThreadId(0) }";
        Child, Look, "2 events";
        Child, Call(Release(0)), "NotHolder";
        Main, Look, "2 events";
        Main, Call(Release(0)), "2: 0 Clear";
        Child, Call(Acquire(0)), "3: 0 Clear";
        Main, Look, "4 events";
    }, "4 events";
    "a load races with the store before it", 1, 16, rows! {
        Main, Call(Store(0, 7)), "0: 7 Clear";
        Main, Fork, "1: 0 Clear";
        Child, Call(Store(0, 9)), "2: 9 Clear";
        Main, Look, "3 events";
        Main, Call(Load(0)), "3: 9 Racy(2)";
        Main, Join, "4: 0 Clear";
        Main, Call(Load(0)), "5: 9 Clear";
    }, "6 events, 3 with 2";
    "a store races with the load before it", 1, 16, rows! {
        Main, Call(Store(0, 7)), "0: 7 Clear";
        Main, Fork, "1: 0 Clear";
        Main, Call(Load(0)), "2: 7 Clear";
        Child, Call(Store(0, 9)), "3: 9 Racy(2)";
        Main, Join, "4: 0 Clear";
        Main, Call(Load(0)), "5: 9 Clear";
    }, "6 events, 3 with 2";
    "sections on an inner lock order those on the outer one", 2, 64, rows! {
        Main, Fork, "0: 0 Clear";
        Main, Call(Acquire(0)), "1: 0 Clear";
        Main, Call(Acquire(1)), "2: 0 Clear";
        Main, Call(Store(0, 3)), "3: 3 Clear";
        Main, Call(Release(1)), "4: 0 Clear";
        Main, Call(Store(1, 4)), "5: 4 Clear";
        Main, Call(Release(0)), "6: 0 Clear";
        Child, Call(Acquire(1)), "7: 0 Clear";
        Child, Call(Load(0)), "8: 3 Clear";
        Child, Call(Release(1)), "9: 0 Clear";
        Child, Call(Acquire(0)), "10: 0 Clear";
        Child, Call(Release(0)), "11: 0 Clear";
        Child, Call(Load(1)), "12: 4 Clear";
    }, "13 events";
    "a thread whose handle is dropped keeps its lock", 1, 16, rows! {
        Main, Fork, "0: 0 Clear";
        Child, Call(Acquire(0)), "1: 0 Clear";
        Child, Drop, "dropped";
        Main, Call(Acquire(0)), "Held { by: ThreadId(1) }";
    }, "2 events";
    "a swap is seen whole, and has room for both of its events or for none", 1, 5, rows! {
        Main, Fork, "0: 0 Clear";
        Child, Swap(4), "1: 0 Clear Clear";
        Main, Look, "3 events";
        Main, Swap(5), "3: 4 Racy(2) Racy(2)";
        Main, Swap(6), "LogFull";
        Main, Look, "5 events";
    }, "5 events, 3 with 2, 4 with 2";
    "of a swap's two events the store alone conflicts with a load", 1, 9, rows! {
        Main, Fork, "0: 0 Clear";
        Child, Call(Load(0)), "1: 0 Clear";
        Main, Swap(5), "2: 0 Clear Racy(1)";
        Main, Look, "4 events";
    }, "4 events, 3 with 1";
    "a refused handle serves, and a lock is acquired within so many tries", 1, 16, rows! {
        Main, Fork, "0: 0 Clear";
        Child, Try { times: 1, most: 1 }, "1, 1 tries";
        Main, Try { times: 1000, most: 1 }, "Held { by: ThreadId(1) }, 1 of 1 tries";
        Main, Try { times: 1, most: 1000 }, "Held { by: ThreadId(1) }, 1000 of 1000 tries";
        Main, Look, "2 events";
        Child, Call(Release(0)), "2: 0 Clear";
        Main, Try { times: 1, most: 1000 }, "3, 1 tries";
        Main, Call(Release(0)), "4: 0 Clear";
        Child, Try { times: 1, most: 0 }, "5, 0 tries";
        Child, Drop, "dropped";
        Main, Try { times: 1, most: 10 }, "Held { by: ThreadId(1) }, 10 of 10 tries";
        Main, Call(Store(0, 5)), "6: 5 Clear";
    }, "7 events";
    "the event that a verdict names is read at once", 1, 16, rows! {
        Main, Fork, "0: 0 Clear";
        Child, Call(Store(0, 9)), "1: 9 Clear";
        Main, Call(Store(0, 5)), "2: 5 Racy(1)";
        Main, Read(1), "T1 Store(VarId(0)) at 7: 9";
        Main, Read(3), "none";
    }, "3 events, 2 with 1";
    "a join that is refused gives back the handle of the child", 1, 1, rows! {
        Main, Fork, "0: 0 Clear";
        Main, JoinInVain, "LogFull";
    }, "1 events";
};

pub fn cases() -> &'static [Case] {
    CASES
}
