//! What ends a test.
use std::fmt::Debug;
use std::process::Abort;

/// Ends the test unless what came is what was wanted, and prints both after the place. A library ends no
/// program, so each crate of tests has this function of its own.
pub fn expect<T: Copy + PartialEq + Debug>(
    rt: &impl Abort,
    place: &impl Debug,
    came: T,
    wanted: T,
) {
    if came != wanted {
        panic!(rt; "{place:?}: wanted {wanted:?}, came {came:?}")
    }
}
