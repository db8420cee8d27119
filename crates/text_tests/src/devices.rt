//! Readers that fail, and turns that are used up.
use super::readers::expect_answers;
use test_doubles::{Text, rows};

const READ_FAILS: &str = "1: Read\n1: Failed";

const READ_FAILS_LATER: &str = "1: T0 Store(VarId(0)) at 0: 0\n2: Read";

const FEW_FIELDS: &str = "1: T0 Store(VarId(0)) at 0: 0\n2: Line(FewFields)";

const STORE: &str = "1: T0 Store(VarId(0)) at 0: 0\nend";

/// The events of whole lines come first, and no byte of a line without an end is judged.
#[test]
fn a_reader_may_fail_at_each_byte(rt: HostRuntime) {
    let text = b"T0|w(x)|1\r\nT0|begin\nT0|w(x)|1\n".as_slice();
    for end in 0..text.len() {
        let answers = if end < 11 {
            READ_FAILS
        } else if end < 20 {
            READ_FAILS_LATER
        } else {
            FEW_FIELDS
        };
        let text = Text::whole(&text[..end]).failing(true);
        expect_answers(&rt, text, 100, answers);
    }
}

/// The pull that finds the end takes a turn too.
const TURNS: &[(u32, &str)] = rows! {
    0, READ_FAILS;
    9, READ_FAILS;
    10, READ_FAILS_LATER;
    11, STORE;
};

#[test]
fn each_pull_takes_a_turn(rt: HostRuntime) {
    for (turns, answers) in TURNS {
        let text = Text::byte_by_byte(b"T0|w(x)|1\n");
        expect_answers(&rt, text, *turns, answers);
    }
}
