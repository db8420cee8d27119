//! Traces and what is to be printed for them, as a person worked it out.
use test_doubles::rows;

/// A trace, the report of a replay, and the status with which it ends. A check prints the counts alone.
pub type Legal = (&'static str, &'static str, u8);

/// A trace, and the line of its fault.
pub type Refused = (&'static str, &'static str);

/// A test that names the table itself is proved over each of its bytes.
pub fn legal() -> &'static [Legal] {
    LEGAL
}

pub fn refused() -> &'static [Refused] {
    REFUSED
}

/// Nested sections, and the reports of its beginnings that end with each line.
pub fn nested() -> (&'static str, &'static [&'static str]) {
    (NESTED, NESTED_REPORTS)
}

const NESTED: &str = "T0|fork(T1)|1\nT0|acq(l)|2\nT0|acq(m)|3\nT0|w(x)|4\nT0|rel(m)|5\nT0|w(y)|6\n\
    T0|rel(l)|7\nT1|acq(m)|8\nT1|r(x)|9\nT1|rel(m)|10\nT1|acq(l)|11\nT1|rel(l)|12\n\
    T1|r(y)|13\n";

const NESTED_REPORTS: &[&str] = &[
    "events 1 threads 2 locks 0 variables 0 races 0\n",
    "events 2 threads 2 locks 1 variables 0 races 0\n",
    "events 3 threads 2 locks 2 variables 0 races 0\n",
    "events 4 threads 2 locks 2 variables 1 races 0\n",
    "events 5 threads 2 locks 2 variables 1 races 0\n",
    "events 6 threads 2 locks 2 variables 2 races 0\n",
    "events 7 threads 2 locks 2 variables 2 races 0\n",
    "events 8 threads 2 locks 2 variables 2 races 0\n",
    "events 9 threads 2 locks 2 variables 2 races 0\n",
    "events 10 threads 2 locks 2 variables 2 races 0\n",
    "events 11 threads 2 locks 2 variables 2 races 0\n",
    "events 12 threads 2 locks 2 variables 2 races 0\n",
    "events 13 threads 2 locks 2 variables 2 races 0\n",
];

const LEGAL: &[Legal] = rows! {
    // an empty text
    "", "events 0 threads 0 locks 0 variables 0 races 0\n", 0;
    // a store that no fork covers
    "T0|fork(T1)|1\nT0|w(x)|2\nT1|w(x)|3\n",
        "events 3 threads 2 locks 0 variables 1 races 1\n3|T1|w(x)|3 with 2|T0|w(x)|2\n", 1;
    // conflicting sections
    "T0|fork(T1)|1\nT0|acq(l)|2\nT0|w(x)|3\nT0|rel(l)|4\nT1|acq(l)|5\nT1|w(x)|6\n",
        "events 6 threads 2 locks 1 variables 1 races 0\n", 0;
    // sections without a conflict
    "T0|fork(T1)|1\nT0|w(y)|2\nT0|acq(l)|3\nT0|w(x)|4\nT0|rel(l)|5\nT1|acq(l)|6\nT1|rel(l)|7\nT1|r(y)|8\n",
        "events 8 threads 2 locks 1 variables 2 races 1\n8|T1|r(y)|8 with 2|T0|w(y)|2\n", 1;
    // a load in the later section
    "T0|fork(T1)|1\nT0|w(y)|2\nT0|acq(l)|3\nT0|w(x)|4\nT0|rel(l)|5\nT1|acq(l)|6\nT1|r(x)|7\nT1|rel(l)|8\n\
        T1|r(y)|9\n", "events 9 threads 2 locks 1 variables 2 races 0\n", 0;
    // a load before the conflict
    "T0|fork(T1)|1\nT0|w(y)|2\nT0|acq(l)|3\nT0|w(x)|4\nT0|rel(l)|5\nT1|acq(l)|6\nT1|r(y)|7\nT1|r(x)|8\n\
        T1|rel(l)|9\n", "events 9 threads 2 locks 1 variables 2 races 1\n7|T1|r(y)|7 with 2|T0|w(y)|2\n", 1;
    // nested sections
    NESTED, "events 13 threads 2 locks 2 variables 2 races 0\n", 0;
    // a load before the outer section ends
    "T0|fork(T1)|1\nT0|acq(l)|2\nT0|acq(m)|3\nT0|w(x)|4\nT0|rel(m)|5\nT0|w(y)|6\nT0|rel(l)|7\n\
        T1|acq(m)|8\nT1|r(x)|9\nT1|rel(m)|10\nT1|r(y)|11\n",
        "events 11 threads 2 locks 2 variables 2 races 1\n11|T1|r(y)|11 with 6|T0|w(y)|6\n", 1;
    // three threads and four locks
    "T0|fork(T1)|1\nT0|fork(T2)|2\nT2|w(z)|3\nT2|acq(n)|4\nT2|rel(n)|5\nT0|acq(l)|6\nT0|acq(m)|7\n\
        T0|w(x)|8\nT0|rel(m)|9\nT0|acq(n)|10\nT0|rel(n)|11\nT0|rel(l)|12\nT1|acq(m)|13\nT1|r(x)|14\n\
        T1|rel(m)|15\nT1|acq(k)|16\nT1|rel(k)|17\nT0|acq(k)|18\nT0|rel(k)|19\nT0|acq(l)|20\nT0|rel(l)|21\n\
        T0|r(z)|22\n", "events 22 threads 3 locks 4 variables 2 races 0\n", 0;
    // fork and join around a store
    "T0|w(x)|1\nT0|fork(T1)|2\nT1|w(x)|3\nT0|join(T1)|4\nT0|w(x)|5\n",
        "events 5 threads 2 locks 0 variables 1 races 0\n", 0;
    // a thread that was never forked
    "T0|fork(T1)|1\nT0|join(T1)|2\nT2|w(x)|3\nT0|r(x)|4\n",
        "events 4 threads 3 locks 0 variables 1 races 1\n4|T0|r(x)|4 with 3|T2|w(x)|3\n", 1;
    // parentheses in a name
    "T0|w(a(b))|\r\nT0|r(a(b))|9", "events 2 threads 1 locks 0 variables 1 races 0\n", 0;
    // a join of a thread without events
    "T0|w(x)|1\nT0|fork(T1)|2\nT2|join(T1)|3\nT2|w(x)|4\n",
        "events 4 threads 3 locks 0 variables 1 races 0\n", 0;
    // sections that do not nest
    "T0|fork(T1)|1\nT0|acq(l)|2\nT0|acq(m)|3\nT0|rel(l)|4\nT0|w(x)|5\nT0|rel(m)|6\nT1|acq(l)|7\nT1|w(x)|8\n",
        "events 8 threads 2 locks 2 variables 1 races 1\n8|T1|w(x)|8 with 5|T0|w(x)|5\n", 1;
    // three stores
    "T0|fork(T1)|1\nT0|fork(T2)|2\nT1|w(x)|3\nT2|w(x)|4\nT0|w(x)|5\n",
        "events 5 threads 3 locks 0 variables 1 races 2\n4|T2|w(x)|4 with 3|T1|w(x)|3\n\
        5|T0|w(x)|5 with 4|T2|w(x)|4\n", 1;
    // a lock that is acquired twice
    "T0|acq(l)|1\nT0|acq(l)|2", "events 2 threads 1 locks 1 variables 0 races 0\n", 0;
    // an inner release
    "T0|fork(T1)|1\nT0|acq(l)|2\nT0|acq(l)|3\nT0|rel(l)|4\nT0|w(x)|5\nT0|rel(l)|6\nT1|acq(l)|7\nT1|w(x)|8\n",
        "events 8 threads 2 locks 1 variables 1 races 0\n", 0;
    // a load and a store at one place
    "m|fork(a)|1\na|r(x)|2\na|w(x)|2\nm|join(a)|3\nm|r(x)|4\nm|w(x)|4\n",
        "events 6 threads 2 locks 0 variables 1 races 0\n", 0;
    // a CR at the end of the text
    "T0|w(x)|1\r", "events 1 threads 1 locks 0 variables 1 races 0\n", 0;
    // an empty location in a race
    "T0|w(a(b))|\nT1|r(a(b))|é\n",
        "events 2 threads 2 locks 0 variables 1 races 1\n2|T1|r(a(b))|é with 1|T0|w(a(b))|\n", 1;
    // a store by a child that is joined
    "m|fork(a)|1\na|w(x)|2\nm|join(a)|3\nm|r(x)|4\n", "events 4 threads 2 locks 0 variables 1 races 0\n", 0;
};

const REFUSED: &[Refused] = rows! {
    // an unknown operation
    "T0|w(x)|1\nT0|begin(x)|2\n", "line 2: BadOp\n";
    // a release without an acquire
    "T0|rel(l)|1\n", "line 1: NotHolder\n";
    // a text that is cut off
    "T0|acq(l", "line 1: FewFields\n";
    // a fork of a thread that ran
    "T1|w(x)|1\nT0|fork(T1)|2\n", "line 2: AlreadyStarted\n";
    // an event after the join
    "T0|fork(T1)|1\nT0|join(T1)|2\nT1|r(x)|3\n", "line 3: Ended\n";
    // a release after the join
    "T0|fork(T1)|1\nT1|acq(l)|2\nT0|join(T1)|3\nT1|rel(l)|4\n", "line 4: Ended\n";
    // a lock that is still held
    "T0|fork(T1)|1\nT0|acq(l)|2\nT0|acq(l)|3\nT0|rel(l)|4\nT1|acq(l)|5\n", "line 5: Held\n";
    // three bars
    "T0|w(x)|1|2", "line 1: ManyFields\n";
    // an empty thread
    "|w(x)|1", "line 1: EmptyName\n";
    // an empty argument
    "T0|w()|1", "line 1: EmptyName\n";
    // a word in capitals
    "T0|W(x)|1", "line 1: BadOp\n";
    // bytes after the parenthesis
    "T0|w(x)y|1", "line 1: BadOp\n";
    // a CR within a line
    "T0|w(x\ry)|1", "line 1: StrayCr\n";
    // lines without content
    "\n\r\nT0|w(x)", "line 3: FewFields\n";
    // the first of two causes
    "|begin()|1", "line 1: BadOp\n";
    // a fork of itself
    "T0|fork(T0)|1", "line 1: SelfTarget\n";
};
