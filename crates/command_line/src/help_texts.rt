//! What help says of the program and its commands, beside their options: what each reads and prints, how it
//! ends, and one example. No line of it has more than 80 columns.

/// What is said of a command over a trace: what a line of a trace is, what is printed of a legal one, the
/// words that say why a line is refused, and the end.
macro_rules! trace_help {
    ($printed:literal, $end:literal) => {
        concat!(
            "\
Standard input has a trace, with a line for each event, in their order:
  THREAD|OPERATION(ARGUMENT)|LOCATION
The operations are
  r(VARIABLE)  Load     acq(LOCK)  Acquire    fork(THREAD)  Start a thread
  w(VARIABLE)  Store    rel(LOCK)  Release    join(THREAD)  Wait for its end
Names are any texts of 1 to 255 bytes without a bar or a CR. The location says
where in the program the event is, and may be empty. A thread that no line forks
is there from the beginning. Empty lines are passed over, but counted.

",
            $printed,
            "

Where the trace is not legal, standard output has one line in its place, which
names the first line that is refused, counted from 1, and says why:
  line N: LineTooLong     It has more than 1024 bytes
  line N: StrayCr         It has a CR other than at its end
  line N: FewFields       It has fewer than two bars
  line N: ManyFields      It has more than two bars
  line N: BadOp           It has none of the six operations
  line N: EmptyName       Its thread or its argument is empty
  line N: LongName        A name or the location has more than 255 bytes
  line N: TooManyNames    It names a thread, lock, variable or location too
                          many; --threads allows for more threads
  line N: Ended           Its thread was joined before
  line N: Held            It acquires a lock that another thread holds
  line N: NotHolder       It releases a lock that its thread does not hold
  line N: SelfTarget      It forks or joins its own thread
  line N: AlreadyStarted  It forks a thread that an earlier line names
  line N: LogFull         There are too many events

",
            $end
        )
    };
}

/// What is said of the program.
pub(crate) const PROGRAM_TEXTS: &str = "\
A trace has a line for each event: its thread, its operation with an argument,
and its location, as in T0|acq(l)|17. A race is two accesses of one variable by
different threads, at least one of them a store, that weak causal precedence,
with program order, does not order. By a theorem of its paper, for traces
without forks and joins, the events of a trace with a race could have come in an
order in which two such accesses meet, or in a deadlock. Look at the first race
of a report first: those after it may be no more than what follows from it.

Example, of a race that the schedule hid, since B took the lock after A:
  printf 'A|w(y)|1\\nA|acq(l)|2\\nA|rel(l)|3\\nB|acq(l)|4\\nB|r(y)|5\\n' | wcp replay
prints
  events 5 threads 2 locks 1 variables 1 races 1
  5|B|r(y)|5 with 1|A|w(y)|1

Exit status:
  0  The trace is legal, and no race was found; or help or the version was
     asked for
  1  Replay or run found a race
  2  The command line is wrong
  3  A line of the trace, or a call of the script, is refused
  4  The input or the script could not be read, or standard output could not be
     written
  5  Out of memory
  6  The script is broken, or one of its threads is stuck or could not start";

/// What is said of the command `check`.
pub(crate) const CHECK_TEXTS: &str = trace_help!(
    "\
Standard output has one line, where the trace is legal, which says how many
events it has, and how many threads, locks and variables it names:
  events E threads T locks L variables V",
    "\
Example:
  printf 'A|w(y)|1\\nA|acq(l)|2\\nA|rel(l)|3\\nB|acq(l)|4\\nB|r(y)|5\\n' | wcp check
prints
  events 5 threads 2 locks 1 variables 1

Exit status:
  0  The trace is legal
  2  The command line is wrong
  3  A line of the trace is refused
  4  Standard input could not be read, or standard output could not be written
  5  Out of memory"
);

/// What is said of the command `replay`.
pub(crate) const REPLAY_TEXTS: &str = trace_help!(
    "\
Standard output has a line of counts, where the trace is legal, and then a line
for each event that races with an earlier one:
  events E threads T locks L variables V races R
  I|THREAD|OP(VARIABLE)|LOCATION with J|THREAD|OP(VARIABLE)|LOCATION
I and J number the events from 1, and J is the latest that I races with. Two
events race where they access one variable, at least one of them stores, their
threads differ, and weak causal precedence, with program order, does not order
them.",
    "\
Example:
  printf 'A|w(y)|1\\nA|acq(l)|2\\nA|rel(l)|3\\nB|acq(l)|4\\nB|r(y)|5\\n' | wcp replay
prints
  events 5 threads 2 locks 1 variables 1 races 1
  5|B|r(y)|5 with 1|A|w(y)|1

Exit status:
  0  The trace is legal, and no race was found
  1  A race was found
  2  The command line is wrong
  3  A line of the trace is refused
  4  Standard input could not be read, or standard output could not be written
  5  Out of memory"
);

/// What is said of the command `witness`.
pub(crate) const WITNESS_TEXTS: &str = trace_help!(
    "\
With EVENT, the number of a racing event in the report of replay, standard
output has the trace of a witness for its race. A witness is another order of
events of the trace, in which each thread does the same up to the race, each
load reads the same store, and the two events that race come last, with nothing
between them. So the threads that made the trace could have made this order. Or
there is one line, none, where no witness was found: the race may still be real.

Without EVENT standard output has a line of counts, and a line for each pair of
locations of the report of replay, in the order of their first races:
  events E threads T locks L variables V races R
  witness N I|THREAD|OP(VARIABLE)|LOCATION with J|THREAD|OP(VARIABLE)|LOCATION
  none N I|THREAD|OP(VARIABLE)|LOCATION with J|THREAD|OP(VARIABLE)|LOCATION
N is how many races there are between the two locations. The line of the report
follows, of the race that has a witness, or else of the first. At a pair of
locations the first 200 races are tried.",
    "\
Example:
  printf 'A|w(y)|1\\nA|acq(l)|2\\nA|rel(l)|3\\nB|acq(l)|4\\nB|r(y)|5\\n' |
    wcp witness 5
prints
  B|acq(l)|4
  A|w(y)|1
  B|r(y)|5

Exit status:
  0  A witness was printed; or, without EVENT, no race was found
  1  No witness was found for the event; or, without EVENT, a race was found
  2  The command line is wrong, or the event does not race with an earlier one
  3  A line of the trace is refused
  4  Standard input could not be read, or standard output could not be written
  5  Out of memory"
);

/// What is said of the command `run`.
pub(crate) const RUN_TEXTS: &str = "\
The file has a script, with a line for each call of a thread, whose words are
set apart by one blank:
  THREAD r VARIABLE            Load
  THREAD w VARIABLE NUMBER     Store
  THREAD swap VARIABLE NUMBER  Load and store in one step
  THREAD acq LOCK              Acquire
  THREAD rel LOCK              Release
  THREAD fork THREAD           Start a thread
  THREAD join THREAD           Wait for the end of a thread
The thread of the first line is there from the beginning, and one line forks
each other. Every thread makes the calls of its own lines, in order and beside
the other threads. So the order of the calls of two threads may differ from run
to run.

Standard output has the report of these calls, as replay gives it; their
locations are line numbers. Or it has one line, where a script is broken, one of
its threads is stuck or could not be started, or a call is refused:
  line N: LineTooLong   The line has more than 1024 bytes
  line N: BadLine       It is none of the seven
  line N: BadNumber     Its number does not have 1 to 20 digits, or is above
                        18446744073709551615
  line N: TooManyNames  It names a thread, lock or variable too many; --threads
                        allows for more threads
  line N: BadFork       It forks a thread that was forked before, or is there
                        from the beginning
  line N: BadJoin       It joins its own thread, one that was joined before, or
                        the first
  line N: NoFork        It names a thread to which no forks lead from the first
                        line's thread
  line N: Stuck         Its lock, or the thread that it joins, was not to be had
                        in --patience tries
  line N: NoWorker      The thread that it forks could not be started
  line N: NotHolder     It releases a lock that its thread does not hold
  line N: LogFull       There are too many calls

Example:
  printf 'm fork a\\nm w x 1\\na w x 2\\n' > race.script
  wcp run race.script
prints, if m is the first to store,
  events 3 threads 2 locks 0 variables 1 races 1
  3|a|w(x)|3 with 2|m|w(x)|2

Exit status:
  0  No race was found
  1  A race was found
  2  The command line is wrong
  3  A call of the script is refused
  4  The script could not be read, or standard output could not be written
  5  Out of memory
  6  The script is broken, or one of its threads is stuck or could not start";
