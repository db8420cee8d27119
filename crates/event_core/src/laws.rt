//! The laws of the definitions: why clocks that never look back can decide a relation over the whole log.
//!
//! Each law is the contract of a function that does nothing, so the check proves it over the definitions
//! alone. The statements stand in `specs`, under the names that the contracts cite.

mod counts;
mod logs;
mod order;
mod runs;
mod strict;

pub use counts::{
    Set, count_is_unique, equal_sets_have_equal_counts, hb_of_new_event, join_is_union,
    longer_log_keeps_counts, new_event_adds_one, strict_of_new_event,
};
pub use logs::{
    ended_threads_rest, grows_by_legal_events, holders_may_release, inside_by_releases,
    joined_holders_have_ended, open_acquires_are_depths, own_events_are_counted,
    own_steps_are_own_events, sections_are_numbered, slots_are_kept,
};
pub use order::{
    below_near, ends_below, hb_goes_forward, hb_is_order, po_goes_forward, po_is_order,
    releases_are_ordered, sections_are_ordered,
};
pub use runs::{
    act_outcome_is_unique, act_run_is_unique, act_runs_keep_logs_well_formed, outcome_is_unique,
    run_is_unique, runs_keep_logs_well_formed, swap_is_refused_as_its_load, swap_meets_full_log,
    swap_needs_two_slots, swaps_are_legal, swaps_keep_logs_well_formed, verdict_is_unique,
    verdicts_stay,
};
pub use strict::{
    Pairs, earlier_sections_too, first_are_below, premise_of_b, recurrence_is_least,
    relations_stay, strict_goes_forward, strict_is_closed, strict_is_least,
    strict_is_least_of_tests,
};
