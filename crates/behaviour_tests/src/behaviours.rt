//! The names of what is looked at, and what answers whether it holds.

use crate::{program, suite_listeners};
use pool_tests::holds_of_run;
use std::alloc::Global;
use std::sync::Wait;
use std::thread::Threads;
use value_tests::holds_of_value;

/// What is said of readers that fail, and of the program's run of a suite.
fn holds_of_suites<R: Threads + Wait + Sync>(rt: &R, alloc: Global, name: &str) -> Option<bool> {
    Some(match name {
        "a_reader_that_fails_ends_the_reading" => {
            program::a_reader_that_fails_ends_the_reading(alloc)
        }
        "a_reader_that_fails_later_gives_its_front" => {
            program::a_reader_that_fails_later_gives_its_front(alloc)
        }
        "a_suite_whose_first_or_second_read_fails_is_refused" => {
            program::a_suite_whose_first_or_second_read_fails_is_refused(rt, alloc)
        }
        "an_output_that_is_cut_at_any_byte_is_refused_there" => {
            program::an_output_that_is_cut_at_any_byte_is_refused_there(rt, alloc)
        }
        "an_output_of_which_a_rest_is_not_taken_is_refused_there" => {
            program::an_output_of_which_a_rest_is_not_taken_is_refused_there(rt, alloc)
        }
        "an_output_that_is_taken_as_a_whole_is_no_refusal" => {
            program::an_output_that_is_taken_as_a_whole_is_no_refusal(rt, alloc)
        }
        "a_feed_that_is_taken_as_a_whole_is_no_refusal" => {
            program::a_feed_that_is_taken_as_a_whole_is_no_refusal(rt, alloc)
        }
        "a_listener_is_told_of_the_run_of_a_suite" => {
            suite_listeners::a_listener_is_told_of_the_run_of_a_suite(rt, alloc)?
        }
        _ => return None,
    })
}

/// Whether what this name says holds, if it is one of these.
pub(crate) fn holds<R: Threads + Wait + Sync>(rt: &R, alloc: Global, name: &str) -> Option<bool> {
    holds_of_value(alloc, name)
        .or_else(|| holds_of_suites(rt, alloc, name))
        .or_else(|| holds_of_run(rt, alloc, name))
}
