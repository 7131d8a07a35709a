//! The names of what is looked at, and what answers whether it holds.

use crate::{
    audiences, copies, cores, faults, printing, progress_lines, slow_names, summaries, texts,
};
use std::alloc::Global;

/// What is said of audiences, copies, refusals and the fixed schedule.
fn holds_of_values(alloc: Global, name: &str) -> Option<bool> {
    Some(match name {
        "takes_16_listeners_and_hands_17_back" => {
            audiences::takes_16_listeners_and_hands_17_back(alloc)?
        }
        "an_empty_audience_is_fresh_and_has_room" => {
            audiences::an_empty_audience_is_fresh_and_has_room(alloc)
        }
        "tells_every_listener_each_event" => audiences::tells_every_listener_each_event(alloc)?,
        "tells_the_text_of_an_event" => audiences::tells_the_text_of_an_event(alloc),
        "copies_say_the_same" => copies::copies_say_the_same(alloc),
        "refuses_what_no_worker_can_do" => cores::refuses_what_no_worker_can_do(alloc)?,
        "takes_the_first_reply_or_none" => cores::takes_the_first_reply_or_none(alloc)?,
        "want_of_memory_has_its_text_number_0_and_no_place" => {
            faults::want_of_memory_has_its_text_number_0_and_no_place(alloc)
        }
        _ => return None,
    })
}

/// What is said of summaries and texts.
fn holds_of_results(alloc: Global, name: &str) -> Option<bool> {
    Some(match name {
        "counts_nothing_before_it_is_prepared" => {
            summaries::counts_nothing_before_it_is_prepared(alloc)
        }
        "counts_a_node_that_is_both_twice_and_a_double_event_once" => {
            summaries::counts_a_node_that_is_both_twice_and_a_double_event_once(alloc)?
        }
        "counts_a_spare_where_it_was_registered_or_skipped_itself" => {
            summaries::counts_a_spare_where_it_was_registered_or_skipped_itself(alloc)?
        }
        "counts_what_it_was_told_on_the_plan_last_prepared" => {
            summaries::counts_what_it_was_told_on_the_plan_last_prepared(alloc)?
        }
        "the_last_note_of_a_node_is_its_text" => texts::the_last_note_of_a_node_is_its_text(alloc)?,
        "a_factory_tells_of_too_many_dynamic_tests" => {
            texts::a_factory_tells_of_too_many_dynamic_tests(alloc)?
        }
        _ => return None,
    })
}

/// What is said of feeds, trees and lines that are printed.
fn holds_of_lines(alloc: Global, name: &str) -> Option<bool> {
    Some(match name {
        "a_writer_that_fails_ends_the_printing" => {
            printing::a_writer_that_fails_ends_the_printing(alloc)
        }
        "a_writer_that_takes_all_is_no_fault" => {
            printing::a_writer_that_takes_all_is_no_fault(alloc)
        }
        "a_feed_has_spaces_for_control_bytes_of_texts_alone" => {
            printing::a_feed_has_spaces_for_control_bytes_of_texts_alone(alloc)
        }
        "a_tree_has_spaces_for_control_bytes_and_other_characters_stay" => {
            printing::a_tree_has_spaces_for_control_bytes_and_other_characters_stay(alloc)
        }
        "a_line_stands_a_tenth_of_a_second_before_it_is_drawn_anew" => {
            progress_lines::a_line_stands_a_tenth_of_a_second_before_it_is_drawn_anew(alloc)
        }
        "a_terminal_that_fails_is_left_alone" => {
            progress_lines::a_terminal_that_fails_is_left_alone(alloc)
        }
        "a_test_is_named_once_while_it_runs_over_its_limit" => {
            slow_names::a_test_is_named_once_while_it_runs_over_its_limit(alloc)
        }
        _ => return None,
    })
}

/// Whether what this name says of a value holds, if it is one of these.
pub fn holds_of_value(alloc: Global, name: &str) -> Option<bool> {
    holds_of_values(alloc, name)
        .or_else(|| holds_of_results(alloc, name))
        .or_else(|| holds_of_lines(alloc, name))
}
