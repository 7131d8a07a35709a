//! The names of what is looked at, and what answers whether it holds.

use crate::{boxed, hosts, lanes, meeting, moments, ring, rows, stepping};
use std::alloc::Global;
use std::sync::Wait;
use std::thread::Threads;

/// Whether what this name says of runs on threads holds, if it is one of these.
pub fn holds_of_run<R: Threads + Wait + Sync>(rt: &R, alloc: Global, name: &str) -> Option<bool> {
    Some(match name {
        "jobs_of_two_kinds_run_side_by_side_in_boxes" => {
            boxed::jobs_of_two_kinds_run_side_by_side_in_boxes(rt, alloc)?
        }
        "numbers_come_out_once" => lanes::numbers_come_out_once(rt, alloc),
        "nodes_of_a_busy_key_are_tried_again" => {
            meeting::nodes_of_a_busy_key_are_tried_again(rt, alloc)
        }
        "bodies_run_side_by_side_where_they_may" => {
            meeting::bodies_run_side_by_side_where_they_may(rt, alloc)
        }
        "a_host_that_ended_is_asked_for_no_other_class" => {
            hosts::a_host_that_ended_is_asked_for_no_other_class(rt, alloc)
        }
        "the_rest_fails_where_all_hosts_ended" => {
            hosts::the_rest_fails_where_all_hosts_ended(rt, alloc)
        }
        "a_long_test_is_watched" => moments::a_long_test_is_watched(rt, alloc),
        "room_is_made_by_reading" => ring::room_is_made_by_reading(rt, alloc),
        "runs_go_alike_whatever_the_number_of_workers" => {
            rows::runs_go_alike_whatever_the_number_of_workers(rt, alloc)
        }
        "runs_go_alike_in_a_ring_of_one_word" => {
            rows::runs_go_alike_in_a_ring_of_one_word(rt, alloc)
        }
        "events_are_told_one_by_one_once_they_are_shown" => {
            stepping::events_are_told_one_by_one_once_they_are_shown(rt, alloc)
        }
        _ => return None,
    })
}
