//! Want of memory, which no row can bring about: its number, its place and its text.

use descriptor::TreeFault;
use sched_core::CoreFault;
use selectors::{SelectFault, SelectorFault};
use std::alloc::{AllocError, Global};
use step_text::StepsFault;
use suite_text::SuiteFault;
use tag_expr::TagFault;
use unique_id::UidFault;

/// Adds what each type of fault says of want of memory.
fn push_said(list: &mut String) -> Result<(), AllocError> {
    write!(list, "{}, {}", UidFault::NoMemory, TagFault::NoMemory)?;
    write!(list, ", {}", TreeFault::NoMemory)?;
    write!(list, ", {}", SelectorFault::NoMemory)?;
    write!(list, ", {}, {}", SelectFault::NoMemory, CoreFault::NoMemory)?;
    write!(list, ", {}, {}", SuiteFault::NoMemory, StepsFault::NoMemory)
}

/// Whether this is what the types of faults say of want of memory.
fn is_said(alloc: Global, all: &str) -> bool {
    let mut list = String::new(alloc);
    push_said(&mut list).is_ok() && list.as_str() == all
}

/// Whether want of memory has number 0 in each type of fault that has numbers.
fn are_numbered() -> bool {
    UidFault::NoMemory.number() == 0
        && TagFault::NoMemory.number() == 0
        && TreeFault::NoMemory.number() == 0
        && SelectorFault::NoMemory.number() == 0
        && SelectFault::NoMemory.number() == 0
        && SuiteFault::NoMemory.number() == 0
}

/// Whether it has no place in each type of fault that has places.
fn are_nowhere() -> bool {
    UidFault::NoMemory.place().is_none()
        && TagFault::NoMemory.place().is_none()
        && SelectFault::NoMemory.place().is_none()
        && SuiteFault::NoMemory.place().is_none()
}

pub(crate) fn want_of_memory_has_its_text_number_0_and_no_place(alloc: Global) -> bool {
    let all =
        "no memory, no memory, no memory, no memory, no memory, no memory, no memory, no memory";
    is_said(alloc, all) && are_numbered() && are_nowhere()
}
