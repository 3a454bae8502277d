//! Laws of logs, by topic. Each is the contract of a function that does nothing.

mod examples;
mod proving;

pub use examples::{
    a_log_of_plain_bob_minimus, items_that_have_too_few, items_that_have_too_many,
    lines_by_example, open_and_long_meet_at_the_cap, rows_that_come_again, rows_that_come_round,
    steps_that_turn_back,
};
pub use proving::{
    a_text_begins_with_one_line, all_logs_prove_one_list, an_audit_has_one_answer,
    what_a_log_proves_is_the_book,
};
