//! Laws of the definitions, by topic. Each is the contract of a function that does nothing.

mod books;
mod checkpoints;
mod dead;
mod decided;
mod examples;
mod levels;
mod nodes;
mod problem_parts;
mod ringing;
mod sizes;
mod summaries;
mod touches;

pub use books::{book_is_unique, fresh_problem_covers_its_kept, the_book_exists};
pub use checkpoints::{a_problem_file_is_an_input, checkpoints_by_example};
pub use dead::{
    a_node_is_dead_for_its_first_reason, nodes_die_above_a_limit, nodes_die_at_the_edges,
    nodes_die_below_a_limit, nodes_that_turn_back_die, nothing_is_kept_below_a_dead_node,
    nothing_is_kept_below_a_long_node, nothing_is_kept_below_a_node_far_from_rounds,
    nothing_is_kept_below_a_node_that_comes_round, nothing_is_kept_below_a_node_that_turns_back,
    nothing_is_kept_below_a_node_with_a_row_twice, nothing_is_kept_below_a_node_with_too_few,
    nothing_is_kept_below_a_node_with_too_many, nothing_is_kept_below_a_self_false_node,
};
pub use decided::{
    a_test_decides_what_is_kept, a_test_decides_what_is_true, a_test_decides_what_is_wanted,
};
pub use examples::{
    calls_and_methods_are_counted, cells_fit_rows, changes_of_method_are_counted,
    nodes_end_at_the_cap, parts_begin_a_calling, plain_bob_minimus_has_its_touch,
    the_least_rotation_is_kept, the_query_has_its_edges, true_touches_come_round_once,
};
pub use levels::{
    levels_list_rows, levels_of_doubles, no_fewer_leads_lead_to_rounds, the_depth_is_greatest,
};
pub use nodes::{
    a_split_among_others, a_split_covers_the_same, a_touch_is_its_part_repeated,
    covers_are_counted, one_turn_splits_a_node, prefixes, splits_follow_one_another,
};
pub use problem_parts::parts_have_one_answer;
pub use ringing::{a_lead_rung_from_a_row, joined_callings_multiply, ringing_on};
pub use sizes::{a_child_is_longer, sizes_are_sums, sizes_count_nodes};
pub use summaries::a_summary_counts_by_length;
pub use touches::{
    a_rotation_of_a_true_touch_is_one, a_rotation_of_a_wanted_touch_is_wanted,
    at_most_one_rotation_is_kept, each_wanted_class_has_a_kept_one, rotations_are_an_equivalence,
    what_turns_back_is_not_least,
};
