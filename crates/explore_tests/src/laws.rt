//! Laws of searches and of what they write. They are called as a caller has them at hand, and do nothing.
use explore::chosen_lists_stand_for_all;
use explore_command::{outcomes_without_cuts_are_of_whole_calls, written_schedules_lead_there};
use explore_parts::{explore_limits_are_numbers, lines_say_their_parts, values_say_one_part};
use outcome_text::{
    count_limit_is_a_number, pieces_tell_the_whole, replies_have_heads, same_reports_are_told_alike,
};

#[test]
fn laws_are_at_hand() {
    chosen_lists_stand_for_all();
    replies_have_heads();
    count_limit_is_a_number();
    pieces_tell_the_whole();
    same_reports_are_told_alike();
    explore_limits_are_numbers();
    lines_say_their_parts();
    values_say_one_part();
    written_schedules_lead_there();
    outcomes_without_cuts_are_of_whole_calls();
}
