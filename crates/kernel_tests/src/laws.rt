//! The laws are called as a caller has them at hand. They do nothing.

#[test]
fn laws_are_at_hand() {
    open_or_make::calls_hold();
    open_or_make::one_call_is_all();
    open_or_make::links_are_followed_in_turn();
    make_through_links::calls_hold();
    make_through_links::links_are_followed_in_turn();
    open_partial::tries_hold();
    remove_by_calls::removals_hold();
    remove_by_calls::what_is_busy_is_no_bound();
    call_course::calls_hold();
    call_course::what_is_taken_is_the_calls_own();
    list_directory::a_part_is_bounded();
    list_directory::all_levels_are_bounded();
    list_directory::listings_hold();
    list_directory::names_are_those_of_the_records();
    system_calls::contradictions_are_refused();
    system_calls::kinds_are_asked_for();
    system_calls::pauses_add_up();
    system_calls::what_is_found_is_only_opened();
    system_calls::what_is_found_is_used_so();
    system_calls::what_is_made_is_new();
    find_proc::a_proc_is_found();
    find_proc::the_kept_one_is_looked_at();
    find_proc::a_proc_is_handed_in();
    find_proc::a_proc_is_made();
    find_place::calls_hold();
    find_place::questions_are_few();
    find_place::places_are_witnessed();
    find_place::places_stood();
    find_place::places_were_passed();
    find_place::agreeing_witnesses_are_told();
    find_place::names_lie_in_the_text();
    find_place::questions_come_to_an_end();
    find_place::names_are_told_by_the_kernels_check();
    find_place::names_are_looked_up_first();
    find_place::only_the_root_is_at_itself();
    give_entry::calls_are_few();
    give_entry::each_descriptor_is_closed_once_or_given();
    give_entry::what_fits_is_given();
    give_entry::what_is_given_was_seen_to_be_the_one();
    give_entry::why_it_fails();
}

#[test]
fn laws_of_all_dialogues() {
    dialogue::driving_is_talking::<u8, u8, u8>();
    dialogue::checkpoints_are_kept::<u8, u8, u8, u8>();
    dialogue::signals_may_be_left_out::<u8, u8, u8>();
}

#[test]
fn laws_of_single_steps() {
    linux_steps::opens_stood();
    linux_steps::parents_stood();
    linux_steps::there_stood();
    linux_steps::links_were_read();
    linux_steps::dups_stood();
    linux_steps::closes_stood();
    linux_steps::changes_stood();
    linux_steps::steps_keep_rules();
}
