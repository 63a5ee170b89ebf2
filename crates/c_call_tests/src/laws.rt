//! The laws of walks by the kernel are called as a caller has them at hand. They do nothing.

#[test]
fn laws_of_walks_by_the_kernel() {
    kernel_walks::fails_at_once_tell();
    kernel_walks::kernel_walks_tell();
    kernel_walks::resolves_seen_below();
    kernel_walks::entries_are_changed_behind_walks();
    kernel_calls::entries_are_changed_where_they_stand();
    kernel_calls::entries_are_renamed_where_they_stand();
    kernel_calls::objects_are_linked_where_entries_stand();
    kernel_calls::paths_are_looked_up_as_a_whole();
}
