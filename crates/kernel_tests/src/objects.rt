//! Which object an answer is about, of which kind it is, and what an error says; when a call is begun again.
use std::test::Fail;
use system_calls::errors::EAGAIN;
use system_calls::{Object, is_elsewhere, is_node, is_same_object, kind_of, next_try};

fn object(device: u64, inode: u64, mount: u64) -> Object {
    Object {
        device,
        inode,
        mount,
    }
}

#[test]
fn tells_objects_apart(rt: HostRuntime) -> Result<(), Fail> {
    let one = object(1, 2, 3);
    assert!(rt; is_same_object(&one, &object(1, 2, 3), false));
    assert!(rt; !is_same_object(&one, &object(1, 2, 4), false));
    assert!(rt; is_same_object(&one, &object(1, 2, 4), true));
    assert!(rt; !is_same_object(&one, &object(2, 2, 3), true));
    assert!(rt; !is_same_object(&one, &object(1, 3, 3), true));
    // A kernel that tells no mount tells it of neither.
    assert!(rt; is_same_object(&object(1, 2, 0), &object(1, 2, 0), false));
    assert!(rt; !is_same_object(&object(1, 2, 0), &one, false));
    Ok(())
}

#[test]
fn reads_the_kind_of_a_mode(rt: HostRuntime) -> Result<(), Fail> {
    assert!(rt; kind_of(0o040755) == 1);
    assert!(rt; kind_of(0o100644) == 2);
    assert!(rt; kind_of(0o120777) == 3);
    assert!(rt; kind_of(0o060000) == 2);
    assert!(rt; kind_of(0o140000) == 2);
    assert!(rt; kind_of(0) == 2);
    Ok(())
}

#[test]
fn makes_nodes_of_five_kinds(rt: HostRuntime) -> Result<(), Fail> {
    assert!(rt; is_node(0o100644, 0));
    assert!(rt; is_node(0o010600, 0));
    assert!(rt; is_node(0o147777, 0));
    assert!(rt; !is_node(0o100644, 1));
    assert!(rt; is_node(0o020600, 0));
    assert!(rt; is_node(0o020600, 259));
    assert!(rt; is_node(0o060600, 2051));
    assert!(rt; !is_node(0o040755, 0));
    assert!(rt; !is_node(0o120777, 0));
    assert!(rt; !is_node(0o644, 0));
    assert!(rt; !is_node(0o300644, 0));
    Ok(())
}

#[test]
fn reads_the_error_of_a_look_up(rt: HostRuntime) -> Result<(), Fail> {
    for error in [2, 11, 13, 18, 20, 40] {
        assert!(rt; is_elsewhere(error));
    }
    for error in [0, 1, 4, 12, 22, 23, 36, 38, 258] {
        assert!(rt; !is_elsewhere(error));
    }
    Ok(())
}

// How many tries were made, and the pause before another one, if there is one.
const PAUSES: [(u32, Option<u32>); 10] = [
    (0, Some(0)),
    (1, Some(0)),
    (7, Some(0)),
    (8, Some(10_000)),
    (9, Some(20_000)),
    (14, Some(640_000)),
    (15, Some(1_000_000)),
    (31, Some(1_000_000)),
    (32, None),
    (u32::MAX, None),
];

#[test]
fn waits_longer_each_time(rt: HostRuntime) -> Result<(), Fail> {
    for (tries, pause) in PAUSES {
        let next = next_try(tries, true, EAGAIN, false);
        assert!(rt;
            next.due == pause.is_some() && (!next.due || Some(next.pause) == pause),
            "{tries}"
        );
    }
    Ok(())
}

#[test]
fn begins_again_where_others_were_in_the_way(rt: HostRuntime) -> Result<(), Fail> {
    for (may_retry, error, lost, due) in [
        (true, EAGAIN, false, true),
        (false, EAGAIN, false, false),
        (true, EAGAIN, true, false),
        (true, 0, false, false),
        (true, 10, false, false),
        (true, 12, false, false),
        (true, EAGAIN + 256, false, false),
    ] {
        assert!(rt;
            next_try(1, may_retry, error, lost).due == due,
            "{may_retry} {error} {lost}"
        );
    }
    Ok(())
}
