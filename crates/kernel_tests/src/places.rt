//! Where an object stands, by texts as proc(5) has them, and by others.
use std::test::Fail;
use system_calls::{ends_as_gone, is_named, place_told};

/// The root's path, the object's, and the place, or no bytes where none is told.
const PLACES: [(&str, &str, &str); 16] = [
    ("/srv/root", "/srv/root/a/b", "/a/b"),
    ("/srv/root", "/srv/root", "/"),
    ("/srv/root", "/srv/root2", ""),
    ("/srv/root", "/srv/root2/a", ""),
    ("/srv/root", "/srv/roo", ""),
    ("/srv/root", "/srv", ""),
    ("/srv/root", "/srv/rooT/a", ""),
    ("/srv/root", "/a/srv/root/b", ""),
    ("/srv/root", "(unreachable)/srv/root/a", ""),
    ("/", "/a/b", "/a/b"),
    ("/", "/", "/"),
    ("/", "(unreachable)/a", ""),
    ("/", "socket:[7]", ""),
    ("/", "", ""),
    ("", "/a", ""),
    ("pipe:[7]", "pipe:[7]/a", ""),
];

fn place_of<'a>(root: &str, path: &'a str) -> &'a [u8] {
    place_told(root.as_bytes(), path.as_bytes()).unwrap_or(b"")
}

#[test]
fn finds_places(rt: HostRuntime) -> Result<(), Fail> {
    for (root, path, place) in &PLACES {
        assert!(rt; place_of(root, path) == place.as_bytes(), "{root} {path}");
    }
    Ok(())
}

#[test]
fn a_path_has_at_most_4095_bytes(rt: HostRuntime) -> Result<(), Fail> {
    let mut path = [b'a'; 4096];
    path[0] = b'/';
    assert!(rt; place_told(b"/", &path[..4095]).unwrap_or(b"").len() == 4095);
    assert!(rt; place_told(b"/", &path).is_none());
    Ok(())
}

// Whether the place ends as of what was removed.
fn is_gone(root: &str, path: &str) -> bool {
    ends_as_gone(place_of(root, path))
}

#[test]
fn what_was_removed_is_called_so(rt: HostRuntime) -> Result<(), Fail> {
    assert!(rt; is_gone("/srv", "/srv/a/x (deleted)"));
    assert!(rt; !is_gone("/srv", "/srv/a/x(deleted)"));
    assert!(rt; !is_gone("/srv", "/srv/a/x (deleted)/y"));
    assert!(rt; !is_gone("/srv (deleted)", "/srv (deleted)"));
    Ok(())
}

fn names(again: &str, place: &str) -> bool {
    is_named(again.as_bytes(), place.as_bytes())
}

#[test]
fn a_name_may_end_as_what_was_removed(rt: HostRuntime) -> Result<(), Fail> {
    assert!(rt; names("/srv/a/x", "/a/x"));
    assert!(rt; names("/srv/b/y", "/a/x"));
    assert!(rt; !names("/srv/a/x (deleted)", "/a/x"));
    assert!(rt; names("/srv/a/x (deleted)", "/a/x (deleted)"));
    assert!(rt; !names("/srv/a/x (deleted) (deleted)", "/a/x (deleted)"));
    assert!(rt; !names("/srv/a/yx (deleted)", "/a/x (deleted)"));
    Ok(())
}
