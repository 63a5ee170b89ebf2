//! How deep the lists and objects of a JSON text stand in one another.
ghost use Rattle.std.specs.Prelude.{◌≡◌, ◌≤◌};
ghost use Rattle.scripts.specs.Limits.{MOST_LEVELS};
ghost use Rattle.scripts.specs.Nesting.{behind, is_too_deep};

/// The most lists and objects that stand in one another. To read each takes a part of the stack.
pub const LEVELS_MAX: usize = 64;

// Where a text is read: how many lists and objects are open there, whether it is in a string, and behind a backslash.
#[derive(Clone, Copy)]
struct Place {
    levels: usize,
    in_string: bool,
    is_escaped: bool,
}

// Behind the next byte.
fn behind(place: Place, byte: u8) -> Place
    requires { place.levels ≤ MOST_LEVELS }
    ensures { result ≡ behind place byte }
{
    let levels = place.levels;
    if place.is_escaped {
        return Place {
            levels,
            in_string: true,
            is_escaped: false,
        };
    }
    if place.in_string {
        return Place {
            levels,
            in_string: byte != b'"',
            is_escaped: byte == b'\\',
        };
    }
    let levels = match byte {
        b'[' | b'{' => levels + 1,
        b']' | b'}' => levels.saturating_sub(1),
        _ => levels,
    };
    Place {
        levels,
        in_string: byte == b'"',
        is_escaped: false,
    }
}

/// Whether more than `LEVELS_MAX` lists and objects of a JSON text stand in one another.
pub fn is_too_deep(text: &[u8]) -> bool
    ensures { result ≡ is_too_deep text.now }
{
    let mut place = Place {
        levels: 0,
        in_string: false,
        is_escaped: false,
    };
    for byte in text {
        place = behind(place, *byte);
        if place.levels > LEVELS_MAX {
            return true;
        }
    }
    false
}
