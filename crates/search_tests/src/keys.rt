//! Keys of worlds: their numbers, which of them are the same, and the key after a turn.
ghost use Rattle.std.specs.Prelude.{◌≡◌, IfOk, length};
ghost use Rattle.local_states.specs.Keys.{AreFew};

use local_states::{ACTORS_IN_PLACE, Effect, Fingerprint, Key, Own};
use path_text::NoMemory;
use smallvec::SmallVec;
use std::alloc::Global;

/// Numbers, one after another, and what they are mixed to, by a computation apart from the code: a number p with w more
/// is (p + w + 1) times 0x9E3779B97F4A7C15 without what is beyond 64 bits, with its own upper 35 bits mixed in.
const PRINTS: [(&[u64], u64); 6] = [
    (&[], 0),
    (&[0], 11_400_714_836_765_684_190),
    (&[1], 4_354_685_565_462_078_397),
    (&[1, 2], 3_447_790_167_261_198_805),
    (&[2, 1], 4_926_441_083_857_145_892),
    (&[18_446_744_073_709_551_615], 0),
];

fn print_of(words: &[u64]) -> u64 {
    let mut print = Fingerprint::new();
    for word in words {
        print = print.with(*word);
    }
    print.0
}

#[test]
fn numbers_are_mixed(rt: HostRuntime) {
    for (words, wanted) in PRINTS {
        assert_eq!(rt; print_of(words), wanted, "{words:?}");
    }
}

/// A key: the place of its nodes, and how many events, opened handles and closed ones; of each actor the place of its
/// part, and how many changes outside of its root.
type Drawn = ([u64; 4], &'static [(usize, u64)]);

const KEY: Drawn = ([7, 3, 2, 1], &[(4, 0), (5, 8)]);

const LONG: Drawn = ([0, 0, 0, 0], &[(1, 0), (2, 0), (3, 0), (4, 0), (5, 0)]);

/// Two keys; whether they are the same, and whether they are but for changes outside of roots.
#[rattlefmt::skip]
const PAIRS: [(Drawn, Drawn, bool, bool); 11] = [
    (KEY, KEY, true, true),
    (KEY, ([6, 3, 2, 1], &[(4, 0), (5, 8)]), false, false),
    (KEY, ([7, 2, 2, 1], &[(4, 0), (5, 8)]), false, false),
    (KEY, ([7, 3, 1, 1], &[(4, 0), (5, 8)]), false, false),
    (KEY, ([7, 3, 2, 0], &[(4, 0), (5, 8)]), false, false),
    (KEY, ([7, 3, 2, 1], &[(4, 0), (6, 8)]), false, false),
    (KEY, ([7, 3, 2, 1], &[(5, 0), (4, 8)]), false, false),
    (KEY, ([7, 3, 2, 1], &[(4, 0)]), false, false),
    (KEY, ([7, 3, 2, 1], &[(4, 1), (5, 8)]), false, true),
    // more actors than lie in a key's own value
    (LONG, LONG, true, true),
    (LONG, ([0, 0, 0, 0], &[(1, 0), (2, 0), (3, 0), (4, 0), (5, 1)]), false, true),
];

fn own_of(
    alloc: Global,
    actors: &[(usize, u64)],
) -> Result<SmallVec<Own, ACTORS_IN_PLACE>, NoMemory> {
    let mut own = SmallVec::new(alloc);
    for (part, outside) in actors {
        own.push(Own {
            part: *part,
            outside: *outside,
        })?;
    }
    Ok(own)
}

fn key_of(alloc: Global, drawn: &Drawn) -> Result<Key, NoMemory> {
    let (numbers, actors) = drawn;
    Ok(Key {
        nodes: numbers[0] as usize,
        events: numbers[1],
        opened: numbers[2],
        closed: numbers[3],
        own: own_of(alloc, actors)?,
    })
}

/// Whether the two are so, and a copy of each is as the key itself. Keys that are the same but for changes outside of
/// roots have one fingerprint; the others of this table have two.
fn are_so(key: &Key, other: &Key, same: bool, but_outside: bool) -> bool {
    key.same(other) == same
        && other.same(key) == same
        && key.same_but_outside(other) == but_outside
        && other.same_but_outside(key) == but_outside
        && (key.print() == other.print()) == but_outside
}

fn compares(alloc: Global, pair: &(Drawn, Drawn, bool, bool)) -> Result<bool, NoMemory> {
    let (drawn, other, same, but_outside) = pair;
    let (key, other) = (key_of(alloc, drawn)?, key_of(alloc, other)?);
    let copy = key.copy(alloc)?;
    Ok(are_so(&key, &other, *same, *but_outside) && are_so(&copy, &key, true, true))
}

#[test]
fn keys_are_compared(rt: HostRuntime) {
    for (at, pair) in PAIRS.iter().enumerate() {
        assert!(rt; compares(rt.alloc(), pair) == Ok(true), "pair {at}");
    }
}

/// The fingerprint of a key is that of its numbers in order, without the changes outside of roots.
fn print_in_order(alloc: Global) -> Result<bool, NoMemory> {
    let key = key_of(alloc, &KEY)?;
    Ok(key.print().0 == 3_116_380_415_761_568_907)
}

#[test]
fn a_key_has_its_fingerprint(rt: HostRuntime) {
    assert!(rt; print_in_order(rt.alloc()) == Ok(true));
}

// A key of two actors, of which the second has made a change outside of its root.
fn before_turns(alloc: Global) -> Result<Key, NoMemory>
    ensures actors { IfOk result (λ key. length key.own.items ≡ 2) }
    ensures few { IfOk result (λ key. AreFew 9 key) }
{
    let both = [
        Own {
            part: 4,
            outside: 0,
        },
        Own {
            part: 5,
            outside: 8,
        },
    ];
    let own = SmallVec::from_slice(alloc, both.as_slice())?;
    Ok(Key {
        nodes: 7,
        events: 3,
        opened: 2,
        closed: 1,
        own,
    })
}

/// What a turn of the second actor comes to, and the key after it.
#[rattlefmt::skip]
const TURNS: [(Effect, Drawn); 3] = [
    (Effect { nodes: 8, part: 6, event: true, opens: true, closes: false, outside: true },
        ([8, 4, 3, 1], &[(4, 0), (6, 9)])),
    (Effect { nodes: 7, part: 0, event: true, opens: false, closes: true, outside: false },
        ([7, 4, 2, 2], &[(4, 0), (0, 8)])),
    (Effect { nodes: 7, part: 5, event: false, opens: false, closes: false, outside: false }, KEY),
];

fn comes_to(alloc: Global, effect: &Effect, wanted: &Drawn) -> Result<bool, NoMemory> {
    let after = before_turns(alloc)?.after(alloc, 1, effect)?;
    Ok(after.same(&key_of(alloc, wanted)?))
}

#[test]
fn a_turn_makes_the_key_after_it(rt: HostRuntime) {
    for (at, (effect, wanted)) in TURNS.iter().enumerate() {
        assert!(rt;
            comes_to(rt.alloc(), effect, wanted) == Ok(true),
            "turn {at}"
        );
    }
}
