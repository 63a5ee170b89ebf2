//! Small systems, whose schedules can be counted by hand, and what a search finds of them.
use example_systems::{Counter, Lock, Meal, Philosophers, PlainSystem, Whole};
use layered_search::{
    Class, Findings, Limits, Scope, SearchFault, Silent, TransitionSystem,
    chosen_lists_stand_for_all, counts_conclude, search, words_are_lists,
};
use path_text::NoMemory;
use std::alloc::Global;

/// The most states, the most turns, the most cuts, and the turns that all lists begin with.
type Asked = (u64, u32, Option<u64>, &'static [u32]);

/// An outcome: how many lists lead to it; the least one, its cuts and its changes of actor.
type Wanted<O> = (O, u64, &'static [u32], u64, u64);

/// The numbers of lists, of states and of the longest list's turns, and the outcomes; or why nothing is found.
type Found<O> = Result<(u64, u64, usize, &'static [Wanted<O>]), SearchFault>;

const ALL: Asked = (1_000, 20, None, &[]);

fn limits_of(alloc: Global, asked: Asked) -> Result<Limits, NoMemory> {
    let (states, turns, cuts, begin) = asked;
    let mut first = Vec::new(alloc);
    first.extend_from_slice(begin)?;
    Ok(Limits {
        states,
        turns,
        scope: Scope { cuts, begin: first },
    })
}

fn is_class<S: TransitionSystem>(
    system: &S,
    class: &Class<S::Outcome>,
    wanted: &Wanted<S::Outcome>,
) -> bool {
    let (outcome, lists, least, cuts, changes) = wanted;
    system.is_same_outcome(&class.outcome, outcome)
        && class.lists == *lists
        && class.least.as_slice() == *least
        && class.cuts == *cuts
        && class.changes == *changes
}

/// Whether one of the classes is that one.
fn has_class<S: TransitionSystem>(
    system: &S,
    classes: &[Class<S::Outcome>],
    wanted: &Wanted<S::Outcome>,
) -> bool {
    for class in classes {
        if is_class(system, class, wanted) {
            return true;
        }
    }
    false
}

/// Whether these are the findings, the classes in any order.
fn are_findings<S: TransitionSystem>(
    system: &S,
    found: &Findings<S::Outcome>,
    wanted: (u64, u64, usize, &'static [Wanted<S::Outcome>]),
) -> bool {
    let (lists, states, turns, classes) = wanted;
    for class in classes {
        if !has_class(system, found.classes.as_slice(), class) {
            return false;
        }
    }
    found.lists == lists
        && found.states == states
        && found.turns == turns
        && found.classes.len() == classes.len()
}

/// Whether that is what a search finds.
fn finds<P: PlainSystem + Drop>(
    alloc: Global,
    plain: P,
    asked: Asked,
    wanted: Found<P::Outcome>,
) -> Result<bool, NoMemory> {
    let limits = limits_of(alloc, asked)?;
    let system = Whole(plain);
    let found = search(alloc, &system, &limits, &mut Silent);
    Ok(match (&found, wanted) {
        (Ok(found), Ok(wanted)) => are_findings(&system, found, wanted),
        (Err(fault), Err(wanted)) => *fault == wanted,
        _ => false,
    })
}

/// How many actors, what is asked for, and what is found.
///
/// Two actors with two turns each have 4! / (2! 2!) = 6 lists. In two of these one comes after the other, and the end
/// is 2; in the others both read 0. There are 1 + 2 + 1 states while nobody has written; where one has, the other has
/// not read, or has 0 or 1: 2 times 3; and 2 ends.
///
/// Three have 6! / (2! 2! 2!) = 90 lists. In six they come one after another, and the end is 3. The end is 1 where
/// the last to write has read before the first write: by 6 orders of the writes, 2 of the two reads before the first
/// one, and 4 places for the other's read, 48. The other 36 end at 2. There are 8 states while nobody has written;
/// where one has, each other has not read, or has 0 or 1: 3 times 9; where two have, the number is 2, and the third
/// has not read, or has 0, 1 or 2; or it is 1, and the third has not read, or has 0 or 1: 3 times 7; and 3 ends.
#[rattlefmt::skip]
const COUNTERS: [(u8, Asked, Found<u8>); 18] = [
    (0, ALL, Ok((1, 1, 0, &[(0, 1, &[], 0, 0)]))),
    (1, ALL, Ok((1, 3, 2, &[(1, 1, &[0, 0], 0, 0)]))),
    (2, (12, 4, None, &[]), Ok((6, 12, 4, &[(2, 2, &[0, 0, 1, 1], 0, 1), (1, 4, &[0, 1, 1, 0], 1, 2)]))),
    (2, (11, 4, None, &[]), Err(SearchFault::TooManyStates)),
    (2, (0, 4, None, &[]), Err(SearchFault::TooManyStates)),
    (2, (12, 3, None, &[]), Err(SearchFault::TooManyTurns)),
    // with no cut none is lost
    (2, (8, 4, Some(0), &[]), Ok((2, 8, 4, &[(2, 2, &[0, 0, 1, 1], 0, 1)]))),
    // 0, 1, 1, 0 and 1, 0, 0, 1 have one cut, and the other two lists two
    (2, (12, 4, Some(1), &[]), Ok((4, 12, 4, &[(2, 2, &[0, 0, 1, 1], 0, 1), (1, 2, &[0, 1, 1, 0], 1, 2)]))),
    (2, (9, 4, None, &[0]), Ok((3, 9, 4, &[(2, 1, &[0, 0, 1, 1], 0, 1), (1, 2, &[0, 1, 1, 0], 1, 2)]))),
    (2, (6, 4, None, &[0, 1]), Ok((2, 6, 4, &[(1, 2, &[0, 1, 1, 0], 1, 2)]))),
    (2, (12, 4, None, &[0, 0, 0]), Err(SearchFault::NotBusy(2))),
    (2, (12, 4, None, &[2]), Err(SearchFault::NotBusy(0))),
    (2, (12, 4, Some(0), &[0, 1]), Err(SearchFault::TooManyCuts(1))),
    (2, (12, 0, None, &[0, 1]), Err(SearchFault::TooManyTurns)),
    (3, ALL,
        Ok((90, 59, 6, &[(3, 6, &[0, 0, 1, 1, 2, 2], 0, 2), (2, 36, &[0, 0, 1, 2, 2, 1], 1, 3),
            (1, 48, &[0, 1, 1, 2, 2, 0], 1, 3)]))),
    // the lists of three that lead to 3 are those with no cut
    (3, (1_000, 20, Some(0), &[]), Ok((6, 20, 6, &[(3, 6, &[0, 0, 1, 1, 2, 2], 0, 2)]))),
    // actors from the fourth on have nothing to do
    (64, (1_000, 20, Some(0), &[]), Ok((6, 20, 6, &[(3, 6, &[0, 0, 1, 1, 2, 2], 0, 2)]))),
    (65, ALL, Err(SearchFault::TooManyActors)),
];

#[test]
fn additions_are_lost(rt: HostRuntime) {
    for (at, (actors, asked, wanted)) in COUNTERS.iter().enumerate() {
        let counter = Counter { actors: *actors };
        assert!(rt;
            finds(rt.alloc(), counter, *asked, *wanted) == Ok(true),
            "row {at}"
        );
    }
}

/// How many actors, what is asked for, and what is found.
///
/// Who takes the lock comes to its end before another begins, so each order of the actors is one list: 2 of two, 6 of
/// three. Nobody is cut off, since nobody else can have a turn. In a state some are at their end, and one of the
/// others may have had one turn or two: of two, 1 + 4, twice 1 + 2, and 1 states; of three, 1 + 6, three times 1 + 4,
/// three times 1 + 2, and 1.
#[rattlefmt::skip]
const LOCKS: [(u8, Asked, Found<u8>); 5] = [
    (2, ALL, Ok((2, 12, 6, &[(2, 2, &[0, 0, 0, 1, 1, 1], 0, 1)]))),
    (3, ALL, Ok((6, 32, 9, &[(3, 6, &[0, 0, 0, 1, 1, 1, 2, 2, 2], 0, 2)]))),
    (3, (32, 9, Some(0), &[]), Ok((6, 32, 9, &[(3, 6, &[0, 0, 0, 1, 1, 1, 2, 2, 2], 0, 2)]))),
    (2, (1_000, 20, None, &[0, 0, 0, 1]), Ok((1, 7, 6, &[(2, 1, &[0, 0, 0, 1, 1, 1], 0, 1)]))),
    // the lock is taken
    (2, (1_000, 20, None, &[0, 0, 1]), Err(SearchFault::NotBusy(2))),
];

#[test]
fn none_is_lost_under_a_lock(rt: HostRuntime) {
    for (at, (actors, asked, wanted)) in LOCKS.iter().enumerate() {
        let lock = Lock { actors: *actors };
        assert!(rt;
            finds(rt.alloc(), lock, *asked, *wanted) == Ok(true),
            "row {at}"
        );
    }
}

/// How many philosophers, and whether the last one takes the right fork first; what is asked for, and what is found.
///
/// Two: who has both forks comes to its end before the other begins; where each has one, neither can go on. So there
/// are 4 lists. In the other order both want one fork first, and it is as with a lock.
///
/// Three, all with the left fork first: by the first turn there are 3 times as many lists as begin with 0. With 0's
/// next turn come 8, and with a first one of 1 or of 2, 3 and a deadlock each. The least deadlock is that of 0, 2 and
/// 1: 2 can't go on when it has its left fork, so that 1 cuts nobody off. In a state each has no fork, before or
/// after, or the left one: 27; or one has both: 3 times 2 of the neighbour on the right, times 3 of the other.
///
/// Three, the last one with the right fork first: 9 lists begin with 0, 9 with 1, and 12 with 2. In 28 states 2 has
/// no fork, in 8 it has the right one, and in 6 both.
#[rattlefmt::skip]
const TABLES: [((u8, bool), Asked, Found<Meal>); 8] = [
    ((2, false), (13, 6, None, &[]),
        Ok((4, 13, 6, &[(Meal::Eaten, 2, &[0, 0, 0, 1, 1, 1], 0, 1), (Meal::Deadlock, 2, &[0, 1], 1, 1)]))),
    ((2, false), (12, 6, Some(0), &[]), Ok((2, 12, 6, &[(Meal::Eaten, 2, &[0, 0, 0, 1, 1, 1], 0, 1)]))),
    ((2, false), (3, 2, None, &[0, 1]), Ok((1, 3, 2, &[(Meal::Deadlock, 1, &[0, 1], 1, 1)]))),
    ((2, false), (13, 6, None, &[0, 1, 0]), Err(SearchFault::NotBusy(2))),
    ((2, true), (12, 6, None, &[]), Ok((2, 12, 6, &[(Meal::Eaten, 2, &[0, 0, 0, 1, 1, 1], 0, 1)]))),
    ((2, true), (12, 6, None, &[0, 1]), Err(SearchFault::NotBusy(1))),
    ((3, false), (45, 9, None, &[]),
        Ok((48, 45, 9, &[(Meal::Eaten, 42, &[0, 0, 0, 1, 1, 1, 2, 2, 2], 0, 2),
            (Meal::Deadlock, 6, &[0, 2, 1], 1, 2)]))),
    ((3, true), (42, 9, None, &[]), Ok((30, 42, 9, &[(Meal::Eaten, 30, &[0, 0, 0, 1, 1, 1, 2, 2, 2], 0, 2)]))),
];

#[test]
fn philosophers_starve_in_one_order(rt: HostRuntime) {
    for (at, ((actors, is_mixed), asked, wanted)) in TABLES.iter().enumerate() {
        let (actors, is_mixed) = (*actors, *is_mixed);
        let table = Philosophers { actors, is_mixed };
        assert!(rt;
            finds(rt.alloc(), table, *asked, *wanted) == Ok(true),
            "row {at}"
        );
    }
}

// The laws are called as a caller has them at hand. They do nothing.
#[test]
fn laws_of_searches_are_at_hand() {
    let system = Whole(Counter { actors: 1 });
    chosen_lists_stand_for_all(&system);
    words_are_lists(&system);
    counts_conclude(&system);
}
