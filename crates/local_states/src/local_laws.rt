//! A turn reads and changes the nodes and its own actor's part alone: laws, the contracts of functions without a body.
ghost use Rattle.local_states.specs.Local.{TurnsAreLocal, OthersPartsStay, PartsAreThemselves, SamePartsTurnRound, SamePartsJoin, SamePartsAreBusyAlike, GivenNumbersStay, SameWorldsTakeSameTurns, SameWorldsAreBusyAlike, SameWorldsTellTheSame};
ghost use Rattle.local_states.specs.Same.{SameWorldsActOutsideAlike};

/// A turn is local. Where an actor has the same part in two worlds with the same nodes, its turn comes to the same in
/// both, with the same luck: the same nodes, the same part, and as many more events, handles, and changes outside of a
/// root. It has something left to do in both or in neither. The others' seats stay, and so does what their parts are
/// the same as. Where all numbers of handles in the seats were given, they still are after a turn. A part is the same
/// as itself; of two that are the same either is the same as the other; and two that are the same as a third are the
/// same.
pub fn turns_are_local()
    ensures turns { TurnsAreLocal }
    ensures busy { SamePartsAreBusyAlike }
    ensures others { OthersPartsStay }
    ensures given { GivenNumbersStay }
    ensures itself { PartsAreThemselves }
    ensures round { SamePartsTurnRound }
    ensures join { SamePartsJoin }
{}

/// Worlds in which every actor has the same part, on the same nodes and with as much room, take the same turns, with
/// the same luck. The same actors have something left to do in them, and they tell the same. Where each actor has made
/// as many changes outside of the same root, it has after such a turn, too.
pub fn same_parts_go_alike()
    ensures turns { SameWorldsTakeSameTurns }
    ensures busy { SameWorldsAreBusyAlike }
    ensures tell { SameWorldsTellTheSame }
    ensures outside { SameWorldsActOutsideAlike }
{}
