//! What a conversation comes to: laws, each the contract of a function without a body.
ghost use Rattle.std.specs.Prelude.{◌≡◌, ◌≢◌, ◌<◌, ℕ, true};
ghost use Rattle.system_calls.specs.Errors.{EAGAIN};
ghost use Rattle.find_place.specs.Again.{next_question};
ghost use Rattle.find_place.specs.Held.{NamesAreLookedUpFirst, NamesAreToldByTheKernelsCheck, OnlyTheRootIsAtItself};
ghost use Rattle.find_place.specs.Moments.{PlacesStood, PlacesWerePassed};
ghost use Rattle.find_place.specs.Promises.{CallsHold};
ghost use Rattle.find_place.specs.Witness.{AgreeingWitnessesAreTold, NamesLieInTheText, PlacesAreWitnessed, QuestionsComeToAnEnd};

/// Whatever a kernel answers: where a place is told, the witnesses that the documentation names were asked in their
/// order, and agree on this place.
pub fn places_are_witnessed()
    ensures { PlacesAreWitnessed }
{}

/// Where the witnesses agree on a place, and no text fills its room, their answers are a conversation that tells just
/// that place.
pub fn agreeing_witnesses_are_told()
    ensures { AgreeingWitnessesAreTold }
{}

/// No more than four questions are asked about one place, and four may be.
pub fn questions_come_to_an_end()
    ensures { QuestionsComeToAnEnd }
{}

/// The names of a look-up and of a place are just so many bytes at the end of the object's text, or its first slash.
pub fn names_lie_in_the_text()
    ensures { NamesLieInTheText }
{}

/// What answers of Linux say of the file system, each at its moment, is a premise (proc(5), rmdir(2)). With it: where a
/// place is told, the object stood there at the moment of an answer. Of all but the root itself texts must tell inside
/// from outside, and the root must not be moved between the readings of its text and of the object's. The root itself
/// is what device and inode have shown to be it. What the kernel had seen below the root right before may also have
/// been removed by then, but not before the first question.
pub fn places_stood()
    ensures { PlacesStood }
{}

/// Wherever the root is moved, and whichever names texts have: at the moment of an answer the kernel has passed the
/// place's names from the root, by openat2(2) with RESOLVE_BENEATH, and saw the object below it, which wasn't removed
/// by then. So it is of all but what the kernel had seen there right before. Of the root itself it isn't said that it
/// wasn't removed.
pub fn places_were_passed()
    ensures { PlacesWerePassed }
{}

/// Where no question is asked, and the object isn't the root, the names that the walk passed are told by the kernel's
/// check alone, which the call has asked for: openat2(2) has seen the object below the root, as the call opened it or
/// by a look-up of these names. So it is never behind `..`. Where that check is enough, nothing more is asked behind
/// it.
pub fn names_are_told_by_the_kernels_check()
    ensures { NamesAreToldByTheKernelsCheck }
{}

/// The names that the walk passed are looked up before the questions only of what was opened by a name: where that
/// look-up is all, or of what is no directory.
pub fn names_are_looked_up_first()
    ensures { NamesAreLookedUpFirst }
{}

/// The root itself, by a second descriptor, stands at a slash alone, without a question; and nothing else does.
pub fn only_the_root_is_at_itself()
    ensures { OnlyTheRootIsAtItself }
{}

/// Of each whole conversation about a program's descriptor, whatever the answers are: where a place is told, it was
/// found out by a whole conversation about the place. The copy of the descriptor is asked about and closed while it is
/// open, and open nowhere in the end: so it is closed once. It fails by the last error that it met. That is a
/// question's own, but for EAGAIN of the place: then it is ENOENT of what was removed, or has no name left, and EAGAIN
/// of anything else. If no error was met, the place is told. There are eight questions at most.
pub fn calls_hold()
    ensures { CallsHold }
{}

/// A place is asked for again only after EAGAIN, and eight times at most. EAGAIN is never the answer.
pub fn questions_are_few()
    ensures again { (asked error length size : ℕ) → (next_question asked error length size).again ≡ true
        → (error ≡ EAGAIN) × (asked < 8) }
    ensures told { (asked error length size : ℕ) → (next_question asked error length size).error ≢ EAGAIN }
    ensures fits { (asked length size : ℕ) → (next_question asked 0 length size).error ≡ 0 → length < size }
{}
