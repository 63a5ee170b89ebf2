//! Laws over what the calls of a plan make of it.
ghost use Rattle.std.specs.Prelude.{◌≡◌, ◌≤◌, ◌<◌, ◌+◌, ◌*◌, ℕ, List, None, IsSome};
ghost use Rattle.path_text.specs.declared.flags.Flags.{Flags};
ghost use Rattle.path_text.specs.declared.path.TheConstants.{PARTS_MAX};
ghost use Rattle.path_text.specs.Reading.{Reading, IsReading};
ghost use Rattle.walk_plan.specs.declared.goal.Goal.{Goal};
ghost use Rattle.walk_plan.specs.declared.plan.TheConstants.{LINKS_MAX};
ghost use Rattle.walk_plan.specs.Plan.{PlanState, IsPlan, most_parts_left, next_part, begun, stayed, went_up, went_down, through, through_fault};

/// Whatever takes the next part off leaves fewer parts to be passed at most, and a plan begins with at most
/// 41 times 2,048 of them. So a walk that passes a part at each turn ends.
pub fn fewer_parts_are_left()
    ensures begun { (path : Reading) (goal : Goal) (flags : Flags) → IsReading path
        → most_parts_left (begun path goal flags) ≤ (LINKS_MAX + 1) * PARTS_MAX }
    ensures stayed { (p : PlanState) → IsSome (next_part p)
        → most_parts_left (stayed p) < most_parts_left p }
    ensures went_up { (p : PlanState) → IsSome (next_part p)
        → most_parts_left (went_up p) < most_parts_left p }
    ensures went_down { (p : PlanState) (name : List ℕ) → IsSome (next_part p)
        → most_parts_left (went_down p name) < most_parts_left p }
    ensures through { (p : PlanState) (text : List ℕ) → IsSome (next_part p) → through_fault p text ≡ None
        → most_parts_left (through p text) < most_parts_left p }
{}

/// What every plan keeps holds of a plan that begins, and after each call.
pub fn plans_keep_their_limits()
    ensures begun { (path : Reading) (goal : Goal) (flags : Flags) → IsReading path
        → IsPlan (begun path goal flags) }
    ensures stayed { (p : PlanState) → IsPlan p → IsPlan (stayed p) }
    ensures went_up { (p : PlanState) → IsPlan p → IsPlan (went_up p) }
    ensures went_down { (p : PlanState) (name : List ℕ) → IsPlan p → IsPlan (went_down p name) }
    ensures through { (p : PlanState) (text : List ℕ) → IsPlan p → through_fault p text ≡ None
        → IsPlan (through p text) }
{}

/// A path leads through at most 40 links (path_resolution(7), MAXSYMLINKS of Linux).
pub fn link_limit_is_a_number()
    ensures { LINKS_MAX ≡ 40 }
{}
