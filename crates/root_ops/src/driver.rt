//! An operation carried out on a tree on which nobody else acts meanwhile: the turns of a call, with no box.
ghost use Rattle.std.specs.Prelude.{◌≡◌, ◌<◌, [], None, IfSome};
ghost use Rattle.step_resolver.specs.Order.{due as walk_due, more as walks_on, steps_left as walk_left};
ghost use Rattle.step_resolver.specs.TurnView.{TakesTo as WalkTakesTo};
ghost use Rattle.tree_model.specs.declared.answer.Answer.{Answer};
ghost use Rattle.tree_model.specs.declared.step.StepOf.TheVariants.{Close};
ghost use Rattle.root_ops.specs.Order.{Reply as Told, more, ends, walking, acting, gives, closes, releases, steps_left};
ghost use Rattle.root_ops.specs.declared.aim.Wanted.TheVariants.{Any};
ghost use Rattle.root_ops.specs.TurnView.{below_of};
ghost use Rattle.root_ops.specs.View.{doing_view, list_of, next_view, reply_view, IsNext, IsOurs, IsOurWalk, IsOwned};
ghost use Rattle.step_machine.specs.OnTree.{IsAnswer};
ghost use Rattle.root_ops.specs.Driver.{Drives, Runs, steps_in};

use crate::aim::{Aim, Wanted};
use crate::answers::reply_to;
use crate::begin::same_owner;
use crate::below::Below;
use crate::doing::{Doing, Handles, Next};
use crate::first::{First, first_of};
use crate::op::Request;
use crate::reply::Reply;
use handles::Standing;
use std::alloc::Global;
use step_machine::answer_to;
use step_resolver::{Root, Turn, Walk};
use tree_model::{Actor, Answer, HandleNo, Step, StepOf, Tree, legal_histories_join};

// Closes a handle. A Close is made without memory.
fn close<T: Tree>(alloc: Global, tree: &mut T, actor: Actor, handle: HandleNo)
    ensures { (told : Answer) × IsAnswer (Close handle) actor (T.state tree.old) (T.state tree.new) told }
{
    let _ = answer_to(alloc, tree, actor, &StepOf::Close(handle));
}

// Makes the step that is due in a walk, and lets the walk take its answer in place, or gives it back.
fn pass_due<T: Tree>(alloc: Global, tree: &mut T, actor: Actor, walk: &mut Walk) -> Option<Answer>
    ensures passed { result ≡ None → (answer : Answer)
        × IsAnswer (walk_due walk.old.way walk.old.walking) actor (T.state tree.old) (T.state tree.new) answer
        × WalkTakesTo walk.old.way walk.old.walking answer (walks_on walk.new.walking) }
    ensures fewer { result ≡ None → walk_left walk.new.walking < walk_left walk.old.walking }
    ensures kept { (walk.new.owner ≡ walk.old.owner) × (walk.new.way ≡ walk.old.way) }
    ensures left { IfSome result (λ answer. (walk.new ≡ walk.old)
        × IsAnswer (walk_due walk.old.way walk.old.walking) actor (T.state tree.old) (T.state tree.new) answer) }
{
    let answer = answer_to(alloc, tree, actor, &walk.due());
    if walk.pass(&answer) {
        return None;
    }
    Some(answer)
}

// Goes along a walk to its end, and tells what comes after it.
fn walk_on<T: Tree>(alloc: Global, tree: &mut T, below: &Below, walk: Walk, aim: Aim) -> Next
    requires { IsOurWalk below.now walk aim }
    ensures driven { Drives below.now below.now.root.owner.actor (T.state tree.old) (more (walking walk.walking aim))
        (T.state tree.new) (next_view result) }
    ensures kept { IsNext below.now result }
    ensures fewer { steps_in below.now (next_view result) < steps_left below.now (walking walk.walking aim) }
{
    // that the steps make one history
    legal_histories_join();
    let actor = below.owner().actor;
    let mut walk = walk;
    loop {
        match pass_due(alloc, tree, actor, &mut walk) {
            None => {}
            Some(answer) => match walk.take(answer) {
                Turn::More(next) => walk = next,
                ended => return below.walked(alloc, aim, ended),
            },
        }
    }
}

// Closes what is held.
fn close_all<T: Tree>(alloc: Global, tree: &mut T, below: &Below, held: Handles)
    ensures { (reply : Told) → Drives below.now below.now.root.owner.actor (T.state tree.old)
        (closes (list_of held) (gives reply)) (T.state tree.new) (ends reply) }
{
    // that the steps make one history
    legal_histories_join();
    let actor = below.owner().actor;
    match held {
        Handles::Empty => {}
        Handles::One(first) => close(alloc, tree, actor, first),
        Handles::Two(first, second) => {
            close(alloc, tree, actor, first);
            close(alloc, tree, actor, second);
        }
        Handles::Three(first, second, third) => {
            close(alloc, tree, actor, first);
            close(alloc, tree, actor, second);
            close(alloc, tree, actor, third);
        }
    }
}

// Makes the call's own step, and closes what is held.
fn finish<T: Tree>(
    alloc: Global,
    tree: &mut T,
    below: &Below,
    wanted: Wanted,
    step: Step,
    held: Handles,
) -> Reply
    ensures driven { Drives below.now below.now.root.owner.actor (T.state tree.old)
        (more (acting wanted step (list_of held))) (T.state tree.new) (ends (reply_view result)) }
    ensures owned { IsOwned below.now.root.owner result }
{
    // that the steps make one history
    legal_histories_join();
    let answer = answer_to(alloc, tree, below.owner().actor, &step.lend());
    close_all(alloc, tree, below, held);
    reply_to(wanted, answer)
}

// Makes a step that is no walk's, and tells what comes after it.
fn act<T: Tree>(alloc: Global, tree: &mut T, below: &Below, doing: Doing) -> Next
    requires { IsOurs below.now doing }
    ensures driven { Drives below.now below.now.root.owner.actor (T.state tree.old) (more (doing_view doing))
        (T.state tree.new) (next_view result) }
    ensures kept { IsNext below.now result }
    ensures fewer { steps_in below.now (next_view result) < steps_left below.now (doing_view doing) }
{
    let answer = answer_to(alloc, tree, below.owner().actor, &doing.due());
    below.taken(alloc, doing, answer)
}

// Goes on up to the reply.
fn go_on<T: Tree>(alloc: Global, tree: &mut T, below: &Below, next: Next) -> Reply
    requires { IsNext below.now next }
    ensures driven { Drives below.now below.now.root.owner.actor (T.state tree.old) (next_view next)
        (T.state tree.new) (ends (reply_view result)) }
    ensures owned { IsOwned below.now.root.owner result }
{
    // that the steps make one history
    legal_histories_join();
    let mut next = next;
    loop {
        match next {
            Next::Walks(walk, aim) => next = walk_on(alloc, tree, below, walk, aim),
            Next::Due(Doing::Acting { wanted, step, held }) => {
                return finish(alloc, tree, below, wanted, step, held);
            }
            Next::Due(doing) => next = act(alloc, tree, below, doing),
            Next::Over(reply) => return reply,
        }
    }
}

// One step alone.
fn single<T: Tree>(alloc: Global, tree: &mut T, below: Below, step: Step) -> Reply
    ensures driven { Drives below below.root.owner.actor (T.state tree.old) (more (acting Any step []))
        (T.state tree.new) (ends (reply_view result)) }
    ensures owned { IsOwned below.root.owner result }
{
    let answer = answer_to(alloc, tree, below.owner().actor, &step.lend());
    reply_to(Wanted::Any, answer)
}

// The Close of what was opened, where it is the root's owner's.
fn release<T: Tree>(alloc: Global, tree: &mut T, below: Below, standing: Standing) -> Reply
    ensures driven { Drives below below.root.owner.actor (T.state tree.old) (releases below.root.owner standing)
        (T.state tree.new) (ends (reply_view result)) }
    ensures owned { IsOwned below.root.owner result }
{
    if !same_owner(standing.owner(), below.owner()) {
        return Reply::Kept(standing);
    }
    let step = StepOf::Close(standing.handle());
    let answer = answer_to(alloc, tree, below.owner().actor, &step);
    reply_to(Wanted::Done, answer)
}

/// Carries an operation out on a tree on which nobody else acts: the whole call, step by step, as the root's owner. A
/// step for which the tree has no memory isn't made, and is taken as refused for that. The call itself takes less
/// memory than one that goes turn by turn: no box.
///
/// Faults: those of `Call::start` and `Call::take`.
pub fn run_call<T: Tree>(alloc: Global, tree: &mut T, request: Request, root: Root) -> Reply
    ensures ran { Runs (below_of root request.flags) request.op (T.state tree.old) (T.state tree.new)
        (reply_view result) }
    ensures owned { IsOwned root.owner result }
{
    let Request { op, flags } = request;
    let below = Below { root, flags };
    match first_of(alloc, op) {
        Ok(First::Walks(aim, path)) => {
            let next = below.walks(alloc, aim, path);
            go_on(alloc, tree, &below, next)
        }
        Ok(First::Makes(path)) => {
            let next = below.makes(alloc, path);
            go_on(alloc, tree, &below, next)
        }
        Ok(First::Clears(path, name)) => {
            let next = below.clears(alloc, path, name);
            go_on(alloc, tree, &below, next)
        }
        Ok(First::Acts(step)) => single(alloc, tree, below, step),
        Ok(First::Releases(standing)) => release(alloc, tree, below, standing),
        Err(error) => Reply::Fault(error),
    }
}
