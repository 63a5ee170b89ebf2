//! One path, resolved over the tree of a script.
ghost use Rattle.std.specs.Prelude.{◌≡◌, ◌≢◌, [], Ok, Err, IfOk, IfErr, true};
ghost use Rattle.path_text.specs.declared.errno.Errno.TheVariants as errno;
ghost use Rattle.serde_json.specs.View.{view};
ghost use Rattle.step_resolver.specs.Meaning.{resolved};
ghost use Rattle.step_resolver.specs.Driver.{node_of, IsReady, Resolves};
ghost use Rattle.event_log.specs.Output.{opened_line, fault_line};
ghost use Rattle.scripts.specs.declared.fault.RunFault.TheVariants as run_fault;
ghost use Rattle.scripts.specs.Fault.{IsFaultOf};
ghost use Rattle.run_command.specs.Run.{IsRun, WritesNothingIfRefused, line_of, line_for, written_for};

use event_log::Output;
use handles::{Owner, Standing};
use path_text::{Errno, Flags, Path};
use scripts::{ACTOR, RunFault, Script, open_script};
use serde_json::Value;
use std::alloc::Global;
use std::io::Write;
use step_resolver::{Goal, Resolved, Root, resolve};
use tree_model::{Actor, HandleNo, Tree, name_below_is_standing};

/// What a path text means below the root that is open. Errors: the text's faults, then those of `resolve`.
fn look_up<T: Tree>(
    alloc: Global,
    tree: &mut T,
    root: HandleNo,
    text: &[u8],
    flags: Flags,
) -> Result<Resolved, Errno>
    requires { IsReady (T.state tree.old) ACTOR root (node_of (T.state tree.old) ACTOR root) }
    ensures { Resolves (T.state tree.old).nodes (node_of (T.state tree.old) ACTOR root)
        (resolved (T.state tree.old).nodes (node_of (T.state tree.old) ACTOR root) text.now true flags) result }
{
    let path = Path::parse(alloc, text)?;
    let owner = Owner {
        tag: 0,
        actor: Actor::new(ACTOR),
    };
    let root = Root {
        owner,
        handle: root,
    };
    resolve(alloc, tree, root, path, Goal::Follow, flags)
}

/// The line of an object that was opened.
#[tactic(auto, using(crate::proofs::Lines::opened_is_some))]
fn opened_line(alloc: Global, standing: &Standing) -> Result<Output, RunFault>
    ensures ok { IfOk result (λ line. line ≡ opened_line standing.now.kind standing.now.node standing.now.names) }
    ensures some { IfOk result (λ line. line ≢ []) }
    ensures err { IfErr result (λ fault. fault ≡ run_fault.NoMemory) }
{
    let mut line = Output::new(alloc);
    line.opened(alloc, standing.kind(), standing.node(), standing.names())?;
    Ok(line)
}

/// The line of a path that was refused, but for want of memory.
#[tactic(auto, using(crate::proofs::Lines::fault_is_some))]
fn fault_line(alloc: Global, error: Errno) -> Result<Output, RunFault>
    ensures ok { IfOk result (λ line. (error ≢ errno.NoMemory) × (line ≡ fault_line error)) }
    ensures some { IfOk result (λ line. line ≢ []) }
    ensures err { IfErr result (λ fault. fault ≡ run_fault.NoMemory) }
{
    if error == Errno::NoMemory {
        return Err(RunFault::NoMemory);
    }
    let mut line = Output::new(alloc);
    line.fault(error)?;
    Ok(line)
}

/// The line of what a path text means below the root that is open. `NoMemory`.
pub fn line_of<T: Tree>(
    alloc: Global,
    tree: &mut T,
    root: HandleNo,
    text: &[u8],
    flags: Flags,
) -> Result<Output, RunFault>
    requires { IsReady (T.state tree.old) ACTOR root (node_of (T.state tree.old) ACTOR root) }
    ensures ok { IfOk result (λ line. line
        ≡ line_of (T.state tree.old).nodes (node_of (T.state tree.old) ACTOR root)
        (resolved (T.state tree.old).nodes (node_of (T.state tree.old) ACTOR root) text.now true flags)) }
    ensures some { IfOk result (λ line. line ≢ []) }
    ensures err { IfErr result (λ fault. fault ≡ run_fault.NoMemory) }
{
    // The names of a `Standing` were judged by NameBelow; the line's are those at which the object stands.
    name_below_is_standing();
    match look_up(alloc, tree, root, text, flags) {
        Ok(Resolved::Found(standing)) => opened_line(alloc, &standing),
        // only a walk to the deepest directory ends in a part of its path
        Ok(Resolved::Partial(_standing, _rest)) => unreachable!(),
        Err(error) => fault_line(alloc, error),
    }
}

/// The line for a script's value and a path text. Errors: the first check of the script that fails;
/// `NoMemory`.
#[tactic(auto, using(crate::proofs::Lines::opened_by, crate::proofs::Lines::line_by))]
fn line_for(alloc: Global, script: &Value, text: &[u8], flags: Flags) -> Result<Output, RunFault>
    ensures ok { IfOk result (λ line. line_for (view script.now) text.now flags ≡ Ok line) }
    ensures some { IfOk result (λ line. line ≢ []) }
    ensures err { IfErr result (IsFaultOf (line_for (view script.now) text.now flags)) }
{
    let mut opened = open_script(alloc, script)?;
    line_of(alloc, &mut opened.tree, opened.root, text, flags)
}

/// Resolves the path text below a script's first actor's root, and writes one line: what was opened, or the error that
/// the path text was refused with.
///
/// The path is resolved in the root (openat2(2), RESOLVE_IN_ROOT), with these restrictions; a link at its last
/// part is followed. Errors, in this order: `Script` with the first check that fails; `NoMemory`, where a growth was
/// refused; `WriteFailed`, where there is a line to write. Nothing is written before the line is whole.
#[tactic(auto, using(crate::proofs::Lines::nothing_yet, crate::proofs::Lines::nothing_if_refused))]
pub fn walk<W: Write>(
    alloc: Global,
    script: &Script,
    writer: &mut W,
    text: &[u8],
    flags: Flags,
) -> Result<(), RunFault>
    ensures run { IsRun (written_for script.now text.now flags) (W.contents writer.old)
        (W.contents writer.new) result }
    ensures refused { WritesNothingIfRefused (written_for script.now text.now flags)
        (W.contents writer.old) (W.contents writer.new) }
{
    let line = line_for(alloc, script.value()?, text, flags)?;
    match writer.write_all(line.as_slice()) {
        Ok(()) => Ok(()),
        Err(_) => Err(RunFault::WriteFailed),
    }
}
