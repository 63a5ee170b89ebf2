//! A script that is opened: its version is read, its tree is built, and the first actor's root is open.
ghost use Rattle.std.specs.Prelude.{◌≡◌, Ok, IfOk, IfErr};
ghost use Rattle.serde_json.specs.View.{view};
ghost use Rattle.scripts.specs.Actors.{IsAtHand};
ghost use Rattle.scripts.specs.Fault.{IsFaultOf};
ghost use Rattle.scripts.specs.Script.{rooted_tree_of};
ghost use Rattle.scripts.specs.Version.{version_of};

use crate::actors::{ACTOR, first_actor_of, open_root, root_of};
use crate::calls::{Version, version_in};
use crate::fault::{Cause, RunFault, ScriptFault};
use crate::fields::list_in;
use crate::tree::tree_of;
use serde_json::Value;
use std::alloc::Global;
use tree_model::HandleNo;
use tree_slab::SlabTree;

/// A script that was opened: its tree, and the first actor's root by an open handle.
#[derive(Debug, Drop)]
pub struct OpenedScript {
    pub tree: SlabTree,
    pub root: HandleNo,
}

/// The version of a script, which each command looks at first. Errors, in this order: `NotObject`, `Version`.
pub fn version_of(script: &Value) -> Result<Version, RunFault>
    ensures ok { IfOk result (λ version. version_of (view script.now) ≡ Ok version) }
    ensures err { IfErr result (IsFaultOf (version_of (view script.now))) }
{
    if script.as_object().is_none() {
        return Err(RunFault::Script(ScriptFault::NotObject));
    }
    let Some(version) = version_in(script) else {
        return Err(RunFault::Script(ScriptFault::Version));
    };
    Ok(version)
}

/// Opens a script of either version: builds its tree, and opens the first actor's root. Errors: the first check that
/// fails, `NotObject`, `Version`, `Tree`, `TooManyEntries`, `TreeEntry`, `Actors` or `Actor` of the first; `NoMemory`.
pub fn open_script(alloc: Global, script: &Value) -> Result<OpenedScript, RunFault>
    ensures ok { IfOk result (λ opened. IsAtHand (rooted_tree_of (view script.now)) opened.tree ACTOR opened.root) }
    ensures err { IfErr result (IsFaultOf (rooted_tree_of (view script.now))) }
{
    let _version = version_of(script)?;
    let Some(entries) = list_in(script, "tree") else {
        return Err(RunFault::Script(ScriptFault::Tree));
    };
    let mut tree = tree_of(alloc, entries)?;
    let Some(actor) = first_actor_of(script) else {
        return Err(RunFault::Script(ScriptFault::Actors));
    };
    let Some(names) = root_of(alloc, actor)? else {
        return Err(RunFault::Script(ScriptFault::Actor(0, Cause::Shape)));
    };
    let root = open_root(alloc, &mut tree, &names)?;
    Ok(OpenedScript { tree, root })
}
