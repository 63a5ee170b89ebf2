//! Scripts that are searched.
use explore::Scene;
use scripts::{RunFault, Script, TurnOrder, read_scene};
use std::alloc::Global;

/// An actor resolves `e/..` below `/c`, and another removes `e`.
pub const REMOVED: &str = r#"{"version":1,"tree":[["dir","/c"],["dir","/c/e"]],"actors":[
{"root":"/c","calls":[{"op":"resolve","path":"e/.."}]},
{"root":"/c","calls":[{"op":"step","step":"remove_dir","on":"root","name":"e"}]}]}"#;

/// An actor resolves `a/b/..` below `/c`, and another moves `b` out of it.
pub const MOVED_OUT: &str = r#"{"version":1,
"tree":[["dir","/c"],["dir","/c/a"],["dir","/c/a/b"],["dir","/secret"]],"actors":[
{"root":"/c","calls":[{"op":"resolve","path":"a/b/.."}]},
{"root":"/","calls":[{"op":"resolve","path":"c/a","as":"A"},{"op":"resolve","path":"secret","as":"S"},
{"op":"step","step":"rename","on":"A","name":"b","to":"S","new":"b"}]}]}"#;

/// An actor makes a directory in `/c/a` below `/c`, and another moves `a` out of it, before that or after it.
pub const CARRIED_OUT: &str =
    r#"{"version":1,"tree":[["dir","/c"],["dir","/c/a"],["dir","/secret"]],"actors":[
{"root":"/c","calls":[{"op":"resolve","path":"a","as":"A"},
{"op":"step","step":"make_dir","on":"A","name":"n"}]},
{"root":"/","calls":[{"op":"rename","from":"c/a","to":"secret/a","mode":"plain"}]}]}"#;

/// Two actors resolve `a`, each with a root of its own.
pub const TWO_RESOLVE: &str = r#"{"version":1,"tree":[["dir","/c"],["dir","/c/a"]],"actors":[
{"root":"/c","calls":[{"op":"resolve","path":"a"}]},
{"root":"/c","calls":[{"op":"resolve","path":"a"}]}]}"#;

/// Two actors make and open a directory; then one makes another in it, and the other closes it.
pub const TWO_MAKE: &str = r#"{"version":1,"tree":[["dir","/c"]],"actors":[
{"root":"/c","calls":[{"op":"step","step":"make_dir","on":"root","name":"n"},
{"op":"resolve","path":"n","as":"N"},{"op":"step","step":"make_dir","on":"N","name":"m"}]},
{"root":"/c","calls":[{"op":"step","step":"make_dir","on":"root","name":"n"},
{"op":"resolve","path":"n","as":"N"},{"op":"release","on":"N"}]}]}"#;

/// Three actors make a directory each, two of them one of the same name.
pub const THREE_MAKE: &str = r#"{"version":1,"tree":[["dir","/c"]],"actors":[
{"root":"/c","calls":[{"op":"step","step":"make_dir","on":"root","name":"n"}]},
{"root":"/c","calls":[{"op":"step","step":"make_dir","on":"root","name":"n"}]},
{"root":"/c","calls":[{"op":"step","step":"make_dir","on":"root","name":"m"}]}]}"#;

pub fn script_of(alloc: Global, text: &str) -> Result<Script, RunFault> {
    Ok(Script::of(alloc, Vec::from_slice(alloc, text.as_bytes())?))
}

pub fn scene_of(alloc: Global, script: &str) -> Result<Scene, RunFault> {
    let script = script_of(alloc, script)?;
    let (scenario, tree) = read_scene(alloc, &script, &TurnOrder::OfScript)?;
    Ok(Scene {
        tree,
        plans: scenario.plans,
        lines: scenario.lines,
    })
}
