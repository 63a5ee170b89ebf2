//! Requests.
ghost use Rattle.std.specs.Prelude.{◌≡◌, ◌++◌, ◌↔◌, IsTrue, IfOk};
ghost use Rattle.root_ops.specs.Renamed.{op_by, op_handles, request_by};

use crate::like::answers::like_standings;
use crate::like::steps::{like_steps, push_step_handles};
use crate::op::{Op, Request};
use path_text::NoMemory;
use tree_model::HandleNo;

// Whether the operations are the same but for their handles.
fn like_ops(op: &Op, other: &Op) -> bool
    ensures { IsTrue result ↔ (op_by (λ h. 0) op.now ≡ op_by (λ h. 0) other.now) }
{
    match (op, other) {
        (Op::Resolve(path), Op::Resolve(p)) => path.same(p),
        (Op::ResolveNoFollow(path), Op::ResolveNoFollow(p)) => path.same(p),
        (Op::ReadLink(path), Op::ReadLink(p)) => path.same(p),
        (Op::CreateFile(path), Op::CreateFile(p)) => path.same(p),
        (Op::CreateDir(path), Op::CreateDir(p)) => path.same(p),
        (Op::CreateLink(path, text), Op::CreateLink(p, t)) => path.same(p) && text.same(t),
        (Op::RemoveFile(path), Op::RemoveFile(p)) => path.same(p),
        (Op::RemoveDir(path), Op::RemoveDir(p)) => path.same(p),
        (Op::Rename(old, new, mode), Op::Rename(o, n, m)) => {
            old.same(o) && new.same(n) && mode == m
        }
        (Op::MkdirAll(path), Op::MkdirAll(p)) => path.same(p),
        (Op::RemoveAll(path), Op::RemoveAll(p)) => path.same(p),
        (Op::Single(step), Op::Single(s)) => like_steps(step, s),
        (Op::Release(standing), Op::Release(s)) => like_standings(standing, s),
        _ => false,
    }
}

impl Request {
    /// Whether the other is the same request but for the numbers of handles.
    pub fn is_like(&self, other: &Request) -> bool
        ensures { IsTrue result ↔ (request_by (λ h. 0) self.now ≡ request_by (λ h. 0) other.now) }
    {
        self.flags == other.flags && like_ops(&self.op, &other.op)
    }

    /// Appends its handles: those of a single step, or the one to be released. NoMemory where their room was refused.
    pub fn push_handles(&self, into: &mut Vec<HandleNo>) -> Result<(), NoMemory>
        ensures { IfOk result (λ u. into.new.items ≡ into.old.items ++ op_handles self.now.op) }
    {
        match &self.op {
            Op::Single(step) => push_step_handles(step, into)?,
            Op::Release(standing) => into.push(standing.handle())?,
            _ => {}
        }
        Ok(())
    }
}
