//! Reading a script to its end, and its JSON text, once.
ghost use Rattle.std.specs.Prelude.{◌≡◌, ◌≤◌, ℕ, List, vec_len, Ok, IfOk, IfErr, IfSome, MatchResult};
ghost use Rattle.serde_json.specs.View.{view, view as data_view};
ghost use Rattle.scripts.specs.Fault.{IsFaultOf};
ghost use Rattle.scripts.specs.Input.{IsReadFault, data_of};
ghost use Rattle.scripts.specs.Limits.{MOST_BYTES};

use crate::fault::{JsonFault, RunFault, ScriptFault};
use crate::nesting::is_too_deep;
use serde_json::Value;
use std::alloc::Global;
use std::io::{ErrorKind, Read};
use std::marker::Model;

/// The most bytes of a script.
pub const SCRIPT_MAX: usize = 1_048_576;

/// The most reads of one script, those that are interrupted counted.
pub const READS_MAX: u32 = 2_097_152;

/// All that a reader has left.
///
/// An interrupted read is tried again (EINTR of read(2)). Errors: `ReadFailed` where a read fails for any
/// other cause, or after `READS_MAX` reads without an end; `Script(TooLong)` past `SCRIPT_MAX` bytes;
/// `NoMemory`.
pub fn read_script<R: Read>(alloc: Global, reader: &mut R) -> Result<Vec<u8>, RunFault>
    ensures whole { IfOk result (λ script. IfSome (R.remaining reader.old) (λ input. script.items ≡ input)) }
    ensures short { IfOk result (λ script. vec_len script ≤ MOST_BYTES) }
    ensures faults { IfErr result (λ fault. IsReadFault (R.remaining reader.old) fault) }
{
    let mut script = Vec::new(alloc);
    let mut block = [0u8; 4096];
    for _ in 0..READS_MAX {
        match reader.read(&mut block) {
            Ok(0) => return Ok(script),
            Ok(count) => script.extend_from_slice(&block[..count])?,
            Err(error) if error.kind() == ErrorKind::Interrupted => {}
            Err(_) => return Err(RunFault::ReadFailed),
        }
        if script.len() > SCRIPT_MAX {
            return Err(RunFault::Script(ScriptFault::TooLong));
        }
    }
    Err(RunFault::ReadFailed)
}

/// The value of a JSON text. Errors, in this order: `Script(TooDeep)`; `Script(NotJson)` where the bytes are none, or
/// no UTF-8; `NoMemory`.
pub fn value_of(alloc: Global, bytes: &[u8]) -> Result<Value, RunFault>
    ensures ok { IfOk result (λ value. data_of bytes.now ≡ Ok (view value)) }
    ensures err { IfErr result (IsFaultOf (data_of bytes.now)) }
{
    if is_too_deep(bytes) {
        return Err(RunFault::Script(ScriptFault::TooDeep));
    }
    match Value::from_slice(alloc, bytes) {
        Ok(value) => Ok(value),
        Err(error) => {
            if error.is_memory() {
                Err(RunFault::NoMemory)
            } else {
                Err(RunFault::Script(ScriptFault::NotJson(JsonFault {
                    is_cut_short: error.is_eof(),
                    line: error.line(),
                    column: error.column(),
                })))
            }
        }
    }
}

/// A script as it is read once: its bytes, and the value of their JSON text, or why they have none. Contracts see the
/// bytes.
#[derive(Drop)]
pub struct Script {
    bytes: Vec<u8>,
    read: Result<Value, RunFault>,
}

impl Model for Script {
    ghost Value = { List ℕ };

    ghost view = { λ s. s.bytes.items };

    ghost invariant = { λ s. MatchResult s.read (λ value. data_of s.bytes.items ≡ Ok (data_view value))
        (IsFaultOf (data_of s.bytes.items)) };
}

impl Script {
    /// The script that these bytes are.
    pub fn of(alloc: Global, bytes: Vec<u8>) -> Script
        ensures { result ≡ bytes.items }
    {
        let read = value_of(alloc, &bytes);
        Script { bytes, read }
    }

    /// Its bytes.
    pub fn bytes(&self) -> &[u8]
        ensures { result.now ≡ self.now }
    {
        self.bytes.as_slice()
    }

    /// The value of its JSON text. Errors as of `value_of`.
    pub fn value(&self) -> Result<&Value, RunFault>
        ensures ok { IfOk result (λ value. data_of self.now ≡ Ok (view value.now)) }
        ensures err { IfErr result (IsFaultOf (data_of self.now)) }
    {
        match &self.read {
            Ok(value) => Ok(value),
            Err(fault) => Err(*fault),
        }
    }
}
