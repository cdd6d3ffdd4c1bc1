//! Reads entries as ops. Each op is read from the bytes of its entry alone.

ghost use Rattle.std.specs.Prelude.{◌≡◌, ◌≤◌, false, length, IfOk, IfErr};
ghost use Rattle.std.specs.List.{All};
ghost use Rattle.llb_ops.specs.OpsWithinLimits.{IsWithinLimits};
ghost use Rattle.llb_loader.specs.Faults.{is_memory, row_fault};
ghost use Rattle.llb_loader.specs.RowsWithoutBytes.{AreRead, RefusesEntry};

use crate::fault::LoadFault;
use llb_ops::{Bytes, Op, OpFault, read_op};
use std::alloc::Global;
use std::mem;

// Reads each entry as an op, and drops the entry. Fails with 82 `Entry` at the first entry that can't be read as an op, or with 91 `Memory`.
pub(crate) fn ops_of(alloc: Global, mut entries: Vec<Bytes>) -> Result<Vec<Op>, LoadFault>
    requires { length entries.items ≤ 65_536 }
    ensures read { IfOk result (λ ops. AreRead entries.items ops.items) }
    ensures within { IfOk result (λ ops. All IsWithinLimits ops.items) }
    ensures refused { IfErr result (λ e. is_memory e ≡ false → RefusesEntry entries.items e) }
{
    let mut ops = Vec::with_capacity(alloc, entries.len())?;
    for k in 0..entries.len() {
        let bytes = mem::replace(&mut entries[k], Bytes::new(Vec::new(alloc)));
        match read_op(alloc, bytes.as_slice()) {
            Ok(op) => ops.push(op)?,
            Err(fault) => return Err(at_row(k as u32, fault)),
        }
    }
    Ok(ops)
}

// Returns the loader's fault for row `k`, whose bytes can't be read as an op because of this fault.
fn at_row(k: u32, fault: OpFault) -> LoadFault
    ensures { result ≡ row_fault k fault }
{
    match fault {
        OpFault::Memory => LoadFault::Memory,
        fault => LoadFault::Entry(k, fault),
    }
}
