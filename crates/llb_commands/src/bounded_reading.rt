//! Reads an input to its end, within bounds on the bytes and on the reads.

ghost use Rattle.std.specs.Prelude.{◌≢◌, IfErr};
ghost use Rattle.llb_commands.specs.BoundedReading.{ReadsAll};
ghost use Rattle.llb_commands.specs.declared.bounded_reading.ReadFault.TheVariants.{Failed};

use std::alloc::Global;
use std::io::{ErrorKind, Read};

/// The most bytes that an input may have: a definition, the text of a tree, a text of entries, or the commands of a session.
pub(crate) const LIMIT: usize = 67_108_864;

/// The most reads that may be made of an input to which `LIMIT` applies; the read that meets the end counts too.
pub(crate) const READS: u64 = 134_217_728;

const PIECE: usize = 4096;

/// Why an input was not read to its end.
#[derive(Drop)]
pub enum ReadFault {
    /// There were more bytes than the limit.
    TooLong,
    /// A read failed; holds the kind of its error.
    Failed(ErrorKind),
    /// The bound on reads was met; holds how many of the reads were interrupted.
    Unending(u64),
    /// Memory was refused.
    Memory,
}

/// Reads the rest of an input. Fails with `TooLong` past `limit` bytes, with `Failed` if a read fails, with `Unending` if `reads`
/// reads do not meet the end, and with `Memory` if memory is refused. An interrupted read is done again, and counts as a read.
pub fn read_bounded<R: Read>(
    alloc: Global,
    input: &mut R,
    limit: usize,
    reads: u64,
) -> Result<Vec<u8>, ReadFault>
    ensures reads { ReadsAll limit reads (R.remaining input.old) (R.remaining input.new) result }
    ensures again { IfErr result (λ e. e ≢ Failed ErrorKind.Interrupted) }
{
    let mut bytes = Vec::new(alloc);
    let mut piece = [0; PIECE];
    let mut interrupted = 0;
    for _i in 0..reads {
        match input.read(&mut piece) {
            Ok(0) => return Ok(bytes),
            Ok(n) => {
                if n > limit - bytes.len() {
                    return Err(ReadFault::TooLong);
                }
                let (front, _) = piece.split_at(n);
                if bytes.extend_from_slice(front).is_err() {
                    return Err(ReadFault::Memory);
                }
            }
            Err(error) => {
                let kind = error.kind();
                if kind != ErrorKind::Interrupted {
                    return Err(ReadFault::Failed(kind));
                }
                interrupted += 1;
            }
        }
    }
    Err(ReadFault::Unending(interrupted))
}
