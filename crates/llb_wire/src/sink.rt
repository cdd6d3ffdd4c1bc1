//! Sinks, to which bytes are written. A sink that has failed takes no more bytes.

ghost use Rattle.std.specs.Prelude.{◌≡◌, ℕ, Bool, List, Option, Some, None, false};
ghost use Rattle.std.specs.Borrow.{GName};
ghost use Rattle.llb_wire.specs.Sink.{Takes, TakesAll};

use std::io::Write;

/// The sink has failed, and takes no more bytes.
#[derive(Clone, Copy, Debug, PartialEq, Eq)]
pub struct Failed;

/// A destination of bytes. Contracts see the bytes taken so far and whether the sink has failed.
pub trait Sink {
    // The bytes that were taken so far, if they are known.
    ghost taken: { Self → Option (List ℕ) };

    ghost failed: { Self → Bool };

    // The prover's name of the mutable reference through which the bytes are written, if there is one. No call changes this name.
    ghost lender: { Self → Option GName } = { λ _. None };

    /// Takes a prefix of the bytes, at least one byte if there are any, and returns the length of this prefix. Fails with
    /// `Failed` alone; after a failure every later call fails too.
    fn write(&mut self, bytes: &[u8]) -> Result<usize, Failed>
        ensures takes { Takes (taken self.old) (failed self.old) (taken self.new) (failed self.new)
            bytes.now result }
        ensures same { lender self.new ≡ lender self.old };
}

/// A sink over a writer. The sink fails once the writer fails, or once the writer accepts 0 bytes of a slice that is not empty; then the sink does not call
/// the writer again.
#[derive(Drop)]
pub struct Over<'a, W> {
    pub out: &'a mut W,
    pub failed: bool,
}

impl<'a, W: Write> Over<'a, W> {
    /// Makes a sink over a writer, which the sink borrows. The sink has not failed yet.
    pub fn new(out: &'a mut W) -> Over<'a, W>
        ensures same { result.out.ghost_name ≡ out.entry.ghost_name }
        ensures held { result.out.now ≡ out.old }
        ensures sound { result.failed ≡ false }
    {
        Over { out, failed: false }
    }
}

impl<'a, W: Write> Sink for Over<'a, W> {
    ghost taken = { λ o. W.contents o.out.now };

    ghost failed = { λ o. o.failed };

    ghost lender = { λ o. Some o.out.ghost_name };

    fn write(&mut self, bytes: &[u8]) -> Result<usize, Failed> {
        if self.failed {
            return Err(Failed);
        }
        if let Ok(n) = self.out.write(bytes) {
            if n > 0 || bytes.is_empty() {
                return Ok(n);
            }
        }
        self.failed = true;
        Err(Failed)
    }
}

/// Writes all of the bytes, in as many writes as the sink needs. Fails with `Failed` if the sink fails; then a prefix of
/// the bytes is written.
pub fn write_all<S: Sink>(sink: &mut S, bytes: &[u8]) -> Result<(), Failed>
    ensures takes { TakesAll (S.taken sink.old) (S.taken sink.new) (S.failed sink.new)
        bytes.now result }
    ensures same { S.lender sink.new ≡ S.lender sink.old }
{
    let mut rest = bytes;
    while !rest.is_empty() {
        match sink.write(rest) {
            Ok(n) => {
                let (_, later) = rest.split_at(n);
                rest = later;
            }
            Err(failed) => return Err(failed),
        }
    }
    Ok(())
}
