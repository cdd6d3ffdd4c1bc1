//! Writes the line that reports a refusal. It is written piece by piece, since it has to be written even if no memory is left.

ghost use Rattle.std.specs.Prelude.{◌≡◌, ◌<◌};
ghost use Rattle.std.specs.Fmt.{decimal};
ghost use Rattle.llb_wire.specs.Sink.{TakesAll};
ghost use Rattle.llb_board.specs.Faults.{walk_text};
ghost use Rattle.llb_stepper.specs.Faults.{stepper_text};
ghost use Rattle.llb_session.specs.PrintedTexts.{fault_line};

use llb_board::WalkFault;
use llb_events::{CancelFault, ClaimFault, SettleFault, StepFault};
use llb_stepper::StepperFault;
use llb_wire::{Failed, Sink, write_all};

// Writes a digit.
fn write_digit<S: Sink>(digit: u64, sink: &mut S) -> Result<(), Failed>
    requires { digit < 10 }
    ensures takes { TakesAll (S.taken sink.old) (S.taken sink.new) (S.failed sink.new) (decimal digit) result }
    ensures same { S.lender sink.new ≡ S.lender sink.old }
{
    write_all(sink, &[b'0' + digit as u8])
}

// Writes a number in decimal digits.
fn write_number<S: Sink>(number: u64, sink: &mut S) -> Result<(), Failed>
    ensures takes { TakesAll (S.taken sink.old) (S.taken sink.new) (S.failed sink.new) (decimal number) result }
    ensures same { S.lender sink.new ≡ S.lender sink.old }
{
    if number < 10 {
        return write_digit(number, sink);
    }
    write_number(number / 10, sink)?;
    write_digit(number % 10, sink)
}

// Writes the text of the refusal of an event.
fn write_walk<S: Sink>(fault: &WalkFault, sink: &mut S) -> Result<(), Failed>
    ensures takes { TakesAll (S.taken sink.old) (S.taken sink.new) (S.failed sink.new) (walk_text fault.now) result }
    ensures same { S.lender sink.new ≡ S.lender sink.old }
{
    match fault {
        WalkFault::Claim(ClaimFault::NoWorker)
        | WalkFault::Step(StepFault::NoWorker)
        | WalkFault::Settle(SettleFault::NoWorker)
        | WalkFault::Cancel(CancelFault::NoWorker) => write_all(sink, b"131"),
        WalkFault::Claim(ClaimFault::Busy) => write_all(sink, b"132"),
        WalkFault::Claim(ClaimFault::NoVertex) => write_all(sink, b"133"),
        WalkFault::Claim(ClaimFault::NotReady) => write_all(sink, b"134"),
        WalkFault::Claim(ClaimFault::Held(key)) => {
            write_all(sink, b"135 ")?;
            write_all(sink, key.id.as_str().as_bytes())
        }
        WalkFault::Step(StepFault::NotRunning)
        | WalkFault::Settle(SettleFault::NotRunning)
        | WalkFault::Cancel(CancelFault::NotRunning) => write_all(sink, b"136"),
        WalkFault::Step(StepFault::NothingLeft) => write_all(sink, b"137"),
        WalkFault::Settle(SettleFault::NotFinished) => write_all(sink, b"138"),
        WalkFault::Claim(ClaimFault::Memory)
        | WalkFault::Step(StepFault::Memory)
        | WalkFault::Memory => write_all(sink, b"141"),
    }
}

// Writes the text of a refusal.
fn write_text<S: Sink>(fault: &StepperFault, sink: &mut S) -> Result<(), Failed>
    ensures takes { TakesAll (S.taken sink.old) (S.taken sink.new) (S.failed sink.new) (stepper_text fault.now) result }
    ensures same { S.lender sink.new ≡ S.lender sink.old }
{
    match fault {
        StepperFault::Board(fault) => {
            write_all(sink, b"171 ")?;
            write_walk(fault, sink)
        }
        StepperFault::NothingBefore => write_all(sink, b"172"),
        StepperFault::BadCommand(line) => {
            write_all(sink, b"173 ")?;
            write_number(*line, sink)
        }
        StepperFault::Memory => write_all(sink, b"174"),
    }
}

/// Writes the line that reports a refusal. Fails with `Failed` if the sink fails; then a prefix of the line is written. Does not allocate.
pub(crate) fn write_refusal<S: Sink>(fault: &StepperFault, sink: &mut S) -> Result<(), Failed>
    ensures takes { TakesAll (S.taken sink.old) (S.taken sink.new) (S.failed sink.new) (fault_line fault.now) result }
    ensures same { S.lender sink.new ≡ S.lender sink.old }
{
    write_all(sink, b"fault ")?;
    write_text(fault, sink)?;
    write_all(sink, b"\n")
}
