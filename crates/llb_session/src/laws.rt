//! Laws of the replies of a session.

ghost use Rattle.llb_session.specs.GoOutput.{GoPrintsTheRun};

use llb_stepper::Stepper;

/// Proves that a session's `go` prints a line for each event that it does. The event in the line is an event of the record, and the reply in the line is the
/// event's reply in the run of the whole record.
pub fn go_prints_the_run(stepper: &Stepper)
    ensures { GoPrintsTheRun stepper.now }
{
    stepper.board().replays();
}
