//! The stepper: a board, what undoes each event that the stepper did, and the breakpoints.

ghost use Rattle.std.specs.Prelude.{◌≡◌, ◌≤◌, ◌+◌, ◌++◌, ◌∷◌, [], length, drop, Bool, true, map, option_map, false, IfOk, IfErr};
ghost use Rattle.std.specs.Prelude.{OnOk, OnErr, Some, string_bytes};
ghost use Rattle.llb_model.specs.Run.{chosen};
ghost use Rattle.llb_stepper.specs.StepperResults.{GivesEvent, done_of, may_want, stepper_memory, IsRefusedAt, MeetsOn, ChosenIsDone, ThereAndBack};
ghost use Rattle.llb_stepper.specs.Stepping.{GoesBack, IsStop, IsGo, IsReplayed, PastIsTheRecords, timeline, lesser};
ghost use Rattle.llb_stepper.specs.Records.{record_at, record_text, RecordIsTheRun, ReplaysOnAStepper};
ghost use Rattle.llb_stepper.specs.Replies.{RepliesAreRecorded};
ghost use Rattle.llb_stepper.specs.UndoableEventReplies.{told_pair};
ghost use Rattle.llb_stepper.specs.declared.fault.StepperFault.TheVariants as fault;

use crate::breakpoints::Breakpoints;
use crate::fault::StepperFault;
use crate::record_text::line_text;
use crate::stop::{Break, Stop};
use llb_board::laws::chosen_is_granted;
use llb_board::{Board, Event, Reply, Walked};
use llb_wire::Text;
use std::alloc::Global;
use std::marker::Model;

/// A board, what undoes each event that the stepper did on it, and breakpoints. In contracts a stepper is the board, the breakpoints, and the board before each
/// of these events (the board before the last event comes first).
pub struct Stepper {
    alloc: Global,
    board: Board,
    walked: Vec<Walked>,
    breaks: Breakpoints,
}

impl Drop for Stepper {
    fn drop(self) {
        let Stepper {
            alloc: _,
            board: _,
            walked: _,
            breaks: _,
        } = self;
    }
}

impl Model for Stepper {
    ghost use Rattle.std.specs.Coded.{codes};
    ghost use Rattle.std.specs.Prelude.{reverse};
    ghost use Rattle.llb_tree.specs.CodedTrees.{coded_tree};
    ghost use Rattle.llb_model.specs.CodedStores.{coded_store};
    ghost use Rattle.llb_stepper.specs.Stepping.{Stepping};
    ghost use Rattle.llb_stepper.specs.StepperInvariant.{stepping, AreWalked};

    ghost Value = { Stepping };

    ghost coded = { Prim.hlevel (codes, coded_tree, coded_store) };

    ghost view = { λ s. stepping s.board s.walked.items s.breaks };

    ghost invariant = { λ s. AreWalked s.board (reverse s.walked.items) };
}

impl Stepper {
    /// Makes a stepper over a board, without breakpoints. Events that the board has already can't be taken back. Does not allocate.
    pub fn new(alloc: Global, board: Board) -> Stepper
        ensures { result ≡ record { board = board; past = []; breaks = [] } }
    {
        Stepper {
            alloc,
            board,
            walked: Vec::new(alloc),
            breaks: Breakpoints::new(alloc),
        }
    }

    /// Returns the board as it is now. Does not allocate.
    pub fn board(&self) -> &Board
        ensures { result.now ≡ self.now.board }
    {
        &self.board
    }

    /// Adds a breakpoint. Fails with 174 alone.
    pub fn break_at(&mut self, stop: Break) -> Result<(), StepperFault>
        ensures ok { OnOk result (self.new ≡ record self.old { breaks = self.old.breaks ++ stop ∷ [] }) }
        ensures memory { IfErr result (λ e. e ≡ fault.Memory) }
        ensures err { OnErr result (self.new ≡ self.old) }
    {
        self.breaks.push(stop)?;
        Ok(())
    }

    /// Removes all breakpoints. Does not allocate.
    pub fn clear(&mut self)
        ensures { self.new ≡ record self.old { breaks = [] } }
    {
        self.breaks.clear();
    }

    /// Does one event. Fails with 171 and the board's refusal, or with 174. If memory is refused, the fault is 171 141 if the board needed the memory, and 174
    /// if the stepper itself needed it; both are reported only if the board does not refuse the event, or in place of 171 135 if memory for a copy of the held
    /// key is refused.
    pub fn do_event(&mut self, event: Event) -> Result<(), StepperFault>
        ensures gives { GivesEvent (λ _. self.new) result (done_of self.old event) }
        ensures last { IfErr result (λ e. stepper_memory e ≡ true → may_want self.old event ≡ true) }
        ensures err { OnErr result (self.new ≡ self.old) }
    {
        self.walk(event)?;
        Ok(())
    }

    /// Returns the chosen event, without doing it: the next event of the running worker with the lowest number or, if no worker runs, worker 0's claim of the
    /// least Ready vertex; `None` if the board is complete (every vertex is done, failed or blocked). Does not allocate.
    pub fn next(&self) -> Option<Event>
        ensures { result ≡ chosen self.now.board.build self.now.board.state }
    {
        self.board.chosen()
    }

    /// Takes the last event back; breakpoints stay. Fails with 172 if the stepper did no event, or if all its events are taken back. Does not allocate.
    pub fn back(&mut self) -> Result<(), StepperFault>
        ensures ok { OnOk result (GoesBack self.old self.new) }
        ensures fewer { OnOk result (length self.old.board.events ≡ length self.new.board.events + 1) }
        ensures nothing { IfErr result (λ e. e ≡ fault.NothingBefore) }
        ensures none { OnErr result (self.old.past ≡ []) }
        ensures err { OnErr result (self.new ≡ self.old) }
    {
        match self.walked.pop() {
            None => Err(StepperFault::NothingBefore),
            Some(walked) => {
                self.board.undo(walked.undo);
                Ok(())
            }
        }
    }

    /// Returns the line of event `i` of the board's record, counted from 1, with its reply. Returns `None` at 0, past the end of the record, and for events
    /// that the board had when the stepper was made. Fails with 174 alone.
    pub fn record_line(&self, i: u64) -> Result<Option<Text>, StepperFault>
        ensures line { IfOk result (λ o. option_map (λ t. t) o ≡ option_map (record_text self.now.board.build.graph.vertices i) (record_at self.now i)) }
        ensures memory { IfErr result (λ e. e ≡ fault.Memory) }
    {
        let Some((event, reply)) = self.recorded(i) else {
            return Ok(None);
        };
        let line = line_text(self.alloc, self.board.graph().vertices(), i, event, reply)?;
        Ok(Some(Text::new(line)))
    }

    // Returns event `i` of the record with its reply; `None` if `record_line` returns no line for this number.
    fn recorded(&self, i: u64) -> Option<(Event, Reply)>
        ensures { result ≡ option_map told_pair (record_at self.now i) }
    {
        let events = self.board.events().as_slice();
        let number = i as usize;
        if number == 0 || number > events.len() {
            return None;
        }
        let after = events.len() - number;
        if after >= self.walked.len() {
            return None;
        }
        let walked = &self.walked[self.walked.len() - 1 - after];
        Some((events[number - 1], walked.reply))
    }

    /// Returns how many events the stepper did that are not taken back. Does not allocate.
    #[tactic(auto, using(crate::proofs::UndoableEventsByTable::depth_of))]
    pub fn depth(&self) -> usize
        ensures { result ≡ length self.now.past }
    {
        self.walked.len()
    }

    // Does one event, and returns whether it meets a breakpoint.
    fn walk(&mut self, event: Event) -> Result<bool, StepperFault>
        ensures gives { GivesEvent (λ _. self.new) result (done_of self.old event) }
        ensures last { IfErr result (λ e. stepper_memory e ≡ true → may_want self.old event ≡ true) }
        ensures met { IfOk result (MeetsOn self.old event self.new) }
        ensures err { OnErr result (self.new ≡ self.old) }
    {
        match self.board.walk(event) {
            Ok(walked) => match self.walked.reserve(1) {
                Ok(()) => {
                    let met = self.breaks.is_met_by(event, walked.reply);
                    self.walked.push_reserved(walked);
                    Ok(met)
                }
                Err(_) => {
                    let undo = walked.undo;
                    self.board.undo(undo);
                    Err(StepperFault::Memory)
                }
            },
            Err(fault) => Err(StepperFault::Board(fault)),
        }
    }

    // Takes `count` events back. Does not allocate.
    fn back_by(&mut self, count: usize)
        requires { count ≤ length self.old.past }
        ensures timeline { timeline self.new ≡ drop count (timeline self.old) }
        ensures build { self.new.board.build ≡ self.old.board.build }
        ensures breaks { self.new.breaks ≡ self.old.breaks }
    {
        for _i in 0..count {
            let _ = self.back();
        }
    }

    /// Takes back the last `count` events, or all that the stepper did if there are fewer; breakpoints stay. Does not allocate.
    pub fn back_many(&mut self, count: usize)
        ensures timeline { timeline self.new ≡ drop (lesser count (length self.old.past)) (timeline self.old) }
        ensures build { self.new.board.build ≡ self.old.board.build }
        ensures breaks { self.new.breaks ≡ self.old.breaks }
    {
        let depth = self.depth();
        self.back_by(if count < depth { count } else { depth });
    }

    /// Does the event that `next` returns, again and again, until an event meets a breakpoint or the board is complete. Does at least one event, unless the
    /// board is complete at the start. Fails with 171 141 or 174 alone; then all events that the call did are taken back.
    pub fn go(&mut self) -> Result<Stop, StepperFault>
        ensures goes { IfOk result (IsGo self.old self.new) }
        ensures refused { IfErr result (λ e. stepper_memory e ≡ true) }
        ensures err { OnErr result (self.new ≡ self.old) }
    {
        let before = self.depth();
        while let Some(event) = self.board.chosen() {
            chosen_is_granted(&self.board);
            match self.walk(event) {
                Ok(true) => {
                    past_is_the_records(self);
                    return Ok(Stop {
                        events: (self.depth() - before) as u64,
                        at_break: true,
                    });
                }
                Ok(false) => {}
                Err(fault) => {
                    self.back_by(self.depth() - before);
                    return Err(fault);
                }
            }
        }
        past_is_the_records(self);
        Ok(Stop {
            events: (self.depth() - before) as u64,
            at_break: false,
        })
    }

    /// Does the given events, up to the first that meets a breakpoint. If an event is refused, with 171 or 174, all events that the call did are taken back.
    pub fn replay(&mut self, events: &[Event]) -> Result<Stop, StepperFault>
        ensures stops { IfOk result (IsStop self.old events.now self.new) }
        ensures refused { IfErr result (IsRefusedAt self.old events.now) }
        ensures err { OnErr result (self.new ≡ self.old) }
    {
        let start = self.depth();
        for event in events {
            match self.walk(*event) {
                Ok(true) => {
                    past_is_the_records(self);
                    return Ok(Stop {
                        events: (self.depth() - start) as u64,
                        at_break: true,
                    });
                }
                Ok(false) => {}
                Err(fault) => {
                    self.back_by(self.depth() - start);
                    return Err(fault);
                }
            }
        }
        past_is_the_records(self);
        Ok(Stop {
            events: (self.depth() - start) as u64,
            at_break: false,
        })
    }
}

/// Proves that the chosen event, which `Stepper::next` returns, is refused only for want of memory.
pub fn chosen_is_done(stepper: &Stepper)
    ensures { ChosenIsDone stepper.now }
{
    chosen_is_granted(&stepper.board);
}

/// Proves that doing any event and taking it back restores the stepper.
pub fn there_and_back(stepper: &Stepper)
    ensures { ThereAndBack stepper.now }
{
    let _ = &stepper.board;
}

/// Proves that the record also leads to the earlier boards. If the stepper did the last `n` events of the record, the record without these events leads to the
/// board as it was before them, however the events were done.
pub fn past_is_the_records(stepper: &Stepper)
    ensures { PastIsTheRecords stepper.now }
{
    let _ = &stepper.board;
}

/// Proves that the events and replies in the lines of a record are the events and replies of the run of the whole record from the board's opening.
pub fn record_is_the_run(stepper: &Stepper)
    ensures { RecordIsTheRun stepper.now }
{
    let _ = &stepper.board;
}

/// Proves that the record of a board, done again event by event on the board as it was opened, leads to the board, however the events were first done. If a
/// stepper without breakpoints begins with the board as it was opened, and replays the record, it ends on the board, and its lines are the events of the
/// record and their replies.
pub fn replay_is_the_run(board: &Board)
    ensures leads { IsReplayed board.now }
    ensures lines { ReplaysOnAStepper board.now }
{
    board.replays();
}

/// Proves that the reply that a call on a board returns is the reply to the last event of the record after the call. This holds for `claim`, `step`, `settle`
/// and `cancel`. For `land`, which appends steps and a settle to the record, the replies to all these events are the last replies of the record's run.
pub fn replies_are_recorded(board: &Board)
    ensures { RepliesAreRecorded board.now }
{
    board.replays();
}
