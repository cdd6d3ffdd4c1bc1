//! Reads the lines of a text, one after another; keeps the entries that are complete, and the op that is open.

ghost use Rattle.std.specs.Prelude.{◌≡◌, IfOk, []};
ghost use Rattle.llb_asm.specs.ItemLines.{kept};
ghost use Rattle.llb_asm.specs.TextGrammar.{Assembles};
ghost use Rattle.llb_asm.specs.LineReader.{progresses, progress_of, open_op_of, step_of, step_in, closed_on, run_from, between, fault_at, GivesEntries};
ghost use Rattle.llb_asm.specs.LineReader.{reached};

use crate::complete_entries::Earlier;
use crate::entry::{Begun, begun_in, entry_in};
use crate::fault::{AsmFault, Rule};
use crate::line::Refusal;
use crate::lines::{is_dropped, stripped};
use crate::open_op::{Closed, Open};
use llb_ops::Entries;
use llb_wire::Memory;
use std::alloc::Global;

impl Refusal {
    /// Returns this refusal as the fault of the line with this number.
    fn at(self, line: u64) -> AsmFault
        ensures { result ≡ fault_at line self }
    {
        match self {
            Refusal::Breaks(rule) => AsmFault::Line(line, rule),
            Refusal::UnknownLabel => AsmFault::UnknownLabel(line),
        }
    }
}

#[tactic(auto, using(crate::proofs::EntryLimits::begun_room))]
/// Reads the first line of an entry. If the line is `raw HEX`, appends this entry to the earlier entries; if it is `op {`, returns an open op without items.
/// Otherwise returns why the line is refused.
fn begin(
    alloc: Global,
    earlier: &mut Earlier,
    line: &[u8],
) -> Result<Result<Option<Open>, Refusal>, Memory>
    ensures { IfOk result (λ r. progresses earlier.new r ≡ step_of (between earlier.old) line.now) }
{
    match begun_in(alloc, earlier, line)? {
        Err(refusal) => Ok(Err(refusal)),
        Ok(Begun::Structured) => Ok(Ok(Some(Open::new(alloc)))),
        Ok(Begun::Raw(bytes)) => {
            earlier.push(alloc, bytes)?;
            Ok(Ok(None))
        }
    }
}

#[tactic(auto, using(crate::proofs::EntryLimits::entry_room))]
// Reads the closing line of the current message. Returns the op if it is still open. Otherwise appends the op's entry to the earlier entries and
// returns `None`, or returns why the entry is refused.
fn close(
    alloc: Global,
    earlier: &mut Earlier,
    current: Open,
) -> Result<Result<Option<Open>, Refusal>, Memory>
    ensures { IfOk result (λ r. progresses earlier.new r ≡ closed_on earlier.old (open_op_of current).bytes (open_op_of current).below) }
{
    match current.close()? {
        Closed::Still(open) => Ok(Ok(Some(open))),
        Closed::Whole(records) => match entry_in(alloc, earlier, records.as_slice())? {
            Err(refusal) => Ok(Err(refusal)),
            Ok(entry) => {
                earlier.push(alloc, entry)?;
                Ok(Ok(None))
            }
        },
    }
}

/// Reads a line inside an op. Returns the op if it is still open after the line; `None` if the line closed it; or why the line is refused.
fn go_on(
    alloc: Global,
    earlier: &mut Earlier,
    current: Open,
    line: &[u8],
) -> Result<Result<Option<Open>, Refusal>, Memory>
    ensures { IfOk result (λ r. progresses earlier.new r ≡ step_in earlier.old (open_op_of current) line.now) }
{
    if line == b"}".as_slice() {
        return close(alloc, earlier, current);
    }
    match current.item_at(alloc, earlier, line)? {
        Err(refusal) => Ok(Err(refusal)),
        Ok(item) => Ok(Ok(Some(current.with_item(alloc, item)?))),
    }
}

/// Reads a line. Returns the op that is open after the line; `None` if no op is open; or why the line is refused.
fn step(
    alloc: Global,
    earlier: &mut Earlier,
    current: Option<Open>,
    line: &[u8],
) -> Result<Result<Option<Open>, Refusal>, Memory>
    ensures { IfOk result (λ r. progresses earlier.new r ≡ step_of (progress_of earlier.old current) line.now) }
{
    match current {
        None => begin(alloc, earlier, line),
        Some(current) => go_on(alloc, earlier, current, line),
    }
}

/// Reads the lines of a text, and appends the entries that they spell to the earlier entries. Fails as `assemble` does.
#[tactic(auto, unfolding(crate::specs::LineReader::run_from))]
fn read_lines(alloc: Global, earlier: &mut Earlier, text: &[u8]) -> Result<(), AsmFault>
    ensures { GivesEntries (reached earlier.new result) (run_from 0 (between earlier.old) (kept text.now)) }
{
    let mut current = None;
    let mut number: u64 = 0;
    let mut last: u64 = 0;
    for line in text.split(|b| *b == b'\n') {
        number += 1;
        let line = stripped(line);
        if !is_dropped(line) {
            last = number;
            match step(alloc, earlier, current, line)? {
                Err(refusal) => return Err(refusal.at(number)),
                Ok(next) => current = next,
            }
        }
    }
    if current.is_some() {
        return Err(AsmFault::Line(last, Rule::Unclosed));
    }
    Ok(())
}

/// Returns the entries that the lines of a text are read as.
fn run_lines(alloc: Global, text: &[u8]) -> Result<Entries, AsmFault>
    ensures { GivesEntries result (run_from 0 (between []) (kept text.now)) }
{
    let mut earlier = Earlier::new(alloc);
    read_lines(alloc, &mut earlier, text)?;
    Ok(Entries::new(earlier.into_entries()))
}

/// Reads the entries that a text spells.
///
/// Each line has one item. The call drops the spaces, tabs and carriage returns at the ends of a line, and then each line
/// that is empty, or that is UTF-8 and begins with `#`. An entry is `raw HEX`, or `op {`, items and `}`; docs/FORMATS.md
/// has the grammar. The entry of an op is the op's canonical bytes. The call fails at the first faulty line, with the
/// line's first fault in this order: 161 `Line` with `Syntax`, `UnknownField`, `Order` or `BadValue`, 162 `UnknownLabel`,
/// 161 `Line` with `OverLimit`. If no line has one of these faults, but an op is left open, the call fails with 161 `Line`
/// with `Unclosed` and the number of the last line that is not dropped. Fails with 163 `Memory` if memory is refused.
pub fn assemble(alloc: Global, text: &[u8]) -> Result<Entries, AsmFault>
    ensures { Assembles text.now result }
{
    run_lines(alloc, text)
}
