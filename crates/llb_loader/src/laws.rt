//! Laws of the numbering, and of the results of loading.

ghost use Rattle.std.specs.Prelude.{◌≡◌};
ghost use Rattle.llb_loader.specs.ReachedRows.{lists};
ghost use Rattle.llb_loader.specs.Numbering.{IsNumbering, GoesDown, rank_in};
ghost use Rattle.llb_loader.specs.UniqueResult.{HasOneAnswer, HasOneAnswerIn};

use crate::row::Row;

/// Proves that there is at most one order in which the rows that are reached from `start` get their vertex numbers.
pub fn one_numbering(rows: &[Vec<usize>], start: usize, first: &[usize], second: &[usize])
    requires first { IsNumbering (lists rows.now) start first.now }
    requires second { IsNumbering (lists rows.now) start second.now }
    ensures { first.now ≡ second.now }
{}

/// Proves that every edge of a row that is reached from `start` leads to a row with a lower vertex number, if `order` has these rows by vertex number.
pub fn numbering_goes_down(rows: &[Vec<usize>], start: usize, order: &[usize])
    requires { IsNumbering (lists rows.now) start order.now }
    ensures { GoesDown (lists rows.now) start (rank_in order.now) }
{}

/// Proves that rows have at most one result: one graph, or one refusal.
pub fn one_answer(rows: &[Row])
    ensures { HasOneAnswer rows.now }
{
    let _ = rows;
}

/// Proves that a definition has at most one result: one graph, or one refusal.
pub fn one_answer_in(bytes: &[u8])
    ensures { HasOneAnswerIn bytes.now }
{
    let _ = bytes;
}
