//! Puts and scans over a desk, each of which leaves it so that the next one may be made.
ghost use Rattle.std.specs.Prelude.{OnOk};
ghost use Rattle.spl_session.specs.Calling.{MayAsk};

use crate::numbered::{Range, key_of, number_at, value_of};
use crate::outcome::Outcome;
use anyhow::{Result, bail};
use spl_branch::Branch;
use spl_desk::{Desk, Turns};
use spl_live::{Watch, insert, next};
use spl_message::{MergeLaw, Span};
use spl_pager::Pager;
use spl_port::Port;
use spl_range::Pieces;

/// The span of all keys.
pub(crate) const ALL: Span = Span {
    from: None,
    to: None,
};

/// More pieces than a scan has.
const MOST_PIECES: u32 = 10_000;

/// Puts so many keys in a scrambled order.
pub(crate) fn fill<T: Turns<Branch<P::Seal>>, P: Port, G: Pager, L: MergeLaw>(
    desk: &mut Desk<'_, T, P, G, L>,
    count: u32,
) -> Result<()>
    requires { MayAsk (T.means desk.old.turns) (T.saw desk.old.turns) (T.ready desk.old.turns) (L.rule desk.old.law.now) (L.ready desk.old.law.now) }
    ensures { OnOk result (MayAsk (T.means desk.new.turns) (T.saw desk.new.turns) (T.ready desk.new.turns)
        (L.rule desk.new.law.now) (L.ready desk.new.law.now)) }
{
    for place in 0..count {
        let number = number_at(place, count);
        let value = value_of(desk.alloc, number)?;
        insert(desk, &key_of(number)?, &value)?;
    }
    Ok(())
}

/// Scans the span, and notes its pieces in the outcome. They should be the pairs of the range.
pub(crate) fn scan<T: Turns<Branch<P::Seal>>, P: Port, G: Pager, L: MergeLaw>(
    desk: &mut Desk<'_, T, P, G, L>,
    watch: &Watch,
    span: Span,
    range: Range,
    outcome: &mut Outcome,
) -> Result<()>
    requires { MayAsk (T.means desk.old.turns) (T.saw desk.old.turns) (T.ready desk.old.turns) (L.rule desk.old.law.now) (L.ready desk.old.law.now) }
    ensures { OnOk result (MayAsk (T.means desk.new.turns) (T.saw desk.new.turns) (T.ready desk.new.turns)
        (L.rule desk.new.law.now) (L.ready desk.new.law.now)) }
{
    let mut pieces = Pieces::new(span);
    let mut left = range;
    let _ = watch.take_reads();
    'pieces: for _ in 0..MOST_PIECES {
        let Some(piece) = next(desk, &mut pieces)? else {
            outcome.note_end(left);
            return Ok(());
        };
        let reads = watch.take_reads();
        left = outcome.note(piece.pairs.as_slice(), reads.as_slice(), left);
    }
    bail!("the scan has too many pieces")
}

/// Scans the span. Answers how many pairs it has.
pub(crate) fn count_pairs<T: Turns<Branch<P::Seal>>, P: Port, G: Pager, L: MergeLaw>(
    desk: &mut Desk<'_, T, P, G, L>,
    span: Span,
) -> Result<u64>
    requires { MayAsk (T.means desk.old.turns) (T.saw desk.old.turns) (T.ready desk.old.turns) (L.rule desk.old.law.now) (L.ready desk.old.law.now) }
    ensures { OnOk result (MayAsk (T.means desk.new.turns) (T.saw desk.new.turns) (T.ready desk.new.turns)
        (L.rule desk.new.law.now) (L.ready desk.new.law.now)) }
{
    let mut pieces = Pieces::new(span);
    let mut count = 0u64;
    'pieces: for _ in 0..MOST_PIECES {
        let Some(piece) = next(desk, &mut pieces)? else {
            return Ok(count);
        };
        count = count.saturating_add(piece.pairs.as_slice().len() as u64);
    }
    bail!("the scan has too many pieces")
}
