// The first element beyond the bound: of a stage applied in reading order, of a stage undone in the recovery order. One code for
// both, which has one turn where the other has many: a search is rare, and two would need more stack.
ghost use Rattle.std.specs.Prelude.{cond, [], ◌∷◌, ◌≡◌, ◌<◌, eqb, is_ok, unwrap_or};
ghost use Rattle.rules.specs.Stages.{those};
ghost use Rattle.offender.specs.RefusedStages.{Given, cells, turn_of, search_of, order_of};
ghost use Rattle.offender.specs.Search.{Went, Looked};

use crate::elements::element_at;
use crate::weights::{Refused, cells_of, turn_at, turns_of};
use factor::bounds::{Beyond, keep};
use factor::rounding::is_within;
use rules::{Block, Rule};

// Element e in turn t: if it is its turn, what it becomes; back, what it was, and that is put in its place. An Err if it is beyond
// the bound.
fn look_at(
    back: bool,
    rule: Rule,
    q: Refused,
    col: &[i32],
    row: &[i32],
    t: usize,
    e: usize,
    x: &mut [i32],
) -> Result<(), Beyond>
    requires { Given q col.now row.now x.old × (e < cells q) }
    ensures { Went (search_of rule back q col.now row.now)
        (cond (eqb (turn_of back q col.now row.now e) t) (e ∷ []) []) (is_ok result) e
        x.old x.new }
{
    if turn_at(back, q, col, row, e) != t {
        return Ok(());
    }
    let z = element_at(back, rule, q, col, row, e, x);
    if back {
        return keep(z, Block::SAMPLE, x, e);
    }
    if is_within(z, Block::SAMPLE) {
        Ok(())
    } else {
        Err(Beyond {})
    }
}

// The elements of turn t, in reading order: the first that is beyond the bound.
#[tactic(auto, unfolding(rules::specs::Stages::those))]
fn look_in_turn(
    back: bool,
    rule: Rule,
    q: Refused,
    col: &[i32],
    row: &[i32],
    t: usize,
    x: &mut [i32],
) -> Option<usize>
    requires { Given q col.now row.now x.old }
    ensures { Looked (search_of rule back q col.now row.now)
        (those (λ k. eqb (turn_of back q col.now row.now k) t) (cells q)) result
        x.old x.new }
{
    for e in 0..cells_of(q) {
        if look_at(back, rule, q, col, row, t, e, x).is_err() {
            return Some(e);
        }
    }
    None
}

// The first element beyond the bound. The search stops there: a later sum of an inverse run could leave 64 bits.
#[tactic(auto, unfolding(rules::specs::Shapes::by_turn, crate::specs::Search::searched))]
pub fn first_found(
    back: bool,
    rule: Rule,
    q: Refused,
    col: &[i32],
    row: &[i32],
    x: &mut [i32],
) -> Option<usize>
    requires { Given q col.now row.now x.old }
    ensures { unwrap_or result 0 ≡ search_of rule back q col.now row.now
        (order_of back q col.now row.now) x.old }
{
    for t in 0..turns_of(back, q) {
        if let Some(e) = look_in_turn(back, rule, q, col, row, t, x) {
            return Some(e);
        }
    }
    None
}
