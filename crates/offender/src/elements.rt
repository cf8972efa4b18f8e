// One element of a stage with weights, applied and undone: its sum over all the others, rounded, and its sign. In 64 bits.
ghost use Rattle.std.specs.Prelude.{◌≡◌, ◌<◌};
ghost use Rattle.rules.specs.Stages.{R, off, weighed};
ghost use Rattle.offender.specs.RefusedStages.{Weighed, Given, cells, scale_by, weight_of, made_of};

use crate::weights::{Refused, Shape, cells_of, sign_at, weight_at};
use factor::rounding::{applied, round_joint, round_line, undone};
use factor::run::{is_down, is_even};
use rules::Rule;

// The same weight; an element's own is left out.
#[tactic(auto, unfolding(rules::specs::Stages::off))]
fn off_at(q: Refused, col: &[i32], row: &[i32], e: usize, k: usize) -> i64
    requires { Weighed q col.now row.now × (e < cells q) × (k < cells q) }
    ensures { result ≡ off (weight_of q col.now row.now) e k }
{
    if e == k {
        0
    } else {
        weight_at(q, col, row, e, k)
    }
}

// The sum of element e.
#[tactic(auto, unfolding(whole::specs::Stated::sum, rules::specs::Stages::weighed))]
fn off_sum(q: Refused, col: &[i32], row: &[i32], e: usize, x: &[i32]) -> i64
    requires { Given q col.now row.now x.now × (e < cells q) }
    ensures { result ≡ weighed (cells q) (off (weight_of q col.now row.now) e) x.now }
{
    let mut sum: i64 = 0;
    for k in 0..cells_of(q) {
        sum += off_at(q, col, row, e, k) * i64::from(x[k]);
    }
    sum
}

// The same, rounded.
#[tactic(auto, unfolding(crate::specs::RefusedStages::scale_by))]
fn rounded_sum(rule: Rule, q: Refused, col: &[i32], row: &[i32], e: usize, x: &[i32]) -> i64
    requires { Given q col.now row.now x.now × (e < cells q) }
    ensures { result ≡ R rule (scale_by q.shape)
        (weighed (cells q) (off (weight_of q col.now row.now) e) x.now) }
{
    let s = off_sum(q, col, row, e, x);
    let down = is_down(rule);
    let even = is_even(rule);
    match q.shape {
        Shape::Joint => round_joint(down, even, s),
        Shape::Pass { .. } => round_line(down, even, s),
    }
}

// What element e becomes; back, what it was.
pub fn element_at(
    back: bool,
    rule: Rule,
    q: Refused,
    col: &[i32],
    row: &[i32],
    e: usize,
    x: &[i32],
) -> i64
    requires { Given q col.now row.now x.now × (e < cells q) }
    ensures { result ≡ made_of rule back q col.now row.now x.now e }
{
    let d = sign_at(q, col, row, e);
    let s = rounded_sum(rule, q, col, row, e, x);
    if back {
        undone(d, x[e], s)
    } else {
        applied(d, x[e], s)
    }
}
