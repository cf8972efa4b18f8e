// The numbers of a stage, each as its definition says it: the matrix of a factor, and by the stage's shape how many elements it
// has, their signs, their weights and their turns. A permutation has none of these, and does not come here.
ghost use Rattle.std.specs.Prelude.{true, cond, ◌≢◌, ◌≡◌, ◌*◌, ◌≤◌, ◌<◌, eqb};
ghost use Rattle.rules.specs.Numbers.{most_order, count};
ghost use Rattle.rules.specs.Sheets.{kind_of};
ghost use Rattle.rules.specs.Factors.{has_entry, entries_before, factor_at, matrix};
ghost use Rattle.rules.specs.Shapes.{turn, in_row, joint_shared, pass_weight, pass_turn};
ghost use Rattle.laws.specs.Accepted.{FactorRead};
ghost use Rattle.factor.specs.LayoutInSheet.{Paired};
ghost use Rattle.offender.specs.RefusedStages.{Small, HasWeights, Weighed, lines, cells, turns};
ghost use Rattle.offender.specs.RefusedStages.{sign_of, weight_of, turn_of};

use factor::{before_lower, before_upper, layout_at};
use rules::{Kind, Scale};

// What a stage is made of: a pair of factors of a rectangle, or a factor along every line of one.
// The lines of a pass go down, or are rows.
#[derive(Clone, Copy)]
pub enum Shape {
    Joint,
    Pass { down: bool },
}

// The stage that is refused: its shape, and the orders and the places of its factors in the two sheets. A pass has one factor, of
// n1 numbers, along n2 lines; its place stands twice here.
#[derive(Clone, Copy)]
pub struct Refused {
    pub shape: Shape,
    pub n1: usize,
    pub n2: usize,
    pub i: usize,
    pub j: usize,
}

// Whether a factor has an entry in row m, column k, off the diagonal.
#[tactic(auto, unfolding(rules::specs::Factors::has_entry))]
fn has_entry(kind: Kind, r: usize, m: usize, k: usize) -> bool
    ensures { result ≡ has_entry kind r m k }
{
    match kind {
        Kind::Permutation => false,
        Kind::Lower => k < m,
        Kind::Upper => m < k,
        Kind::Single => m == r,
    }
}

// How many entries stand before that one.
#[tactic(auto, unfolding(rules::specs::Factors::entries_before, rules::specs::Factors::has_entry))]
fn entries_before(kind: Kind, n: usize, r: usize, m: usize, k: usize) -> usize
    requires { (n ≤ most_order) × (m < n) × (k < n) × (m ≢ k) × (has_entry kind r m k ≡ true) }
    ensures { result ≡ entries_before kind n r m k }
{
    match kind {
        Kind::Permutation => 0,
        Kind::Lower => before_lower(m) + k,
        Kind::Upper => before_upper(n, m) + (k - 1 - m),
        Kind::Single => { if k < r { k } else { k - 1 } }
    }
}

// The matrix of the factor at i.
fn matrix_at(sheet: &[i32], n: usize, i: usize, m: usize, k: usize) -> i64
    requires { HasWeights sheet.now n i × (m < n) × (k < n) }
    ensures { result ≡ matrix (factor_at sheet.now n i) m k }
{
    let f = layout_at(sheet, n, i);
    if m == k {
        return Scale::LINE * i64::from(sheet[f.signs + m]);
    }
    if !has_entry(f.kind, f.row, m, k) {
        return 0;
    }
    i64::from(sheet[f.entries + entries_before(f.kind, n, f.row, m, k)])
}

// The sign of row m of the factor at i.
fn sign_of(sheet: &[i32], n: usize, i: usize, m: usize) -> i32
    requires { HasWeights sheet.now n i × (m < n) }
    ensures { result ≡ (factor_at sheet.now n i).sign m }
{
    sheet[layout_at(sheet, n, i).signs + m]
}

// How many elements the block has.
#[tactic(auto, unfolding(crate::specs::RefusedStages::cells_by))]
pub fn cells_of(q: Refused) -> usize
    requires { Small q }
    ensures { result ≡ cells q }
{
    match q.shape {
        Shape::Joint => q.n1 * q.n2,
        Shape::Pass { .. } => q.n2 * q.n1,
    }
}

// How many turns its elements are looked at in: back those of the recovery, else one.
#[tactic(auto, unfolding(crate::specs::RefusedStages::turns_by))]
pub fn turns_of(back: bool, q: Refused) -> usize
    requires { Small q }
    ensures { result ≡ turns back q }
{
    if !back {
        return 1;
    }
    match q.shape {
        Shape::Joint => q.n1 * q.n2 + 4,
        Shape::Pass { .. } => q.n2 * (q.n1 + 4),
    }
}

// The line of a pass in which element e is.
#[tactic(auto, unfolding(factor::specs::PassLines::lines_by))]
fn line_of(q: Refused, down: bool, e: usize) -> usize
    requires { (1 ≤ q.n1) × (1 ≤ q.n2) }
    ensures { result ≡ (lines q down).line e }
{
    if down { e % q.n2 } else { e / q.n1 }
}

// Its place in that line.
#[tactic(auto, unfolding(factor::specs::PassLines::lines_by))]
fn spot_of(q: Refused, down: bool, e: usize) -> usize
    requires { (1 ≤ q.n1) × (1 ≤ q.n2) }
    ensures { result ≡ (lines q down).spot e }
{
    if down { e / q.n2 } else { e % q.n1 }
}

// The sign of element e.
#[tactic(auto, unfolding(crate::specs::RefusedStages::sign_by, rules::specs::Shapes::joint_sign, rules::specs::Shapes::pass_sign))]
pub fn sign_at(q: Refused, col: &[i32], row: &[i32], e: usize) -> i32
    requires { Weighed q col.now row.now × (e < cells q) }
    ensures { result ≡ sign_of q col.now row.now e }
{
    match q.shape {
        Shape::Joint => sign_of(col, q.n1, q.i, e / q.n2) * sign_of(row, q.n2, q.j, e % q.n2),
        Shape::Pass { down } => sign_of(col, q.n1, q.i, spot_of(q, down, e)),
    }
}

// The weight of element k in the sum of element e of a pass: of its own line.
#[tactic(auto, unfolding(rules::specs::Shapes::pass_weight))]
fn pass_weight(q: Refused, down: bool, sheet: &[i32], e: usize, k: usize) -> i64
    requires { HasWeights sheet.now q.n1 q.i × (1 ≤ q.n1) × (1 ≤ q.n2) × (e < q.n2 * q.n1)
        × (k < q.n2 * q.n1) }
    ensures { result ≡ pass_weight (lines q down) (factor_at sheet.now q.n1 q.i) e k }
{
    if line_of(q, down, e) != line_of(q, down, k) {
        return 0;
    }
    matrix_at(sheet, q.n1, q.i, spot_of(q, down, e), spot_of(q, down, k))
}

// The same of any shape.
#[tactic(auto, unfolding(crate::specs::RefusedStages::weight_by, rules::specs::Shapes::joint_weight))]
pub fn weight_at(q: Refused, col: &[i32], row: &[i32], e: usize, k: usize) -> i64
    requires { Weighed q col.now row.now × (e < cells q) × (k < cells q) }
    ensures { result ≡ weight_of q col.now row.now e k }
{
    match q.shape {
        Shape::Joint => {
            matrix_at(col, q.n1, q.i, e / q.n2, k / q.n2)
                * matrix_at(row, q.n2, q.j, e % q.n2, k % q.n2)
        }
        Shape::Pass { down } => pass_weight(q, down, col, e, k),
    }
}

// 1 in the single row, 0 in the others.
fn in_row(row: usize, m: usize) -> usize
    ensures { (result ≡ cond (eqb m row) 1 0) × (result ≤ 1) }
{
    usize::from(m == row)
}

// The turn of number m of n, by the kind and what the number shares with the single rows.
#[tactic(auto, unfolding(rules::specs::Shapes::turn))]
fn turn_of(kind: Kind, n: usize, shared: usize, m: usize) -> usize
    requires { m < n }
    ensures { result ≡ turn kind n shared m }
{
    match kind {
        Kind::Permutation | Kind::Lower => m,
        Kind::Upper => n - 1 - m,
        Kind::Single => shared,
    }
}

// In a line.
fn line_turn(sheet: &[i32], n: usize, i: usize, m: usize) -> usize
    requires { FactorRead sheet.now n i × (m < n) }
    ensures { result ≡ turn (kind_of (count sheet.now i)) n (in_row (factor_at sheet.now n i) m) m }
{
    let f = layout_at(sheet, n, i);
    turn_of(f.kind, n, in_row(f.row, m), m)
}

// In a rectangle.
fn joint_turn(q: Refused, col: &[i32], row: &[i32], e: usize) -> usize
    requires { Paired col.now row.now q.n1 q.n2 q.i q.j × (e < q.n1 * q.n2) }
    ensures { result ≡ turn (kind_of (count col.now q.i)) (q.n1 * q.n2)
        (joint_shared q.n1 q.n2 (factor_at col.now q.n1 q.i) (factor_at row.now q.n2 q.j) e)
        e }
{
    let n = q.n2;
    let f = layout_at(col, q.n1, q.i);
    let g = layout_at(row, n, q.j);
    turn_of(
        f.kind,
        q.n1 * n,
        in_row(f.row, e / n) + 2 * in_row(g.row, e % n),
        e,
    )
}

// In a pass: line after line.
#[tactic(auto, unfolding(rules::specs::Factors::factor_at))]
fn pass_turn(q: Refused, down: bool, sheet: &[i32], e: usize) -> usize
    requires { Small q × FactorRead sheet.now q.n1 q.i × (1 ≤ q.n1) × (1 ≤ q.n2) × (e < q.n2 * q.n1) }
    ensures { result ≡ pass_turn (lines q down) (factor_at sheet.now q.n1 q.i) e }
{
    line_of(q, down, e) * (q.n1 + 4) + line_turn(sheet, q.n1, q.i, spot_of(q, down, e))
}

// The turn in which element e is looked at.
#[tactic(auto, unfolding(crate::specs::RefusedStages::turn_by, rules::specs::Factors::factor_at))]
pub fn turn_at(back: bool, q: Refused, col: &[i32], row: &[i32], e: usize) -> usize
    requires { Weighed q col.now row.now × (e < cells q) }
    ensures { result ≡ turn_of back q col.now row.now e }
{
    if !back {
        return 0;
    }
    match q.shape {
        Shape::Joint => joint_turn(q, col, row, e),
        Shape::Pass { down } => pass_turn(q, down, col, e),
    }
}
