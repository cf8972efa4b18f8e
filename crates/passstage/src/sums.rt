// The sums of one row of a factor, one for each line, in 32 bits. A number is 4096 times its whole part, and a rest: the sums of
// both are kept apart. Whole parts have 13 bits, rests 12 and entries 15, so that the compiler can take several lines at once,
// where a product in 64 bits takes one.
ghost use Rattle.std.specs.Prelude.{◌≡◌, ◌+◌, ◌*◌, ◌≤◌, pos, ◌*ℤ◌, length, replicate};
ghost use Rattle.whole.specs.Diff.{Within};
ghost use Rattle.rules.specs.Numbers.{most_order, most_cells, most_entry, bound, at};
ghost use Rattle.factor.specs.SumBounds.{Bounded};
ghost use Rattle.passstage.specs.Parts.{whole, rest, most_part, Raised, parts_sum, Parting, together};

use rules::{Block, Sheet};

// The parts of a number.
#[derive(Clone, Copy)]
pub struct Parts {}

impl Parts {
    // A shift by so many bits divides by `Sheet::UNIT`, downward.
    pub const BITS: i32 = 12;

    // The sums of whole parts for 16 lines, and those of rests after them.
    pub const BOTH: usize = 2 * Block::LINE;
}

// That it has 16 bits is said, since the compiler does not know the bound.
fn whole_part(x: i32) -> i32
    requires { Within bound x }
    ensures { result ≡ whole x }
{
    ((x >> Parts::BITS) as i16) as i32
}

fn rest_part(x: i32) -> i32
    requires { Within bound x }
    ensures { result ≡ rest x }
{
    x - Sheet::UNIT * (x >> Parts::BITS)
}

// The entry a times both parts of w numbers, from place k on.
fn products(a: i32, x: &[i32; Block::CELLS], k: usize, w: usize, t: &mut [i32; Parts::BOTH])
    requires { (w ≤ most_order) × (k + w ≤ most_cells) × Within most_entry a × Bounded bound x.now
        × (t.old ≡ replicate (2 * most_order) (pos 0)) }
    ensures { Raised w (λ c. a *ℤ whole (at x.now (k + c))) (λ c. a *ℤ rest (at x.now (k + c)))
        t.old t.new }
{
    for c in 0..w {
        t[c] = a * whole_part(x[k + c]);
        t[Block::LINE + c] = a * rest_part(x[k + c]);
    }
}

// The products t of w lines more in their sums.
fn add_products(t: &[i32; Parts::BOTH], w: usize, v: &mut [i32; Parts::BOTH])
    requires { (w ≤ most_order) × Bounded most_part t.now × Bounded (15 * most_part) v.old
        × (length v.old ≡ 2 * most_order) }
    ensures { Raised w (at t.now) (λ c. at t.now (most_order + c)) v.old
        v.new }
{
    for c in 0..w {
        v[c] += t[c];
        v[Block::LINE + c] += t[Block::LINE + c];
    }
}

// One entry more in the sums of w lines. All products are made before one is added: the compiler, which does not know that block
// and sums lie apart, can take them together.
fn add_entry(a: i32, x: &[i32; Block::CELLS], k: usize, w: usize, v: &mut [i32; Parts::BOTH])
    requires { (w ≤ most_order) × (k + w ≤ most_cells) × Within most_entry a × Bounded bound x.now
        × Bounded (15 * most_part) v.old × (length v.old ≡ 2 * most_order) }
    ensures { Raised w (λ c. a *ℤ whole (at x.now (k + c))) (λ c. a *ℤ rest (at x.now (k + c)))
        v.old v.new }
{
    let mut t = [0i32; Parts::BOTH];
    products((a as i16) as i32, x, k, w, &mut t);
    add_products(&t, w, v);
}

// The m entries from place p on, each times the numbers of its column, the first of which stand from place k on.
fn add_entries(
    a: &[i32],
    p: usize,
    m: usize,
    x: &[i32; Block::CELLS],
    k: usize,
    w: usize,
    v: &mut [i32; Parts::BOTH],
)
    requires { Parting a.now p m x.now k v.old × (w ≤ most_order) }
    ensures { Raised w (parts_sum whole a.now p m x.now k)
        (parts_sum rest a.now p m x.now k) v.old v.new }
{
    for j in 0..m {
        add_entry(a[p + j], x, k + j * Block::LINE, w, v);
    }
}

// The same for w lines at least: 4, 8 or 16 are taken, so that the compiler is told their number and writes the sums out.
pub fn add_columns(
    a: &[i32],
    p: usize,
    m: usize,
    x: &[i32; Block::CELLS],
    k: usize,
    w: usize,
    v: &mut [i32; Parts::BOTH],
)
    requires { Parting a.now p m x.now k v.old }
    ensures { Raised (together w) (parts_sum whole a.now p m x.now k)
        (parts_sum rest a.now p m x.now k) v.old v.new }
{
    if w <= 4 {
        add_entries(a, p, m, x, k, 4, v);
    } else if w <= 8 {
        add_entries(a, p, m, x, k, 8, v);
    } else {
        add_entries(a, p, m, x, k, Block::LINE, v);
    }
}
