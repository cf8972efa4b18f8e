// Whether a sheet has no fault at all, and where its factors start. Which fault it has is not asked here, so the room of numbers
// in a row is compared once, and no number waits for the one before it. Most sheets have none: the readers go number by number
// only where the answer here is no. Each `end_of` answers the place after what it looked at, or None if that has a fault.
ghost use Rattle.std.specs.Prelude.{true, ◌≡◌, ◌+◌, ◌≤◌, length, IfSome};
ghost use Rattle.rules.specs.Numbers.{most_order, most_count, most_cells, count};
ghost use Rattle.rules.specs.Sheets.{◌then◌, times, one, weights, body, factor};
ghost use Rattle.laws.specs.Accepted.{Headed, Accepted};
ghost use Rattle.sheetread.specs.Starts.{Starts, FactorsMet};
ghost use Rattle.sheetcheck.specs.Quick.{Passes, EndsAt};

use rules::{Block, Item, Kind, Sheet};
use sheetread::factors::{count_at, kind_at, triangle_of};
use sheetread::faults::check_number;

// The place after the m numbers from place p on, if they stand there.
fn end_of_room(sheet: &[i32], m: usize, p: usize) -> Option<usize>
    ensures { IfSome result (λ end. (end ≡ p + m) × (end ≤ length sheet.now)) }
{
    let end = p.checked_add(m)?;
    (end <= sheet.len()).then_some(end)
}

// One number.
fn end_of_one(sheet: &[i32], what: Item, p: usize) -> Option<usize>
    ensures { EndsAt sheet.now (one sheet.now what p) result }
{
    if p >= sheet.len() {
        return None;
    }
    check_number(sheet, what, p).ok()?;
    Some(p + 1)
}

// Whether m numbers that stand from place p on, all of one meaning, have no fault. All are asked, also after a fault, which takes
// several numbers at a time. It is kept small, so that it is compiled into its callers, where the meaning is known: with the
// meaning asked for each number, the check of order 16 took six times as long.
fn are_fine(sheet: &[i32], what: Item, m: usize, p: usize) -> bool
    requires { p + m ≤ length sheet.now }
    ensures { result ≡ true
        → Passes sheet.now (times m (one sheet.now what) p) (p + m) }
{
    let mut fine = true;
    for k in 0..m {
        fine &= check_number(sheet, what, p + k).is_ok();
    }
    fine
}

// The next m numbers, all of one meaning.
fn end_of_many(sheet: &[i32], what: Item, m: usize, p: usize) -> Option<usize>
    ensures { EndsAt sheet.now (times m (one sheet.now what) p) result }
{
    let end = end_of_room(sheet, m, p)?;
    are_fine(sheet, what, m, p).then_some(end)
}

// The n places of a permutation. Each is marked when it is met, so that none is compared with all before it.
fn end_of_places(sheet: &[i32], n: usize, p: usize) -> Option<usize>
    requires { n ≤ most_order }
    ensures { EndsAt sheet.now (times n (one sheet.now (Item.Place n p)) p) result }
{
    let end = end_of_room(sheet, n, p)?;
    let mut used = [false; Block::LINE];
    for k in 0..n {
        check_number(sheet, Item::Row(n), p + k).ok()?;
        let place = count_at(sheet, p + k);
        if used[place] {
            return None;
        }
        used[place] = true;
    }
    Some(end)
}

// n signs, then m entries.
#[tactic(auto, unfolding(rules::specs::Sheets::weights))]
fn end_of_weights(sheet: &[i32], n: usize, m: usize, p: usize) -> Option<usize>
    ensures { EndsAt sheet.now (weights sheet.now n m p) result }
{
    let entries = end_of_many(sheet, Item::Sign, n, p)?;
    end_of_many(sheet, Item::Entry, m, entries)
}

// Kind 4: its row, n signs, then m entries.
fn end_of_single(sheet: &[i32], n: usize, m: usize, p: usize) -> Option<usize>
    ensures { EndsAt sheet.now
        (one sheet.now (Item.Row n) p then weights sheet.now n m) result }
{
    let signs = end_of_one(sheet, Item::Row(n), p)?;
    end_of_weights(sheet, n, m, signs)
}

// What follows the kind number, of any order. The two triangular kinds have an arm each: with one arm for both, here and for
// order 4, the check of five permutations of order 16 took 150 ns, not 131.
#[tactic(auto, unfolding(rules::specs::Sheets::body))]
fn end_of_body(sheet: &[i32], n: usize, kind: Kind, p: usize) -> Option<usize>
    requires { (1 ≤ n) × (n ≤ most_order) }
    ensures { EndsAt sheet.now (body sheet.now n kind p) result }
{
    match kind {
        Kind::Permutation => end_of_places(sheet, n, p),
        Kind::Lower => end_of_weights(sheet, n, triangle_of(n), p),
        Kind::Upper => end_of_weights(sheet, n, triangle_of(n), p),
        Kind::Single => end_of_single(sheet, n, n - 1, p),
    }
}

// The same, of order 4: the numbers are so few that the compiler, told how many, writes them out, and four places are compared
// faster than marked. With one function for all orders, the check of the built-in sheet took 70 ns, not 30.
#[tactic(auto, unfolding(rules::specs::Sheets::body, rules::specs::Sheets::triangle))]
fn end_of_body_of_four(sheet: &[i32], kind: Kind, p: usize) -> Option<usize>
    ensures { EndsAt sheet.now (body sheet.now 4 kind p) result }
{
    match kind {
        Kind::Permutation => end_of_many(sheet, Item::Place(4, p), 4, p),
        Kind::Lower => end_of_weights(sheet, 4, 6, p),
        Kind::Upper => end_of_weights(sheet, 4, 6, p),
        Kind::Single => end_of_single(sheet, 4, 3, p),
    }
}

// The factor whose kind number stands at i.
#[tactic(auto, unfolding(rules::specs::Sheets::factor))]
fn end_of_factor(sheet: &[i32], n: usize, i: usize) -> Option<usize>
    requires { (1 ≤ n) × (n ≤ most_order) }
    ensures { EndsAt sheet.now (factor sheet.now n i) result }
{
    let p = end_of_one(sheet, Item::KindNumber, i)?;
    let kind = kind_at(sheet, i);
    if n == 4 {
        end_of_body_of_four(sheet, kind, p)
    } else {
        end_of_body(sheet, n, kind, p)
    }
}

// All factors. Where each starts is written down as it is met, at its number.
fn end_of_factors(sheet: &[i32], starts: &mut [u16; Sheet::FACTORS]) -> Option<usize>
    requires { Headed sheet.now × (length starts.old ≡ most_count) }
    ensures { (length starts.new ≡ most_count)
        × IfSome result (λ i. FactorsMet sheet.now (count sheet.now 1) i starts.new) }
{
    let n = count_at(sheet, 0);
    let many = count_at(sheet, 1);
    let mut i = 2;
    for f in 0..many {
        starts[f] = i as u16;
        i = end_of_factor(sheet, n, i)?;
    }
    Some(i)
}

// The order and the count.
#[tactic(auto, unfolding(rules::specs::Sheets::head))]
fn end_of_head(sheet: &[i32]) -> Option<usize>
    ensures { IfSome result (λ _. Headed sheet.now) }
{
    let i = end_of_one(sheet, Item::Order, 0)?;
    end_of_one(sheet, Item::Count, i)
}

// Whether the sheet has no fault. If so, the table has the starts of its factors.
pub fn is_faultless(sheet: &[i32], starts: &mut [u16; Sheet::FACTORS]) -> bool
    requires { length starts.old ≡ most_count }
    ensures { (length starts.new ≡ most_count)
        × (result ≡ true → Accepted sheet.now × Starts sheet.now starts.new) }
{
    end_of_head(sheet).is_some() && end_of_factors(sheet, starts) == Some(sheet.len())
}
