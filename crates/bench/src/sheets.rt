// Checks of sheets.
ghost use Rattle.std.specs.Prelude.{List, ◌≡◌, ℤ, length};
ghost use Rattle.std.specs.Borrow.{Bor};
ghost use Rattle.rules.specs.Answers.{checked, pair_checked, IsRest};

use rules::Answer;

#[unsafe(no_mangle)]
pub extern "C" fn bench_check(s: &[i32]) -> Answer
    ensures { result ≡ checked s.now }
{
    Answer::from(sheet::check(s))
}

#[unsafe(no_mangle)]
pub extern "C" fn bench_check_pair(c: &[i32], r: &[i32]) -> Answer
    ensures { result ≡ pair_checked c.now r.now }
{
    Answer::from(sheet::check_pair(c, r))
}

// An exported function returns no reference, so this answers how long the part is.
#[unsafe(no_mangle)]
pub extern "C" fn bench_rest<'a>(c: &'a [i32], r: &'a [i32]) -> usize
    ensures { (part : Bor (List ℤ)) × IsRest part c.entry r.entry × (result ≡ length part.now) }
{
    sheet::rest(c, r).len()
}
