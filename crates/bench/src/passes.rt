// The runs of two passes, and of a pass alone.
ghost use Rattle.rules.specs.Calls.{Gives, two_pass, column_pass, row_pass, ruled, forward_call, inverse_call, allowance_call};

use rules::Answer;

#[unsafe(no_mangle)]
pub extern "C" fn bench_two_pass_forward(
    rule: u32,
    c: &[i32],
    r: &[i32],
    x: &[i32],
    y: &mut [i32],
) -> Answer
    ensures { Gives result y.new
        (ruled rule forward_call (two_pass c.now r.now) x.now y.old) }
{
    Answer::from(twopass::forward(rule, c, r, x, y))
}

#[unsafe(no_mangle)]
pub extern "C" fn bench_two_pass_inverse(
    rule: u32,
    c: &[i32],
    r: &[i32],
    x: &[i32],
    y: &mut [i32],
) -> Answer
    ensures { Gives result y.new
        (ruled rule inverse_call (two_pass c.now r.now) x.now y.old) }
{
    Answer::from(twopass::inverse(rule, c, r, x, y))
}

#[unsafe(no_mangle)]
pub extern "C" fn bench_two_pass_allowance(rule: u32, c: &[i32], r: &[i32], y: &mut [i32]) -> Answer
    ensures { Gives result y.new (ruled rule allowance_call (two_pass c.now r.now)
        y.old) }
{
    Answer::from(twopass::allowance(rule, c, r, y))
}

#[unsafe(no_mangle)]
pub extern "C" fn bench_column_forward(
    rule: u32,
    s: &[i32],
    other: u32,
    x: &[i32],
    y: &mut [i32],
) -> Answer
    ensures { Gives result y.new
        (ruled rule forward_call (column_pass s.now other) x.now y.old) }
{
    Answer::from(twopass::column_forward(rule, s, other, x, y))
}

#[unsafe(no_mangle)]
pub extern "C" fn bench_column_inverse(
    rule: u32,
    s: &[i32],
    other: u32,
    x: &[i32],
    y: &mut [i32],
) -> Answer
    ensures { Gives result y.new
        (ruled rule inverse_call (column_pass s.now other) x.now y.old) }
{
    Answer::from(twopass::column_inverse(rule, s, other, x, y))
}

#[unsafe(no_mangle)]
pub extern "C" fn bench_row_forward(
    rule: u32,
    s: &[i32],
    other: u32,
    x: &[i32],
    y: &mut [i32],
) -> Answer
    ensures { Gives result y.new
        (ruled rule forward_call (row_pass s.now other) x.now y.old) }
{
    Answer::from(twopass::row_forward(rule, s, other, x, y))
}

#[unsafe(no_mangle)]
pub extern "C" fn bench_row_inverse(
    rule: u32,
    s: &[i32],
    other: u32,
    x: &[i32],
    y: &mut [i32],
) -> Answer
    ensures { Gives result y.new
        (ruled rule inverse_call (row_pass s.now other) x.now y.old) }
{
    Answer::from(twopass::row_inverse(rule, s, other, x, y))
}
