// The runs of a rectangle.
ghost use Rattle.rules.specs.Calls.{Gives, joint, ruled, forward_call, inverse_call, allowance_call};

use rules::Answer;

#[unsafe(no_mangle)]
pub extern "C" fn bench_rectangle_forward(
    rule: u32,
    c: &[i32],
    r: &[i32],
    x: &[i32],
    y: &mut [i32],
) -> Answer
    ensures { Gives result y.new
        (ruled rule forward_call (joint c.now r.now) x.now y.old) }
{
    Answer::from(rectangle::forward(rule, c, r, x, y))
}

#[unsafe(no_mangle)]
pub extern "C" fn bench_rectangle_inverse(
    rule: u32,
    c: &[i32],
    r: &[i32],
    x: &[i32],
    y: &mut [i32],
) -> Answer
    ensures { Gives result y.new
        (ruled rule inverse_call (joint c.now r.now) x.now y.old) }
{
    Answer::from(rectangle::inverse(rule, c, r, x, y))
}

#[unsafe(no_mangle)]
pub extern "C" fn bench_rectangle_allowance(
    rule: u32,
    c: &[i32],
    r: &[i32],
    y: &mut [i32],
) -> Answer
    ensures { Gives result y.new (ruled rule allowance_call (joint c.now r.now)
        y.old) }
{
    Answer::from(rectangle::allowance(rule, c, r, y))
}
