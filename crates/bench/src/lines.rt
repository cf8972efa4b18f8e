// The runs of a line.
ghost use Rattle.rules.specs.Calls.{Gives, line, ruled, forward_call, inverse_call, allowance_call};

use rules::Answer;

#[unsafe(no_mangle)]
pub extern "C" fn bench_forward(rule: u32, s: &[i32], x: &[i32], y: &mut [i32]) -> Answer
    ensures { Gives result y.new (ruled rule forward_call (line s.now) x.now
        y.old) }
{
    Answer::from(line::forward(rule, s, x, y))
}

#[unsafe(no_mangle)]
pub extern "C" fn bench_inverse(rule: u32, s: &[i32], x: &[i32], y: &mut [i32]) -> Answer
    ensures { Gives result y.new (ruled rule inverse_call (line s.now) x.now
        y.old) }
{
    Answer::from(line::inverse(rule, s, x, y))
}

#[unsafe(no_mangle)]
pub extern "C" fn bench_allowance(rule: u32, s: &[i32], y: &mut [i32]) -> Answer
    ensures { Gives result y.new (ruled rule allowance_call (line s.now) y.old) }
{
    Answer::from(line::allowance(rule, s, y))
}
