// Strips of blocks.
ghost use Rattle.rules.specs.Calls.{line, joint, ruled};
ghost use Rattle.rules.specs.Strips.{GivesStrip, forward_strip, inverse_strip};

use rules::Answer;

#[unsafe(no_mangle)]
pub extern "C" fn bench_strip_forward(
    rule: u32,
    s: &[i32],
    x: &[i32],
    y: &mut [i32],
    bytes: &mut [u8],
) -> Answer
    ensures { GivesStrip result y.new bytes.new
        (ruled rule forward_strip (line s.now) x.now y.old bytes.old) }
{
    Answer::from(strip::line_forward(rule, s, x, y, bytes))
}

#[unsafe(no_mangle)]
pub extern "C" fn bench_strip_inverse(
    rule: u32,
    s: &[i32],
    x: &[i32],
    y: &mut [i32],
    bytes: &mut [u8],
) -> Answer
    ensures { GivesStrip result y.new bytes.new
        (ruled rule inverse_strip (line s.now) x.now y.old bytes.old) }
{
    Answer::from(strip::line_inverse(rule, s, x, y, bytes))
}

#[unsafe(no_mangle)]
pub extern "C" fn bench_rectangle_strip_forward(
    rule: u32,
    c: &[i32],
    r: &[i32],
    x: &[i32],
    y: &mut [i32],
    bytes: &mut [u8],
) -> Answer
    ensures { GivesStrip result y.new bytes.new
        (ruled rule forward_strip (joint c.now r.now)
        x.now y.old bytes.old) }
{
    Answer::from(strip::joint_forward(rule, c, r, x, y, bytes))
}

#[unsafe(no_mangle)]
pub extern "C" fn bench_rectangle_strip_inverse(
    rule: u32,
    c: &[i32],
    r: &[i32],
    x: &[i32],
    y: &mut [i32],
    bytes: &mut [u8],
) -> Answer
    ensures { GivesStrip result y.new bytes.new
        (ruled rule inverse_strip (joint c.now r.now)
        x.now y.old bytes.old) }
{
    Answer::from(strip::joint_inverse(rule, c, r, x, y, bytes))
}
