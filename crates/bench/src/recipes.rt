// Recipe bytes, and the built-in recipe.
ghost use Rattle.rules.specs.Calls.{Gives, read, write, write_table, built_in, first_printing};

use rules::Answer;

#[unsafe(no_mangle)]
pub extern "C" fn bench_read(bytes: &[u8], out: &mut [i32]) -> Answer
    ensures { Gives result out.new (read bytes.now out.old) }
{
    Answer::from(recipe::read(bytes, out))
}

#[unsafe(no_mangle)]
pub extern "C" fn bench_write(s: &[i32], out: &mut [u8]) -> Answer
    ensures { Gives result out.new (write s.now out.old) }
{
    Answer::from(recipe::write(s, out))
}

#[unsafe(no_mangle)]
pub extern "C" fn bench_built_in(out: &mut [i32]) -> Answer
    ensures { Gives result out.new (write_table built_in out.old) }
{
    Answer::from(recipe::built_in(out))
}

#[unsafe(no_mangle)]
pub extern "C" fn bench_first_printing(out: &mut [i32]) -> Answer
    ensures { Gives result out.new (write_table first_printing out.old) }
{
    Answer::from(recipe::first_printing(out))
}
