// The text that the program prints.
ghost use Rattle.printing.specs.Program.{printed};
ghost use Rattle.printing.specs.Stated.{Wrote};

#[unsafe(no_mangle)]
pub extern "C" fn bench_text_of(input: &[u8], out: &mut [u8]) -> usize
    ensures { Wrote out.old 0 (printed input.now) out.new result }
{
    session::text_of(input, out)
}
