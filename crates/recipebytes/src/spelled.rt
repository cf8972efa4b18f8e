// What a reader of one number gives back.
ghost use Rattle.std.specs.Prelude.{◌≤◌};

// The number that some bytes spell: how many bytes, and the code.
#[derive(Clone, Copy)]
pub struct Spelled {
    pub size: usize,
    pub code: u32,
    pub ghost some: { 1 ≤ size },
}
