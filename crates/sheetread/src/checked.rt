// A sheet without fault, and where its factors start.
ghost use Rattle.std.specs.Prelude.{◌≡◌, ◌<◌};
ghost use Rattle.rules.specs.Numbers.{count};
ghost use Rattle.rules.specs.Answers.{start};
ghost use Rattle.laws.specs.Accepted.{Accepted};
ghost use Rattle.sheetread.specs.Starts.{Starts};

use crate::factors::count_at;
use rules::Sheet;

// The numbers as they were lent. Only a kind tells how long its factor is, so where each factor starts was written down as the
// sheet was read. The law `accepted-read` says what such a sheet has.
#[derive(Clone, Copy)]
pub struct Checked<'a> {
    pub numbers: &'a [i32],
    pub starts: &'a [u16; Sheet::FACTORS],
    pub ghost faultless: { Accepted numbers.now },
    pub ghost started: { Starts numbers.now starts.now },
}

impl Checked<'_> {
    // How many numbers a line has.
    pub fn order(&self) -> usize
        ensures { result ≡ count self.now.numbers.now 0 }
    {
        count_at(self.numbers, 0)
    }

    // How many factors there are.
    pub fn many(&self) -> usize
        ensures { result ≡ count self.now.numbers.now 1 }
    {
        count_at(self.numbers, 1)
    }

    // Where factor f starts.
    pub fn start(&self, f: usize) -> usize
        requires { f < count self.now.numbers.now 1 }
        ensures { result ≡ start self.now.numbers.now f }
    {
        self.starts[f] as usize
    }
}
