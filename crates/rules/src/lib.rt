// The types of document 01: what a sheet and a block may hold, and what a call answers.
// The definitions of specs/ speak of these types; the crates above compute with them.
#![tactic(auto)]

ghost use Rattle.std.specs.Prelude.{◌≡◌};
ghost use Rattle.rules.specs.Answers.{refused};
ghost use Rattle.rules.specs.Results.{fault_number, side_number, refused_for, answered, count_answered, RuleGiven};

// A sheet: the numbers of one recipe. The limits of "Numbers and their bounds" that bound a sheet's numbers are named here. A
// call is lent a sheet as a slice, so the type has no fields.
#[derive(Clone, Copy)]
pub struct Sheet {}

impl Sheet {
    // An order is 1 to 16, a count of factors 1 to 32, a kind 1 to 4.
    pub const ORDER: i32 = 16;

    pub const COUNT: i32 = 32;

    pub const KIND: i32 = 4;

    // An entry e lies between -16384 and 16384, and means e/4096.
    pub const ENTRY: i32 = 16384;

    pub const UNIT: i32 = 4096;

    // A magnitude that is a multiple of this is a whole number.
    pub const WHOLE: usize = Self::UNIT as usize;

    // The longest sheet has 4386 numbers.
    pub const LONGEST: usize = 4386;

    // Room for one number of each factor.
    pub const FACTORS: usize = Self::COUNT as usize;
}

// A block: the numbers of one run. A call is lent a block as a slice, too.
#[derive(Clone, Copy)]
pub struct Block {}

impl Block {
    // A sample or coefficient lies between -16777215 and 16777215.
    pub const SAMPLE: i32 = 16777215;

    // An allowance, counted in 1/4096, is at most this.
    pub const ALLOWANCE: i32 = 67108863;

    // A line has room for as many numbers as the largest order, a rectangle for that many lines.
    pub const LINE: usize = Sheet::ORDER as usize;

    pub const CELLS: usize = Self::LINE * Self::LINE;
}

// The scales at which a sum is rounded: entries of a line count in 1/4096, products of two entries in 1/16777216. A shift to the
// right by so many bits divides by the scale, downward; with half a scale added before it to the nearest, with a scale less 1
// upward.
#[derive(Clone, Copy)]
pub struct Scale {}

impl Scale {
    pub const LINE: i64 = Sheet::UNIT as i64;

    pub const LINE_BITS: i64 = 12;

    pub const LINE_HALF: i64 = Self::LINE / 2;

    pub const LINE_UP: i64 = Self::LINE - 1;

    pub const JOINT: i64 = Self::LINE * Self::LINE;

    pub const JOINT_BITS: i64 = 24;

    pub const JOINT_HALF: i64 = Self::JOINT / 2;

    pub const JOINT_UP: i64 = Self::JOINT - 1;

    // A shift by one bit halves.
    pub const PAIR_BITS: i64 = 1;
}

// The four kinds of factor.
#[derive(Clone, Copy)]
pub enum Kind {
    Permutation,
    Lower,
    Upper,
    Single,
}

// The rule by which a sum is rounded: to the nearest whole number with halves upward, as document 01 has it; downward; to the
// nearest with halves to the even one.
#[derive(Clone, Copy)]
pub enum Rule {
    Nearest,
    Down,
    Even,
}

impl Rule {
    // What one rounding adds to an allowance, counted in 1/4096: to the nearest a half, downward a whole.
    pub const SHARE: i64 = 2048;

    pub const SHARE_DOWN: i64 = 2 * Self::SHARE;
}

// The rule of a number, or 16.
impl TryFrom<u32> for Rule {
    type Error = Refusal;

    ghost try_from_gives = { RuleGiven };

    #[tactic(auto, unfolding(crate::specs::Calls::rule_of))]
    fn try_from(number: u32) -> Result<Self, Refusal> {
        if number > 2 {
            return Err(Refusal::new(Fault::Rule, Side::First, 0));
        }
        match number {
            1 => Ok(Rule::Down),
            2 => Ok(Rule::Even),
            _ => Ok(Rule::Nearest),
        }
    }
}

// What a number of a sheet stands for: with a row or a place the order, and with a place where its permutation starts.
#[derive(Clone, Copy)]
pub enum Item {
    Order,
    Count,
    KindNumber,
    Row(usize),
    Place(usize, usize),
    Sign,
    Entry,
}

// What a call is refused for, with the number of each fault in "What comes back".
#[derive(Clone, Copy, Debug, PartialEq, Eq)]
pub enum Fault {
    // The sheet ends where a number is needed.
    Ended = 1,
    Order = 2,
    Count = 3,
    Kind = 4,
    // A row or a place that is not one of 0 to n - 1.
    Place = 5,
    // A place of a permutation that stands before.
    Repeated = 6,
    Sign = 7,
    Entry = 8,
    // Numbers are left after the last factor.
    Leftover = 9,
    // A slice has another length.
    Length = 10,
    // A sample or coefficient lies beyond the bound.
    Sample = 11,
    // Two sheets do not match.
    Mismatch = 12,
    // An allowance lies beyond its limit.
    Allowance = 13,
    // The bytes of a number are cut, too many, or not the shortest.
    Spelling = 14,
    // There is no room for what a call writes.
    Room = 15,
    // A number that is no rule's.
    Rule = 16,
}

impl Fault {
    pub fn number(self) -> u32
        ensures { result ≡ fault_number self }
    {
        self as u32
    }
}

// Which of two: the column sheet, the input; or the row sheet, the output.
#[derive(Clone, Copy, Debug, PartialEq, Eq)]
pub enum Side {
    First = 0,
    Second = 1,
}

impl Side {
    pub fn number(self) -> u32
        ensures { result ≡ side_number self }
    {
        self as u32
    }
}

// The first fault of a sheet, and where it stands there.
#[derive(Clone, Copy, Debug, PartialEq, Eq)]
pub struct Found {
    pub fault: Fault,
    pub place: usize,
}

// Why a call is refused, and where. The element is that of a block, counted row by row, whose number lies beyond the bound; it is
// 0 for every other fault.
#[derive(Clone, Copy, Debug, PartialEq, Eq)]
pub struct Refusal {
    pub fault: Fault,
    pub side: Side,
    pub place: u64,
    pub element: u64,
}

impl Refusal {
    // Refused for something else than an element.
    pub fn new(fault: Fault, side: Side, place: u64) -> Self
        ensures { refused_for result ≡ refused (fault_number fault) (side_number side) place }
    {
        Refusal {
            fault,
            side,
            place,
            element: 0,
        }
    }
}

// What a call answers in C: a refusal by its numbers, or number 0 and how much was written.
#[repr(C)]
#[derive(Clone, Copy)]
pub struct Answer {
    pub number: u32,
    pub side: u32,
    pub place: u64,
    pub element: u64,
}

impl From<Refusal> for Answer {
    ghost from_gives = { λ r a. a ≡ refused_for r };

    fn from(r: Refusal) -> Answer {
        Answer {
            number: r.fault.number(),
            side: r.side.number(),
            place: r.place,
            element: r.element,
        }
    }
}

// The answer of a call that gives nothing but what it writes.
impl From<Result<(), Refusal>> for Answer {
    ghost from_gives = { λ r a. a ≡ answered r };

    fn from(r: Result<(), Refusal>) -> Answer {
        Answer::from(r.map(|()| 0usize))
    }
}

// The answer of a call that counts what it writes.
impl From<Result<usize, Refusal>> for Answer {
    ghost from_gives = { λ r a. a ≡ count_answered r };

    fn from(r: Result<usize, Refusal>) -> Answer {
        match r {
            Ok(count) => Answer {
                number: 0,
                side: 0,
                place: count as u64,
                element: 0,
            },
            Err(refusal) => Answer::from(refusal),
        }
    }
}
