// The calls of the library, by their numbers in the stream and their names in second/cases.py.

ghost use Rattle.std.specs.Prelude.{IsSome, ◌↔◌, ◌≤◌};

// A call, or a law that a call is tried for.
#[derive(Clone, Copy, PartialEq, Eq)]
pub enum Call {
    Check = 1,
    Pair,
    Rest,
    Read,
    Write,
    BuiltIn,
    LineForward,
    LineInverse,
    LineAllowance,
    JointForward,
    JointInverse,
    JointAllowance,
    Program,
    LineLaw,
    JointLaw,
    FirstPrinting,
    LineStripForward,
    LineStripInverse,
    JointStripForward,
    JointStripInverse,
    TwoPassForward,
    TwoPassInverse,
    TwoPassAllowance,
    ColumnForward,
    ColumnInverse,
    RowForward,
    RowInverse,
    TwoPassLaw,
}

// How many there are.
pub const CALLS: usize = 28;

// All of them with their names. The first has number 1.
pub const NAMES: [(Call, &[u8]); CALLS] = [
    (Call::Check, b"check"),
    (Call::Pair, b"pair"),
    (Call::Rest, b"rest"),
    (Call::Read, b"read"),
    (Call::Write, b"write"),
    (Call::BuiltIn, b"built-in"),
    (Call::LineForward, b"line-forward"),
    (Call::LineInverse, b"line-inverse"),
    (Call::LineAllowance, b"line-allowance"),
    (Call::JointForward, b"joint-forward"),
    (Call::JointInverse, b"joint-inverse"),
    (Call::JointAllowance, b"joint-allowance"),
    (Call::Program, b"program"),
    (Call::LineLaw, b"line-law"),
    (Call::JointLaw, b"joint-law"),
    (Call::FirstPrinting, b"first-printing"),
    (Call::LineStripForward, b"line-strip-forward"),
    (Call::LineStripInverse, b"line-strip-inverse"),
    (Call::JointStripForward, b"joint-strip-forward"),
    (Call::JointStripInverse, b"joint-strip-inverse"),
    (Call::TwoPassForward, b"two-pass-forward"),
    (Call::TwoPassInverse, b"two-pass-inverse"),
    (Call::TwoPassAllowance, b"two-pass-allowance"),
    (Call::ColumnForward, b"column-forward"),
    (Call::ColumnInverse, b"column-inverse"),
    (Call::RowForward, b"row-forward"),
    (Call::RowInverse, b"row-inverse"),
    (Call::TwoPassLaw, b"two-pass-law"),
];

impl Call {
    // The call of a number.
    pub fn of(number: usize) -> Option<Call>
        ensures { IsSome result ↔ ((1 ≤ number) × (number ≤ 28)) }
    {
        let (call, _) = NAMES.get(number.checked_sub(1)?)?;
        Some(*call)
    }
}
