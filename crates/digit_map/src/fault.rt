ghost use Rattle.std.specs.Prelude.{◌≡◌};
ghost use Rattle.digit_map.specs.Faults.{cause_number};

// Why a text is no map, in the order of their numbers: it is empty or too long; a head field is misplaced,
// repeated, ill-formed or 0 where that is not allowed; a byte, the text's end or a run of blanks is not
// allowed where it stands; a set is empty, unclosed, falling or has another byte; a dot is not behind a
// position, or a Z not before one; an alternative needs no key; there is a position or an alternative too
// many.
#[derive(Clone, Copy, PartialEq, Eq, Debug)]
pub enum Cause {
    Length = 1,
    Head,
    Byte,
    Set,
    Affix,
    Keyless,
    Excess,
}

impl Cause {
    pub fn number(self) -> u8
        ensures { result ≡ cause_number self }
    {
        self as u8
    }
}

// The first fault of a text: its cause, its offset in bytes from 0, and the alternative being read, which is
// 1 plus the bars passed, or 0 for a fault of the length or the head.
#[derive(Clone, Copy, PartialEq, Eq, Debug)]
pub struct Fault {
    pub cause: Cause,
    pub offset: usize,
    pub alternative: u8,
}
