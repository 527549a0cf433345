ghost use Rattle.std.specs.Prelude.{◌≡◌};

use key_record::call::Numbers;

// What a claim hands out: the line's number and its count of reports. It is spent by booking or waiving the
// report, and can be neither copied nor let go.
pub struct Receipt {
    numbers: Numbers,
}

impl Receipt {
    // The receipt with these numbers. Only the line hands one out, and only a list of calls presents one so.
    pub(crate) fn with(numbers: Numbers) -> Receipt
        ensures { result.numbers ≡ numbers }
    {
        Receipt { numbers }
    }

    pub fn numbers(&self) -> Numbers
        ensures { result ≡ self.now.numbers }
    {
        self.numbers
    }

    // Takes the receipt apart.
    pub(crate) fn spend(self) -> Numbers
        ensures { result ≡ self.numbers }
    {
        let Receipt { numbers } = self;
        numbers
    }
}
