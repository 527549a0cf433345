ghost use Rattle.std.specs.Prelude.{◌≡◌, ◌^◌, ◌≤◌};
ghost use Rattle.plans.specs.Writings.{WritingStands};

// The powers of ten by their exponent. They are looked up, since each search of a plan's lots asks for two of them.
const POWERS_OF_TEN: [u32; 7] = [1, 10, 100, 1_000, 10_000, 100_000, 1_000_000];

// The unit of the place behind which so many digits stand.
pub(crate) fn power_of_ten(places: u8) -> u32
    requires { places ≤ 6 }
    ensures { result ≡ 10 ^ places }
{
    POWERS_OF_TEN[usize::from(places)]
}

// A number's writing is the one list of so many digits that reads as the number.
// Nothing is done: what counts is the contract.
pub fn writing_stands() -> u8
    ensures { WritingStands }
{
    0
}
