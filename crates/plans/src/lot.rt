ghost use Rattle.std.specs.Prelude.{◌^◌, ◌<◌, ◌≤◌, vec_len};

mod listed;
pub mod make;
pub mod plan;

// The lots of one width: each listed number that fits it is admitted by its writing, with leading zeros, and
// nothing else is. `taken` counts the digits pressed since the last rewind, which write `prefix`.
#[derive(Drop)]
pub struct LotPlan {
    lots: Vec<u32>,
    width: u8,
    taken: u8,
    prefix: u32,
    ghost few: { vec_len lots ≤ 4096 },
    ghost some: { 1 ≤ width },
    ghost narrow: { width ≤ 6 },
    ghost within: { taken ≤ width },
    ghost below: { prefix < 10 ^ taken },
}
