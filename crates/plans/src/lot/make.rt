ghost use Rattle.std.specs.Prelude.{◌≡◌, MatchResult};
ghost use Rattle.plans.specs.Lots.{LotsMade, LotsRefused};
ghost use Rattle.plans.specs.LotPlans.{lot_whole, lot_rest};

use crate::lot::LotPlan;
use crate::refusal::Refusal;

const WIDEST: u8 = 6;

const MOST_LOTS: usize = 4096;

impl LotPlan {
    // A refusal hands the list back.
    pub fn new(lots: Vec<u32>, width: u8) -> Result<LotPlan, (Refusal, Vec<u32>)>
        ensures { MatchResult result (λ plan. LotsMade lots.items width (lot_whole plan) (lot_rest plan))
            (λ back. LotsRefused lots.items width back.0 × (back.1 ≡ lots)) }
    {
        if width == 0 || width > WIDEST {
            return Err((Refusal::Width, lots));
        }
        if lots.len() > MOST_LOTS {
            return Err((Refusal::Lots, lots));
        }
        Ok(LotPlan {
            lots,
            width,
            taken: 0,
            prefix: 0,
        })
    }
}
