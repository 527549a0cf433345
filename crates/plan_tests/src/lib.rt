//! Plans, and what they refuse, open and take, in tables.
#![tactic(auto)]

#[cfg(test)]
mod tests {
    use keypad::key::Symbol;
    use keypad::plan::Plan;
    use plans::coded::CodedPlan;
    use plans::lot::LotPlan;
    use plans::pair::PairPlan;
    use std::alloc::Global;
    use std::test::Fail;

    // The number with which a list of so many lots and a width are refused, or 0.
    fn lots_refused(heap: Global, count: usize, width: u8) -> Result<u8, Fail> {
        let lots = vec![in heap; 7; count]?;
        match LotPlan::new(lots, width) {
            Ok(_) => Ok(0),
            Err((refusal, _)) => Ok(refusal.number()),
        }
    }

    #[test]
    fn lot_makings(rt: HostRuntime) -> Result<(), Fail> {
        let rows = [
            ("no lots at all", 0, 1, 0),
            ("the widest", 1, 6, 0),
            ("no width", 1, 0, 62),
            ("too wide", 1, 7, 62),
            ("as many lots as may be", 4096, 3, 0),
            ("a lot too many", 4097, 3, 63),
            ("the width is tried first", 4097, 0, 62),
        ];
        for (name, count, width, want) in rows {
            assert_eq!(rt; lots_refused(rt.alloc(), count, width)?, want, "{}", name);
        }
        Ok(())
    }

    // The plan of these lots with so many digits.
    fn lots_of(heap: Global, lots: &[u32], width: u8) -> Result<LotPlan, Fail> {
        LotPlan::new(Vec::from_slice(heap, lots)?, width).map_err(|_| Fail::new("refused"))
    }

    // The lots 7, 42, 7 and 1000 with three digits.
    fn some_lots(heap: Global) -> Result<LotPlan, Fail> {
        lots_of(heap, &[7, 42, 7, 1000], 3)
    }

    // A plan of lots that admits nothing: its one number does not fit.
    fn no_lots(heap: Global) -> Result<LotPlan, Fail> {
        lots_of(heap, &[1000], 3)
    }

    // How many of the keys a plan takes before it refuses one, and whether it is satisfied then.
    fn keyed<P: Plan>(plan: &mut P, keys: &[u8]) -> (usize, bool) {
        plan.rewind();
        let taken = keys
            .iter()
            .take_while(|key| plan.press(Symbol::Plain(**key)))
            .count();
        (taken, plan.satisfied())
    }

    #[test]
    fn lot_rows(rt: HostRuntime) -> Result<(), Fail> {
        let mut plan = some_lots(rt.alloc())?;
        let rows = [
            ("leading zeros count", [0, 0, 7, 1], (3, true)),
            (
                "a number in the middle of the list",
                [0, 4, 2, 0],
                (3, true),
            ),
            (
                "a number that does not fit is not admitted",
                [1, 0, 0, 0],
                (0, false),
            ),
            ("no number begins so", [0, 5, 0, 0], (1, false)),
        ];
        for (name, keys, want) in rows {
            assert_eq!(rt; keyed(&mut plan, &keys), want, "{}", name);
        }
        plan.rewind();
        assert!(rt; !plan.open(Symbol::Long(0)), "a long key opens nothing");
        let mut none = no_lots(rt.alloc())?;
        assert_eq!(rt; keyed(&mut none, &[1]), (0, false), "no number fits");
        assert!(rt; !none.goes_on(), "nothing goes on");
        let mut twice = lots_of(rt.alloc(), &[42, 42], 2)?;
        assert_eq!(rt;
            keyed(&mut twice, &[4, 2, 4]),
            (2, true),
            "a number listed twice"
        );
        let mut bare = lots_of(rt.alloc(), &[], 1)?;
        assert_eq!(rt; keyed(&mut bare, &[0]), (0, false), "an empty list");
        assert!(rt; !bare.goes_on(), "an empty list does not go on");
        Ok(())
    }

    // The number with which a code is refused, or 0.
    fn code_refused(heap: Global, code: &[u8]) -> Result<u8, Fail> {
        let part = some_lots(heap)?;
        match CodedPlan::new(code, part) {
            Ok(_) => Ok(0),
            Err((refusal, _)) => Ok(refusal.number()),
        }
    }

    #[test]
    fn code_makings(rt: HostRuntime) -> Result<(), Fail> {
        let code = [1, 2, 3, 4, 5, 6, 7, 15, 16];
        let rows = [
            ("no key", 0, 0, 60),
            ("one key", 0, 1, 0),
            ("eight keys", 0, 8, 0),
            (
                "nine keys, one of them above 15: the length is tried first",
                0,
                9,
                60,
            ),
            ("a key above 15", 7, 9, 61),
        ];
        for (name, from, to, want) in rows {
            let Some(keys) = code.get(from..to) else {
                return Err(Fail::new("no such part of the keys"));
            };
            assert_eq!(rt; code_refused(rt.alloc(), keys)?, want, "{}", name);
        }
        Ok(())
    }

    #[test]
    fn pairs_and_codes(rt: HostRuntime) -> Result<(), Fail> {
        let mut pair = PairPlan::new(no_lots(rt.alloc())?, some_lots(rt.alloc())?);
        let both = keyed(&mut pair, &[0, 0, 7]);
        let (empty, full) = pair.into_parts();
        assert_eq!(rt; both, (3, true), "a pair has the entries of both");
        let mut barren = PairPlan::new(empty, no_lots(rt.alloc())?);
        let goes_on = barren.goes_on();
        let opened = keyed(&mut barren, &[0]);
        let (empty, _) = barren.into_parts();
        assert!(rt; !goes_on, "an empty pair does not go on");
        assert_eq!(rt; opened, (0, false), "nor does it open a key");
        assert_eq!(rt;
            behind_code(full, &[14, 5, 0, 4, 2])?,
            (5, true),
            "a code and then a lot"
        );
        assert_eq!(rt;
            behind_code(empty, &[14])?,
            (0, false),
            "a code over nothing opens nothing"
        );
        let barred = CodedPlan::new(&[14], no_lots(rt.alloc())?).map_err(|_| Fail::new("refused"))?;
        assert!(rt; !barred.goes_on(), "nor does it go on");
        Ok(())
    }

    // What the keys do to a plan behind the code E5.
    fn behind_code(part: LotPlan, keys: &[u8]) -> Result<(usize, bool), Fail> {
        let mut plan = CodedPlan::new(&[14, 5], part).map_err(|_| Fail::new("refused"))?;
        Ok(keyed(&mut plan, keys))
    }
}
