//! A map as a plan: where its alternatives stand after the symbols pressed.
#![tactic(auto)]

mod answer;
pub mod asked;
mod live;
pub mod places;
pub mod plan;

#[cfg(test)]
mod tests {
    use crate::plan::MapPlan;
    use digit_map::read::read_map;
    use keypad::key::{Mark, Symbol};
    use keypad::plan::Plan;
    use std::test::Fail;

    // Whether each key is taken in turn, and then: satisfied, settled, goes on; and the mark.
    fn told(text: &str, keys: &[Symbol]) -> Result<(bool, bool, bool, bool, Mark), Fail> {
        let mut plan = MapPlan::new(read_map(text.as_bytes())?);
        let mut taken = true;
        for key in keys {
            taken = plan.press(*key) && taken;
        }
        Ok((
            taken,
            plan.satisfied(),
            plan.settled(),
            plan.goes_on(),
            plan.timing(),
        ))
    }

    #[test]
    fn maps_walked(rt: HostRuntime) -> Result<(), Fail> {
        let [zero, one, two] = [Symbol::Plain(0), Symbol::Plain(1), Symbol::Plain(2)];
        let [eight, e, f] = [Symbol::Plain(8), Symbol::Plain(14), Symbol::Plain(15)];
        let sale = "T:20,S:4,(xxxx|xxxxExxF|E0S|E00|ZF)";
        let dotted = "(1x.2|7.L8)";
        let rows: [(&str, &str, &[Symbol], (bool, bool, bool, bool, Mark)); 7] = [
            (
                "no key yet",
                sale,
                &[],
                (true, false, false, true, Mark::Unmarked),
            ),
            (
                "held behind S",
                sale,
                &[e, zero],
                (true, true, false, true, Mark::Short),
            ),
            (
                "not held",
                sale,
                &[e, zero, zero],
                (true, true, true, false, Mark::Unmarked),
            ),
            (
                "a long key",
                sale,
                &[Symbol::Long(15)],
                (true, true, true, false, Mark::Unmarked),
            ),
            (
                "a key not long",
                sale,
                &[f],
                (false, false, false, true, Mark::Unmarked),
            ),
            (
                "a dot skipped",
                dotted,
                &[eight],
                (true, true, true, false, Mark::Long),
            ),
            (
                "a dot repeated",
                dotted,
                &[one, two, two],
                (true, true, true, true, Mark::Unmarked),
            ),
        ];
        for (name, text, keys, want) in rows {
            assert_eq!(rt; told(text, keys)?, want, "{}", name);
        }
        Ok(())
    }
}
