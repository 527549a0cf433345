//! Texts and what reading them answers, in tables.
#![tactic(auto)]

#[cfg(test)]
mod tests {
    use digit_map::node::Node;
    use digit_map::read::{read_into, read_map};
    use std::test::Fail;

    // The numbers of a text's fault: cause, offset and alternative; 0 three times where it has none.
    fn fault(text: &str) -> (u8, usize, u8) {
        match read_map(text.as_bytes()) {
            Ok(_) => (0, 0, 0),
            Err(fault) => (fault.cause.number(), fault.offset, fault.alternative),
        }
    }

    #[test]
    fn sale_cases(rt: HostRuntime) {
        let rows = [
            (
                "the sale's own map",
                "T:20,S:4,(xxxx|xxxxExxF|E0S|E00|ZF)",
                (0, 0, 0),
            ),
            ("an alternative is missing", "(1|)", (3, 3, 2)),
            ("a range falls", "[7-3]", (4, 0, 1)),
            ("no key is needed", "x.", (6, 0, 1)),
            ("a dot stands behind a mark", "1S.2", (5, 2, 1)),
            (
                "a field stands before one it has to follow",
                "S:4,T:9,1",
                (2, 4, 0),
            ),
            ("a blank stands next to no joint", "1 2", (3, 1, 1)),
        ];
        for (name, text, want) in rows {
            assert_eq!(rt; fault(text), want, "{}", name);
        }
    }

    #[test]
    fn fields(rt: HostRuntime) {
        let rows = [
            ("a field behind a Z", "ZS:4,1", (2, 1, 0)),
            (
                "a field behind a key, with a blank before its colon",
                "1S :4,2",
                (2, 1, 0),
            ),
            ("a field behind the bracket", "(1)S:4,", (2, 3, 0)),
            ("a field inside a field", "T:9S:4,1", (2, 0, 0)),
            ("a blank before the colon in the head", "T :9,1", (3, 1, 1)),
            ("a T without a colon", "T1", (3, 0, 1)),
            ("nothing behind the head", "T:9,", (3, 4, 1)),
            ("two zeros", "S:00,1", (2, 0, 0)),
            ("T may be 0", "T:00,1", (0, 0, 0)),
            ("a third digit", "L:100,1", (2, 0, 0)),
            ("the same field twice", "T:1,T:2,1", (2, 4, 0)),
        ];
        for (name, text, want) in rows {
            assert_eq!(rt; fault(text), want, "{}", name);
        }
    }

    #[test]
    fn alternatives(rt: HostRuntime) {
        let rows = [
            ("a blank behind a Z comes first", "Z S", (3, 1, 1)),
            ("a Z before a dot", "Z.", (5, 0, 1)),
            ("a Z at the end", "(1Z", (5, 2, 1)),
            ("a Z behind the bracket", "(1)Z", (3, 3, 1)),
            (
                "no key is needed before a bar without brackets",
                "x.|1",
                (6, 0, 1),
            ),
            ("the end inside brackets", "(x.", (3, 3, 1)),
            ("two dots", "1..", (5, 2, 1)),
            ("a dot behind the bracket", "(1).", (5, 3, 1)),
            (
                "blanks next to a comma that may not stand there",
                "1 ,2",
                (3, 2, 1),
            ),
            ("a blank at the end", "1 ", (3, 1, 1)),
            ("a bar without brackets", "1|2", (3, 1, 1)),
            ("a key behind the bracket", "(1|2)3", (3, 5, 2)),
            ("a closing square bracket alone", "1]", (3, 1, 1)),
            ("a letter with a colon in a set", "[1S:4]", (4, 0, 1)),
        ];
        for (name, text, want) in rows {
            assert_eq!(rt; fault(text), want, "{}", name);
        }
    }

    // Whether a place awaits these keys.
    fn awaits(node: Option<Node>, keys: u16, long: bool, dotted: bool) -> bool {
        node.and_then(|node| node.awaits).is_some_and(|position| {
            position.keys == keys && position.long == long && position.dotted == dotted
        })
    }

    #[test]
    fn places(rt: HostRuntime) -> Result<(), Fail> {
        let map = read_map(b"s:7,(Z[a1-3].2S|x)")?;
        assert_eq!(rt; map.timers().short, 7);
        assert_eq!(rt; (map.len(), map.positions(), map.alternatives()), (5, 3, 2));
        assert!(rt;
            awaits(map.place(0), 0b100_0000_1110, true, true),
            "the set is long and dotted"
        );
        assert!(rt;
            awaits(map.place(1), 0b100, false, false),
            "the key 2 is neither"
        );
        assert!(rt;
            awaits(map.place(3), 0x3ff, false, false),
            "x has the digits"
        );
        assert!(rt; map.place(5).is_none(), "there is no sixth place");
        Ok(())
    }

    #[test]
    fn refused_text_leaves_the_place(rt: HostRuntime) -> Result<(), Fail> {
        let mut map = read_map(b"T:1,5")?;
        assert!(rt; read_into(&mut map, b"T:2,").is_err());
        assert_eq!(rt; map.timers().start, 1);
        assert!(rt; read_into(&mut map, b"T:3,6").is_ok());
        assert_eq!(rt; map.timers().start, 3);
        Ok(())
    }
}
