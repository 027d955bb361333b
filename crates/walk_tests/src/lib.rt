// Tests of `expand_part` and `add_interactions`: both walks over all interactions of their sheet, which no call of the library makes.
#![tactic(auto)]

#[cfg(test)]
mod tests {
    use expand::Walk as Expansion;
    use graph_walk::Walk;
    use records::CheckedSheet;
    use records::interactions::Part;

    // The records are v, w, v w, 7 and w w. The constraint names w w; one interaction has count v and message w, the other count 7 and message v, v w.
    const WORDS: [u32; 41] = [
        1, 5, 1, 2, //
        1, 1, 0, 0, 0, //
        1, 1, 0, 0, 1, //
        9, 0, 1, 2, 0, //
        5, 7, 0, 0, 0, //
        9, 1, 1, 2, 0, //
        4, //
        1, 1, 0, 1, 1, //
        2, 1, 3, 2, 0, 2,
    ];

    // How many words of the pool are taken when a part of the interactions is expanded.
    fn words_taken(words: &[u32], part: Part) -> Option<usize> {
        let checked = sheet::check_sheet(words);
        let Ok(_) = checked else {
            return None;
        };
        let sheet = CheckedSheet { words };
        let mut work = [0u32; 4096];
        let mut pool = [0u32; 64];
        let records = sheet.num_records();
        if records > 32 {
            return None;
        }
        constraint_lists::clear_heads(&mut pool, records);
        let mut walk = Expansion::new(sheet, &mut work, &mut pool, 2 * records);
        match walk.expand_part(part) {
            Ok(()) => Some(walk.used()),
            Err(_) => None,
        }
    }

    // How many nodes the output holds when the interactions alone are added.
    fn nodes_added(words: &[u32]) -> Option<usize> {
        let mut scratch = [0u32; 8];
        let mut out = [0u32; 48];
        let checked = sheet::check_sheet(words);
        let Ok(head) = checked else {
            return None;
        };
        let sheet = CheckedSheet { words };
        let records = sheet.num_records();
        if records > 8 || head.words > 48 {
            return None;
        }
        let mut walk = Walk::new(sheet, &mut scratch[..records], &mut out, 0);
        walk.add_interactions();
        Some(walk.count())
    }

    // Ten words of the pool stand for the five records; a monomial takes two words and one for each variable.
    #[test]
    fn a_part_is_expanded(rt: HostRuntime) {
        assert_eq!(rt; words_taken(&WORDS, Part::Count), Some(15));
        assert_eq!(rt; words_taken(&WORDS, Part::Fields), Some(20));
    }

    // The square of w, which no interaction names, is no node.
    #[test]
    fn interactions_are_added(rt: HostRuntime) {
        assert_eq!(rt; nodes_added(&WORDS), Some(4));
    }
}
