use crate::bits::BitSet;
use crate::list::ArrayVec;

#[test]
fn one_member(rt: HostRuntime) {
    for (i, has_room) in [
        (0, true),
        (63, true),
        (64, true),
        (127, true),
        (128, false),
        (usize::MAX, false),
    ] {
        let mut set = BitSet::<2>::empty();
        assert_eq!(rt;
            (set.insert(i), set.has(i), set.count() == 1),
            (has_room, has_room, has_room)
        );
        let only = if has_room { Some(i) } else { None };
        assert_eq!(rt; (set.lowest(), set.highest()), (only, only));
        set.remove(i);
        assert!(rt; set.is_empty());
    }
}

#[test]
fn two_sets(rt: HostRuntime) {
    for (k, l) in [(0, 0), (3, 70), (70, 3), (64, 64), (128, 5), (500, 128)] {
        let (a, b) = (BitSet::<2>::below(k), BitSet::<2>::below(l));
        assert_eq!(rt; (a.contains_all(&b), a.meets(&b)), (l <= k, k.min(l) > 0));
        assert_eq!(rt; a.minus(&b).count(), k.min(128).saturating_sub(l));
        let between = BitSet::<2>::range(l, k);
        assert_eq!(rt;
            (between == a.minus(&b), between.lowest(), between.highest()),
            if l < k.min(128) {
                (true, Some(l), Some(k.min(128) - 1))
            } else {
                (true, None, None)
            }
        );
        let (more, less) = (BitSet::below(k.max(l)), BitSet::below(k.min(l)));
        assert_eq!(rt;
            (a.union(&b) == more, a.intersection(&b) == less),
            (true, true)
        );
    }
}

#[test]
fn list_fills_up(rt: HostRuntime) {
    let mut list = ArrayVec::<u32, 2>::new(9);
    assert!(rt; list.is_empty());
    for (x, answer, len) in [(5, Ok(()), 1), (6, Ok(()), 2), (7, Err(7), 2)] {
        assert_eq!(rt; (list.push(x), list.len()), (answer, len));
    }
    let copy = list;
    list.clear();
    assert!(rt; list.as_slice() == [].as_slice() && copy.as_slice() == [5, 6].as_slice());
    assert_eq!(rt; (copy.get(1), copy.get(2)), (Some(6), None));
}
