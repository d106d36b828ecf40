use comparing::{
    Model, Order, Orders, PlainTask, Position, Random, Run, every_order, every_order_as, shaped,
};
use std::test::Fail;

// How many orders 0, 1, 2 .. positions have.
const COUNTS: [usize; 7] = [1, 1, 2, 6, 24, 120, 720];

// How many sheets are listed.
const LISTED: usize = 60;

// Whether each position below n stands in the order, and nothing else.
fn is_order_of(order: &Order, n: usize) -> bool {
    let positions = order.as_slice();
    positions.len() == n && (0..n).all(|x| positions.contains(&x))
}

fn are_different(orders: &[Order]) -> bool {
    (0..orders.len()).all(|k| {
        let mut behind = orders.iter().skip(k.saturating_add(1));
        let order = orders.get(k).map(|order| order.as_slice());
        behind.all(|other| Some(other.as_slice()) != order)
    })
}

// Whether the lists have the same orders, in the same sequence.
fn are_same(words: &[Order], bytes: &[Order<u8>]) -> bool {
    words.len() == bytes.len()
        && words.iter().zip(bytes.iter()).all(|(x, y)| {
            let widened = y.positions().iter().map(|p| usize::from(*p));
            widened.eq(x.as_slice().iter().copied())
        })
}

fn place(order: &Order, x: usize) -> Option<usize> {
    order.as_slice().iter().position(|y| *y == x)
}

// Whether all steps of the block but one have another of them next.
fn is_together(order: &Order, block: &Run) -> bool {
    let neighbours = order.as_slice().windows(2);
    let inside = neighbours.filter(|pair| pair.iter().all(|x| block.has(*x)));
    inside.count() == block.last.saturating_sub(block.first)
}

fn is_running(order: &Order, model: &Model) -> bool {
    model
        .ties()
        .iter()
        .all(|&(i, j)| place(order, i) < place(order, j))
        && model.blocks().iter().all(|block| is_together(order, block))
}

#[test]
fn positions_are_kept_up_to_the_highest(rt: HostRuntime) {
    for (x, as_byte) in [(0, 0), (6, 6), (255, 255), (256, 255), (300, 255)] {
        assert_eq!(rt; u8::saturating_from(x).number(), as_byte);
        assert_eq!(rt; usize::saturating_from(x).number(), x);
    }
}

#[test]
fn the_first_position_changes_first(rt: HostRuntime) {
    let expected: [[usize; 3]; 6] = [
        [0, 1, 2],
        [1, 0, 2],
        [2, 0, 1],
        [0, 2, 1],
        [1, 2, 0],
        [2, 1, 0],
    ];
    let every = every_order(3);
    assert_eq!(rt; every.len(), expected.len());
    for (order, positions) in every.as_slice().iter().zip(expected.iter()) {
        assert!(rt; order.as_slice() == positions.as_slice());
    }
}

#[test]
fn every_order_is_listed_once(rt: HostRuntime) {
    for (n, count) in COUNTS.iter().enumerate() {
        let every = every_order(n);
        assert_eq!(rt; every.len(), *count);
        assert!(rt; every.as_slice().iter().all(|order| is_order_of(order, n)));
        assert!(rt; are_different(every.as_slice()));
        assert!(rt; are_same(every.as_slice(), every_order_as(n).as_slice()));
    }
    // Of seven positions an order has room for six, and a list for 720 of the 5,040 orders.
    let cut = every_order(7);
    assert_eq!(rt; cut.len(), 720);
    assert!(rt;
        cut.as_slice()
            .iter()
            .all(|order| order.as_slice().len() == 6)
    );
    assert!(rt;
        cut.as_slice()
            .iter()
            .any(|order| order.as_slice().contains(&6))
    );
}

#[test]
fn running_orders_keep_ties_and_blocks(rt: HostRuntime) -> Result<(), Fail> {
    let mut random = Random { state: 7 };
    let mut some_are_grouped = false;
    for sheet in 0..LISTED {
        let steps = sheet % 6;
        let task = PlainTask::any(&mut random, steps, &|_: &mut Random| 1);
        let model = Model::read(&shaped(&mut random, &task, steps)?);
        some_are_grouped |= !model.blocks().is_empty();
        let running = Orders::of(&model);
        let every = every_order(steps);
        let expected = every
            .as_slice()
            .iter()
            .filter(|order| is_running(order, &model));
        assert!(rt;
            expected.map(|order| order.as_slice()).eq(
                running.all.as_slice().iter().map(|order| order.as_slice())
            )
        );
        assert!(rt;
            are_same(
                running.all.as_slice(),
                Orders::permitted_by(&model).all.as_slice()
            )
        );
    }
    assert!(rt; some_are_grouped);
    Ok(())
}
