// Rolls, empty, partly used and full.
use crate::lent::{file_on_leaves, push_two};
use crate::samples::{SAMPLE, number_of};
use roll::Roll;
use std::process::Abort;

fn pushed(roll: &mut Roll<u32>, item: u32) -> bool {
    roll.push(item).is_ok()
}

// The roll holds these items, and nothing past them.
fn holds(rt: &impl Abort, roll: &Roll<u32>, items: &[u32], room: usize) {
    assert_eq!(rt; (roll.len(), roll.room()), (items.len(), room));
    for place in 0..=items.len() {
        assert_eq!(rt; roll.get(place).copied(), items.get(place).copied());
    }
    assert_eq!(rt; roll.get(usize::MAX).copied(), None);
}

#[test]
fn rolls(rt: HostRuntime) {
    let mut cells = [9; 2];
    let mut roll = Roll::new(&mut cells);
    for n in 0..4usize {
        let items = &[0, 1][0..n.min(2)];
        holds(&rt, &roll, items, 2 - items.len());
        assert_eq!(rt; roll.capacity(), 2);
        assert_eq!(rt; pushed(&mut roll, n as u32), n < 2);
    }
}

#[test]
fn rolls_of_no_cells(rt: HostRuntime) {
    let mut roll = Roll::new(&mut []);
    assert_eq!(rt; (pushed(&mut roll, 6), roll.capacity()), (false, 0));
    holds(&rt, &roll, &[], 0);
}

#[test]
fn lent_memory(rt: HostRuntime) {
    let mut cells = [9; 4];
    push_two(&mut cells[1..4], 4, 5);
    assert_eq!(rt; cells, [9, 4, 5, 9]);
    push_two(&mut cells[3..4], 6, 7);
    assert_eq!(rt; cells, [9, 4, 5, 6]);
    let mut bytes = [0x55u8; 162];
    assert_eq!(rt; number_of(file_on_leaves(&mut bytes[1..162], &SAMPLE)), 0);
    assert_eq!(rt;
        [bytes[0], bytes[1], bytes[160], bytes[161]],
        [0x55, 3, 0, 0x55]
    );
}
