// The check of standing orders, at its edges.
use posting::{StandingOrder, check_orders};

const GOOD: StandingOrder = StandingOrder {
    from: 63,
    to: 0,
    floor: -1_000_000_000_000_000,
    times: 4096,
};

fn told(orders: &[StandingOrder]) -> (u8, usize) {
    check_orders(orders)
        .err()
        .map_or((0, 0), |refusal| (u8::from(refusal), refusal.place()))
}

#[test]
fn counts(rt: HostRuntime) {
    assert_eq!(rt; told(&[]), (71, 0));
    assert_eq!(rt; told(&[GOOD]), (0, 0));
    assert_eq!(rt; told(&[GOOD; 16]), (0, 0));
    assert_eq!(rt; told(&[GOOD; 17]), (71, 0));
}

#[test]
fn records(rt: HostRuntime) {
    let mut orders = [GOOD; 3];
    orders[2].to = 64;
    assert_eq!(rt; told(&orders), (72, 2));
    orders[1].from = 64;
    assert_eq!(rt; told(&orders), (72, 1));
    orders[1] = GOOD;
    orders[1].times = 4097;
    assert_eq!(rt; told(&orders), (72, 1));
    orders[0].floor = 1_000_000_000_000_001;
    assert_eq!(rt; told(&orders), (72, 0));
}
