// More texts at the edges of the rules of lines, each a row of a table.
use crate::texts::small;
use std::process::Abort;

// Each text is told as its row says.
fn tells(rt: &impl Abort, rows: &[(&str, (u8, usize, u8))]) {
    for (row, (text, told)) in rows.iter().enumerate() {
        assert_eq!(rt; (row, small(text.as_bytes())), (row, *told));
    }
}

#[cfg(test)]
mod tests {
    use super::*;

    // Counts of fields, and the fields of heads, opening values, houses and runs.
    #[test]
    fn fields(rt: HostRuntime) {
        tells(
            &rt,
            &[
                ("H,0\n", (12, 1, 0)),
                ("O,1\n", (12, 1, 0)),
                ("G,0,1,1\n", (12, 1, 0)),
                ("T,1,1\n", (12, 1, 0)),
                ("B,18446744073709551617,1,1\n", (14, 1, 2)),
                ("B,1,1,1\nO,0,1\nO,1,-1\nH,0,0\n", (0, 0, 0)),
                ("B,2,2,1\nH,-1,0\n", (14, 2, 2)),
                ("B,1,2,1\nH,0,0\nG,2,1\n", (14, 3, 2)),
                ("B,1,2,1\nH,0,1\nG,1,1\n", (0, 0, 0)),
                ("B,1,1,1\nH,0,0\nG,,1\n", (14, 3, 2)),
                ("B,1,1,1\nH,0,0\nG,-1,1\n", (14, 3, 2)),
                ("B,1,1,1\nH,0,0\nG,0,-1\n", (14, 3, 3)),
                ("B,1,1,1\nH,0,0\nG,0,\n", (14, 3, 3)),
            ],
        );
    }

    // The fields of order lines.
    #[test]
    fn orders(rt: HostRuntime) {
        tells(
            &rt,
            &[
                ("B,1,1,1\nH,0,0\nP\nA,1000000000000001\n", (14, 4, 2)),
                ("B,1,1,1\nH,0,0\nP\nN,-1000000000000001\n", (14, 4, 2)),
                ("B,1,1,1\nH,0,0\nP\nN,1000000000000001\n", (14, 4, 2)),
                ("B,1,1,1\nH,0,0\nP\nS,-1000000000000001\n", (14, 4, 2)),
                ("B,1,1,1\nH,0,0\nP\nT,00\n", (14, 4, 2)),
                ("B,1,1,1\nH,0,0\nP\nT,1\r\n", (14, 4, 2)),
                ("B,1,1,1\nH,0,0\nP\nT,63\nU,0\nW,0\n", (0, 0, 0)),
                ("B,1,1,1\nH,0,0\nP\nU,-1\n", (14, 4, 2)),
                ("B,1,1,1\nH,0,0\nP\nW,-1\n", (14, 4, 2)),
                (
                    "B,1,1,1\nH,0,0\nP\nS,1000000000000000\nS,-1000000000000000\nA,1000000000000000\nA,-1000000000000000\nN,1000000000000000\n",
                    (0, 0, 0),
                ),
            ],
        );
    }

    // Bytes above 127 in an order line.
    #[test]
    fn high_bytes(rt: HostRuntime) {
        assert_eq!(rt; small(b"B,1,1,1\nH,0,0\nP\nS,1\xe9\n"), (14, 4, 2));
        assert_eq!(rt; small(b"B,1,1,1\nH,0,0\nP\nT\xff,1\n"), (12, 4, 0));
    }
}
