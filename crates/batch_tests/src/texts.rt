// Texts read by the batch reader, at the edges of every rule.
use batch::{OrderLine, Plan, Posting, Run};
use roll::Roll;

// What the reader tells of a text: number, line and field, or zeros if it is accepted.
fn told(
    text: &[u8],
    postings: &mut [Posting],
    lines: &mut [OrderLine],
    runs: &mut [Run],
) -> (u8, usize, u8) {
    let mut plan = Plan::blank();
    let mut postings = Roll::new(postings);
    let mut lines = Roll::new(lines);
    let mut runs = Roll::new(runs);
    batch::read_batch(text, &mut plan, &mut postings, &mut lines, &mut runs)
        .err()
        .map_or((0, 0, 0), |refusal| {
            (u8::from(refusal), refusal.line(), refusal.field())
        })
}

// Three sizes in three functions: of one function with the sizes as const parameters the check found no proof.

// Tables of 2 postings, 20 order lines and 2 runs.
pub(crate) fn small(text: &[u8]) -> (u8, usize, u8) {
    told(
        text,
        &mut [Posting { house: 0, first: 0 }; 2],
        &mut [OrderLine::Set(0); 20],
        &mut [Run {
            worker: 0,
            count: 1,
        }; 2],
    )
}

// Tables of 5,000 postings, 2,000 order lines and 9,000 runs.
fn large(text: &[u8]) -> (u8, usize, u8) {
    told(
        text,
        &mut [Posting { house: 0, first: 0 }; 5000],
        &mut [OrderLine::Set(0); 2000],
        &mut [Run {
            worker: 0,
            count: 1,
        }; 9000],
    )
}

// Tables of 200 postings, 2,000 order lines and 1,000 runs.
fn usual(text: &[u8]) -> (u8, usize, u8) {
    told(
        text,
        &mut [Posting { house: 0, first: 0 }; 200],
        &mut [OrderLine::Set(0); 2000],
        &mut [Run {
            worker: 0,
            count: 1,
        }; 1000],
    )
}

#[cfg(test)]
mod tests {
    use super::*;
    use std::test::Fail;

    // Sizes of the text, marks and counts of fields.
    #[test]
    fn sizes_and_forms(rt: HostRuntime) {
        assert_eq!(rt; small(b""), (11, 0, 0));
        assert_eq!(rt; small(b"\n"), (12, 1, 0));
        assert_eq!(rt; small(b"X\n"), (12, 1, 0));
        assert_eq!(rt; small(b"b,1,1,1\n"), (12, 1, 0));
        assert_eq!(rt; small(b"BB,1,1,1\n"), (12, 1, 0));
        assert_eq!(rt; small(b" B,1,1,1\n"), (12, 1, 0));
        assert_eq!(rt; small(b"B\n"), (12, 1, 0));
        assert_eq!(rt; small(b"B,1,1\n"), (12, 1, 0));
        assert_eq!(rt; small(b"B,1,1,1,\n"), (12, 1, 0));
        assert_eq!(rt; small(b"B,1,1,1,1\n"), (12, 1, 0));
        assert_eq!(rt; small(b"B,1,1,1,,,,,\n"), (12, 1, 0));
        assert_eq!(rt; small(b"B,1,1,1\n\nH,0,0\n"), (12, 2, 0));
        assert_eq!(rt; small(b"B,1,1,1\nH,0,0\nP,\n"), (12, 3, 0));
        assert_eq!(rt; small(b"B,1,1,1\nH,0,0\nP\nT\n"), (12, 4, 0));
        assert_eq!(rt; small(b"B,1,1,1\nH,0,0\nP\r\n"), (12, 3, 0));
        assert_eq!(rt; small(b"\xc3\xa9\n"), (12, 1, 0));
        assert_eq!(rt; small(b"\xff\n"), (12, 1, 0));
    }

    // Where marks may stand.
    #[test]
    fn places(rt: HostRuntime) {
        assert_eq!(rt; small(b"O,1,1\n"), (13, 1, 0));
        assert_eq!(rt; small(b"H,0,0\n"), (13, 1, 0));
        assert_eq!(rt; small(b"P\n"), (13, 1, 0));
        assert_eq!(rt; small(b"G,0,1\n"), (13, 1, 0));
        assert_eq!(rt; small(b"T,1\n"), (13, 1, 0));
        assert_eq!(rt; small(b"B,1,1,1\nB,1,1,1\n"), (13, 2, 0));
        assert_eq!(rt; small(b"B,1,1,1\nH,0,0\nO,1,1\n"), (13, 3, 0));
        assert_eq!(rt; small(b"B,1,1,1\nP\n"), (13, 2, 0));
        assert_eq!(rt; small(b"B,1,1,1\nG,0,1\n"), (13, 2, 0));
        assert_eq!(rt; small(b"B,1,1,1\nT,1\n"), (13, 2, 0));
        assert_eq!(rt; small(b"B,1,1,1\nH,0,0\nT,1\n"), (13, 3, 0));
        assert_eq!(rt; small(b"B,1,1,1\nH,0,0\nG,0,1\nP\n"), (13, 4, 0));
        assert_eq!(rt; small(b"B,1,1,1\nH,0,0\nG,0,1\nH,1,0\n"), (13, 4, 0));
        assert_eq!(rt; small(b"B,1,1,1\nH,0,0\nG,0,1\nT,1\n"), (13, 4, 0));
        assert_eq!(rt; small(b"B,1,1,1\nH,0,0\nP\nO,99,x\n"), (13, 4, 0));
        assert_eq!(rt;
            small(
                b"B,1,1,1\nH,0,0\nP\nT,1\nT,1\nT,1\nT,1\nT,1\nT,1\nT,1\nT,1\nT,1\nT,1\nT,1\nT,1\nT,1\nT,1\nT,1\nT,1\n",
            ),
            (0, 0, 0)
        );
        assert_eq!(rt;
            small(
                b"B,1,1,1\nH,0,0\nP\nT,1\nT,1\nT,1\nT,1\nT,1\nT,1\nT,1\nT,1\nT,1\nT,1\nT,1\nT,1\nT,1\nT,1\nT,1\nT,1\nT,1\n",
            ),
            (13, 20, 0)
        );
    }

    // The fields of the first line.
    #[test]
    fn head_fields(rt: HostRuntime) {
        assert_eq!(rt; small(b"B,0,1,1\n"), (14, 1, 2));
        assert_eq!(rt; small(b"B,17,1,1\n"), (14, 1, 2));
        assert_eq!(rt; small(b"B,1,0,1\n"), (14, 1, 3));
        assert_eq!(rt; small(b"B,1,9,1\n"), (14, 1, 3));
        assert_eq!(rt; small(b"B,1,1,0\n"), (14, 1, 4));
        assert_eq!(rt; small(b"B,1,1,1001\n"), (14, 1, 4));
        assert_eq!(rt; small(b"B,01,1,1\n"), (14, 1, 2));
        assert_eq!(rt; small(b"B,00,1,1\n"), (14, 1, 2));
        assert_eq!(rt; small(b"B,+1,1,1\n"), (14, 1, 2));
        assert_eq!(rt; small(b"B,-0,1,1\n"), (14, 1, 2));
        assert_eq!(rt; small(b"B,-1,1,1\n"), (14, 1, 2));
        assert_eq!(rt; small(b"B,,1,1\n"), (14, 1, 2));
        assert_eq!(rt; small(b"B,1,,1\n"), (14, 1, 3));
        assert_eq!(rt; small(b"B,1,1,\n"), (14, 1, 4));
        assert_eq!(rt; small(b"B,1,1,1\r\n"), (14, 1, 4));
        assert_eq!(rt; small(b"B, 1,1,1\n"), (14, 1, 2));
        assert_eq!(rt; small(b"B,1,1,\xb2\n"), (14, 1, 4));
        assert_eq!(rt; small(b"B,17,9,0\n"), (14, 1, 2));
    }

    // The fields of opening values.
    #[test]
    fn opening_fields(rt: HostRuntime) {
        assert_eq!(rt; small(b"B,1,1,1\nO,64,1\n"), (14, 2, 2));
        assert_eq!(rt; small(b"B,1,1,1\nO,-1,1\n"), (14, 2, 2));
        assert_eq!(rt; small(b"B,1,1,1\nO,3,5\nO,3,5\n"), (14, 3, 2));
        assert_eq!(rt; small(b"B,1,1,1\nO,3,5\nO,2,5\n"), (14, 3, 2));
        assert_eq!(rt; small(b"B,1,1,1\nO,3,5\nO,4,5\nH,0,0\n"), (0, 0, 0));
        assert_eq!(rt; small(b"B,1,1,1\nO,3,0\n"), (14, 2, 3));
        assert_eq!(rt; small(b"B,1,1,1\nO,3,-0\n"), (14, 2, 3));
        assert_eq!(rt; small(b"B,1,1,1\nO,3,-\n"), (14, 2, 3));
        assert_eq!(rt; small(b"B,1,1,1\nO,3,--1\n"), (14, 2, 3));
        assert_eq!(rt; small(b"B,1,1,1\nO,3,+1\n"), (14, 2, 3));
        assert_eq!(rt; small(b"B,1,1,1\nO,3,-01\n"), (14, 2, 3));
        assert_eq!(rt; small(b"B,1,1,1\nO,3,1000000000000001\n"), (14, 2, 3));
        assert_eq!(rt; small(b"B,1,1,1\nO,3,-1000000000000001\n"), (14, 2, 3));
        assert_eq!(rt;
            small(b"B,1,1,1\nO,0,1000000000000000\nO,63,-1000000000000000\nH,0,0\n"),
            (0, 0, 0)
        );
        assert_eq!(rt;
            small(
                b"B,1,1,1\nO,3,999999999999999999999999999999999999999999999999999999999999999999999999999999999999999999999999999999999999999999999999999999999999999999999999999999999999999999999999999999999999999999999999999999999999999999999999999999999999999999999999999999999999999999999999999999999999999999999999999999999999\n",
            ),
            (14, 2, 3)
        );
        assert_eq!(rt;
            small(
                b"B,1,1,1\nO,999999999999999999999999999999999999999999999999999999999999999999999999999999999999999999999999999999999999999999999999999999999999999999999999999999999999999999999999999999999999999999999999999999999999999999999999999999999999999999999999999999999999999999999999999999999999999999999999999999999999,1\n",
            ),
            (14, 2, 2)
        );
        assert_eq!(rt; small(b"B,1,1,1\nO,64,0\n"), (14, 2, 2));
    }

    // The fields of houses and runs.
    #[test]
    fn house_and_run_fields(rt: HostRuntime) {
        assert_eq!(rt; small(b"B,2,2,1\nH,1,0\n"), (14, 2, 2));
        assert_eq!(rt; small(b"B,2,2,1\nH,0,2\n"), (14, 2, 3));
        assert_eq!(rt; small(b"B,2,2,1\nH,0,-1\n"), (14, 2, 3));
        assert_eq!(rt; small(b"B,2,2,1\nH,0,1\nH,0,0\n"), (14, 3, 2));
        assert_eq!(rt; small(b"B,2,2,1\nH,0,1\nH,1,0\nH,2,0\n"), (14, 4, 2));
        assert_eq!(rt; small(b"B,1,1,1\nH,0,0\nH,1,0\n"), (14, 3, 2));
        assert_eq!(rt; small(b"B,2,2,1\nH,00,0\n"), (14, 2, 2));
        assert_eq!(rt; small(b"B,2,2,1\nH,0,\n"), (14, 2, 3));
        assert_eq!(rt; small(b"B,1,1,1\nH,0,0\nG,1,1\n"), (14, 3, 2));
        assert_eq!(rt; small(b"B,1,1,1\nH,0,0\nG,0,0\n"), (14, 3, 3));
        assert_eq!(rt; small(b"B,1,1,1\nH,0,0\nG,0,10001\n"), (14, 3, 3));
        assert_eq!(rt; small(b"B,1,1,1\nH,0,0\nG,0,10000\nG,0,1\n"), (0, 0, 0));
        assert_eq!(rt; small(b"B,1,1,1\nH,0,0\nG,-0,1\n"), (14, 3, 2));
        assert_eq!(rt; small(b"B,1,1,1\nH,0,0\nG,0,1\nG,0,1\nG,0,1\n"), (15, 5, 0));
        assert_eq!(rt; small(b"B,1,1,1\nH,0,0\nG,0,1\nG,0,1\nG,1,1\n"), (14, 5, 2));
    }

    // The fields of order lines.
    #[test]
    fn order_fields(rt: HostRuntime) {
        assert_eq!(rt; small(b"B,1,1,1\nH,0,0\nP\nT,64\n"), (14, 4, 2));
        assert_eq!(rt; small(b"B,1,1,1\nH,0,0\nP\nT,-1\n"), (14, 4, 2));
        assert_eq!(rt; small(b"B,1,1,1\nH,0,0\nP\nU,64\n"), (14, 4, 2));
        assert_eq!(rt; small(b"B,1,1,1\nH,0,0\nP\nW,64\n"), (14, 4, 2));
        assert_eq!(rt; small(b"B,1,1,1\nH,0,0\nP\nW,\n"), (14, 4, 2));
        assert_eq!(rt; small(b"B,1,1,1\nH,0,0\nP\nT,0\nU,63\nW,63\n"), (0, 0, 0));
        assert_eq!(rt;
            small(b"B,1,1,1\nH,0,0\nP\nS,0\nA,-1\nN,-1000000000000000\n"),
            (0, 0, 0)
        );
        assert_eq!(rt;
            small(b"B,1,1,1\nH,0,0\nP\nS,1000000000000001\n"),
            (14, 4, 2)
        );
        assert_eq!(rt;
            small(b"B,1,1,1\nH,0,0\nP\nA,-1000000000000001\n"),
            (14, 4, 2)
        );
        assert_eq!(rt; small(b"B,1,1,1\nH,0,0\nP\nN,-0\n"), (14, 4, 2));
        assert_eq!(rt; small(b"B,1,1,1\nH,0,0\nP\nS,00\n"), (14, 4, 2));
        assert_eq!(rt; small(b"B,1,1,1\nH,0,0\nP\nS,+1\n"), (14, 4, 2));
        assert_eq!(rt; small(b"B,1,1,1\nH,0,0\nP\nS,1.5\n"), (14, 4, 2));
    }

    // Full tables, and the end of the text.
    #[test]
    fn room_and_end(rt: HostRuntime) {
        assert_eq!(rt; small(b"B,1,1,1\nH,0,0\nP\nP\nP\n"), (15, 5, 0));
        assert_eq!(rt;
            small(
                b"B,1,1,1\nH,0,0\nP\nT,1\nT,1\nT,1\nT,1\nT,1\nT,1\nT,1\nT,1\nT,1\nT,1\nT,1\nT,1\nT,1\nT,1\nT,1\nT,1\nP\nT,1\nT,1\nT,1\nT,1\nT,1\n",
            ),
            (15, 25, 0)
        );
        assert_eq!(rt; small(b"B,1,1,1\nH,0,0\n"), (0, 0, 0));
        assert_eq!(rt; small(b"B,1,1,1\nH,0,0"), (16, 2, 0));
        assert_eq!(rt; small(b"B,1,1,1\n"), (16, 1, 0));
        assert_eq!(rt; small(b"B,1,1,1"), (16, 1, 0));
        assert_eq!(rt; small(b"B,2,1,1\nH,0,0\n"), (16, 2, 0));
        assert_eq!(rt; small(b"B,2,1,1\nH,0,0\nG,0,1\n"), (16, 3, 0));
        assert_eq!(rt; small(b"B,2,2,1\nH,0,0\nP\nT,3"), (16, 4, 0));
        assert_eq!(rt; small(b"B,1,1,1\nH,0,1"), (14, 2, 3));
        assert_eq!(rt; small(b"B,1,1,1\nH,0,0\nP\nP\nP"), (15, 5, 0));
        assert_eq!(rt; small(b"B,1,1,1000\nH,0,0\n"), (0, 0, 0));
        assert_eq!(rt; small(b"B,16,8,1\n"), (16, 1, 0));
    }

    // Sample batches.
    #[test]
    fn samples_1(rt: HostRuntime) {
        assert_eq!(rt; usual(b""), (11, 0, 0));
        assert_eq!(rt; usual(b"\n"), (12, 1, 0));
        assert_eq!(rt; usual(b"B"), (12, 1, 0));
        assert_eq!(rt; usual(b"B,1,1,1\nH,0,0\n"), (0, 0, 0));
        assert_eq!(rt; usual(b"B,1,1,1\n"), (16, 1, 0));
        assert_eq!(rt; usual(b"B,1,1,1\nG,0,1\n"), (13, 2, 0));
        assert_eq!(rt; usual(b"B,17,1,1\nH,0,0\n"), (14, 1, 2));
        assert_eq!(rt; usual(b"B,2,1,1\nH,0,0\nG,0,1\n"), (16, 3, 0));
        assert_eq!(rt; usual(b"B,2,1,1\nH,0,0\nG,0,1\nH,1,0\n"), (13, 4, 0));
        assert_eq!(rt; usual(b"B,1,1,1\nH,0,0\nH,1,0\n"), (14, 3, 2));
        assert_eq!(rt;
            usual(
                b"B,1,1,1\nH,0,0\nP\nA,0\nA,0\nA,0\nA,0\nA,0\nA,0\nA,0\nA,0\nA,0\nA,0\nA,0\nA,0\nA,0\nA,0\nA,0\nA,0\n",
            ),
            (0, 0, 0)
        );
        assert_eq!(rt;
            usual(
                b"B,1,1,1\nH,0,0\nP\nA,0\nA,0\nA,0\nA,0\nA,0\nA,0\nA,0\nA,0\nA,0\nA,0\nA,0\nA,0\nA,0\nA,0\nA,0\nA,0\nA,0\n",
            ),
            (13, 20, 0)
        );
    }

    // Sample batches.
    #[test]
    fn samples_2(rt: HostRuntime) {
        assert_eq!(rt;
            usual(
                b"B,1,1,1\nH,0,0\nP\nP\nP\nP\nP\nP\nP\nP\nP\nP\nP\nP\nP\nP\nP\nP\nP\nP\nP\nP\nP\nP\nP\nP\nP\nP\nP\nP\nP\nP\nP\nP\nP\nP\nP\nP\nP\nP\nP\nP\nP\nP\nP\nP\nP\nP\nP\nP\nP\nP\nP\nP\nP\nP\nP\nP\nP\nP\nP\nP\nP\nP\nP\nP\nP\nP\nP\nP\nP\nP\nP\nP\nP\nP\nP\nP\nP\nP\nP\nP\nP\nP\nP\nP\nP\nP\nP\nP\nP\nP\nP\nP\nP\nP\nP\nP\nP\nP\nP\nP\nP\nP\nP\nP\nP\nP\nP\nP\nP\nP\nP\nP\nP\nP\nP\nP\nP\nP\nP\nP\nP\nP\nP\nP\nP\nP\nP\nP\nP\nP\nP\nP\nP\nP\nP\nP\nP\nP\nP\nP\nP\nP\nP\nP\nP\nP\nP\nP\nP\nP\nP\nP\nP\nP\nP\nP\nP\nP\nP\nP\nP\nP\nP\nP\nP\nP\nP\nP\nP\nP\nP\nP\nP\nP\nP\nP\nP\nP\nP\nP\nP\nP\nP\nP\nP\nP\nP\nP\nP\nP\nP\nP\nP\nP\nP\nP\nP\nP\nP\nP\nG,0,10000\n",
            ),
            (0, 0, 0)
        );
        assert_eq!(rt;
            usual(
                b"B,1,1,1\nH,0,0\nP\nP\nP\nP\nP\nP\nP\nP\nP\nP\nP\nP\nP\nP\nP\nP\nP\nP\nP\nP\nP\nP\nP\nP\nP\nP\nP\nP\nP\nP\nP\nP\nP\nP\nP\nP\nP\nP\nP\nP\nP\nP\nP\nP\nP\nP\nP\nP\nP\nP\nP\nP\nP\nP\nP\nP\nP\nP\nP\nP\nP\nP\nP\nP\nP\nP\nP\nP\nP\nP\nP\nP\nP\nP\nP\nP\nP\nP\nP\nP\nP\nP\nP\nP\nP\nP\nP\nP\nP\nP\nP\nP\nP\nP\nP\nP\nP\nP\nP\nP\nP\nP\nP\nP\nP\nP\nP\nP\nP\nP\nP\nP\nP\nP\nP\nP\nP\nP\nP\nP\nP\nP\nP\nP\nP\nP\nP\nP\nP\nP\nP\nP\nP\nP\nP\nP\nP\nP\nP\nP\nP\nP\nP\nP\nP\nP\nP\nP\nP\nP\nP\nP\nP\nP\nP\nP\nP\nP\nP\nP\nP\nP\nP\nP\nP\nP\nP\nP\nP\nP\nP\nP\nP\nP\nP\nP\nP\nP\nP\nP\nP\nP\nP\nP\nP\nP\nP\nP\nP\nP\nP\nP\nP\nP\nP\nP\nP\nP\nP\nP\nP\n",
            ),
            (15, 203, 0)
        );
        assert_eq!(rt; usual(b"B,1,1,1\nO,3,0\nH,0,0\n"), (14, 2, 3));
        assert_eq!(rt; usual(b"B,1,1,1\nO,3,1\nO,3,1\nH,0,0\n"), (14, 3, 2));
        assert_eq!(rt;
            usual(
                b"B,1,1,1\nO,0,1\nO,1,1\nO,2,1\nO,3,1\nO,4,1\nO,5,1\nO,6,1\nO,7,1\nO,8,1\nO,9,1\nO,10,1\nO,11,1\nO,12,1\nO,13,1\nO,14,1\nO,15,1\nO,16,1\nO,17,1\nO,18,1\nO,19,1\nO,20,1\nO,21,1\nO,22,1\nO,23,1\nO,24,1\nO,25,1\nO,26,1\nO,27,1\nO,28,1\nO,29,1\nO,30,1\nO,31,1\nO,32,1\nO,33,1\nO,34,1\nO,35,1\nO,36,1\nO,37,1\nO,38,1\nO,39,1\nO,40,1\nO,41,1\nO,42,1\nO,43,1\nO,44,1\nO,45,1\nO,46,1\nO,47,1\nO,48,1\nO,49,1\nO,50,1\nO,51,1\nO,52,1\nO,53,1\nO,54,1\nO,55,1\nO,56,1\nO,57,1\nO,58,1\nO,59,1\nO,60,1\nO,61,1\nO,62,1\nO,63,1\nO,64,1\nH,0,0\n",
            ),
            (14, 66, 2)
        );
        assert_eq!(rt;
            usual(b"B,1,1,1\nO,1,1000000000000001\nH,0,0\n"),
            (14, 2, 3)
        );
        assert_eq!(rt;
            usual(
                b"B,1,1,1\nH,0,0\nP\nS,1000000000000000\nA,0\nW,1\nP\nS,1000000000000000\nA,1\nW,1\nG,0,20\n",
            ),
            (0, 0, 0)
        );
        assert_eq!(rt;
            usual(
                b"B,1,1,1\nH,0,0\nP\nS,-1\nN,0\nP\nN,0\nP\nS,1\nW,5\nS,2\nW,5\nP\nT,3\nW,7\nT,7\nG,0,40\n",
            ),
            (0, 0, 0)
        );
        assert_eq!(rt; usual(b"B,1,1,1\nH,0,0\nG,0,0\n"), (14, 3, 3));
        assert_eq!(rt; usual(b"B,1,1,1\nH,0,0\nG,0,10001\n"), (14, 3, 3));
        assert_eq!(rt; usual(b"B,1,1,1\nH,0,0\nG,1,1\n"), (14, 3, 2));
        assert_eq!(rt; usual(b"B,1,1,1\nH,0,1\n"), (14, 2, 3));
    }

    // Sample batches.
    #[test]
    fn samples_3(rt: HostRuntime) {
        assert_eq!(rt; usual(b"B,1,1,1\nH,0,0\nP\nQ,1\n"), (12, 4, 0));
        assert_eq!(rt; usual(b"B,1,1,1\nH,0,0\nb,1\n"), (12, 3, 0));
        assert_eq!(rt; usual(b"B,1,1,1\nH,0,0\nT,1\n"), (13, 3, 0));
        assert_eq!(rt; usual(b"B,1,1,1\nP\n"), (13, 2, 0));
        assert_eq!(rt; usual(b"B,1,1,1\nB,1,1,1\n"), (13, 2, 0));
        assert_eq!(rt; usual(b"H,0,0\n"), (13, 1, 0));
        assert_eq!(rt; usual(b"B,1,1,1\nH,0,0\nP\nS,-0\n"), (14, 4, 2));
        assert_eq!(rt; usual(b"B,1,1,1\nH,0,0\nP\nS,\n"), (14, 4, 2));
        assert_eq!(rt; usual(b"B,1,1,1\nH,0,0\nP\nS,-\n"), (14, 4, 2));
        assert_eq!(rt;
            usual(b"B,1,1,1\nH,0,0\nP\nS,99999999999999999999999999\n"),
            (14, 4, 2)
        );
        assert_eq!(rt;
            usual(b"B,1,1,1\nH,0,0\nP\nS,18446744073709551617\n"),
            (14, 4, 2)
        );
        assert_eq!(rt; usual(b"B,1,1,1\nH,00,0\n"), (14, 2, 2));
    }

    // Sample batches.
    #[test]
    fn samples_4(rt: HostRuntime) {
        assert_eq!(rt; usual(b"B,1,1,1\r\nH,0,0\r\n"), (14, 1, 4));
        assert_eq!(rt;
            usual(
                b"B,1,1,2\nH,0,0\nP\nT,1\nW,1\nT ,1\nN,-10000\nW,0\nT,1\nT,1\nU,1\nT,1\nW,1\nW,0\nA,-1000000000000000\nW,0\nW,1\nW,1\nU,0\nP\nP\nW,1\nT,1\nW,1\nW,1\nT,0\nW,1\nW,0\nN,7\nG,0,9\n",
            ),
            (12, 6, 0)
        );
        assert_eq!(rt;
            usual(
                b"B,2,1,1\nH,0,0\nP\nP\nT,0\nW,0\nT,0\nT,0\nT,0\nN,1\nW,0\nT,0\nW,0\nA,-1000000000000000\nT,0\nW,0\nT,0\nA,-1\nT,0\nU,0\nH,1,0\nP\nW,0\nW,0\nT,0\nW,0\nP\nU,0\nW,0\nP\nT,0\nU,0\nW,0\nU,0\nG,0,5\nG,+0,9\nG,0,3\nG,0,9\nG,0,2\nG,0,200\nG,0,200\nG,0,2\nG,0,2\nG,0,30\nG,0,1\nG,0,3\nG,0,9\nG,0,200\nG,0,1\nG,0,1\nG,0,9\nG,0,3\nG,0,1\nG,0,3\nG,0,5\nG,0,1\nG,0,1\nG,0,3\nG,0,3\nG,0,3\nG,0,30\nG,0,1\nG,0,5\nG,0,1\nG,0,200\nG,0,200\nG,0,2\nG,0,1\nG,0,5\nG,0,3\nG,0,30\nG,0,30\nG,0,5\nG,0,30\n",
            ),
            (14, 36, 2)
        );
        assert_eq!(rt;
            usual(
                b"B,5,1,1\nO,0,10000\nO,1,10000\nH,0,0\nP\nP\nP\nU,1\nT,1\nH,1,0\nH,2,0\nP\nS,999999999999999\nS,-1000000000000000\nT,1\nN,1000000000000000\nW,0\nP\nP\nU,0\nW,0\nW,1\nW,1\nH,3,0\nH,4,0\nP\nW,0\nP\nS,0\nP\nT,1\nP\nT,1\nW,0\nT ,0\nS,1\nS,0\nS,1000000000000000\nT,0\nT,0\nT,1\nW,1\nT,1\nN,7\nW,1\nT,1\nA,-10000\nT,1\nP\nA,-914961381008380\nS,1\nS,401901542081932\nN,-25\nU,0\nT,1\nN,999999999999999\nN,1\nU,1\nW,0\nW,0\nT,1\nS,7\nU,1\nW,0\nT,1\nP\nT,0\nW,0\nT,1\nW,0\nP\nT,0\nP\nT,1\nW,0\nG,0,3\nG,0,1\nG,0,30\nG,0,5\nG,0,2\n",
            ),
            (12, 35, 0)
        );
        assert_eq!(rt;
            usual(b"B,3,2,5\nO,0,5\nO,2,-25\nH,0,0\nP\nW,0\nW,3\n"),
            (16, 7, 0)
        );
        assert_eq!(rt;
            usual(
                b"B,1,2,5\nO,2,999999999999999\nH,0,1\nP\nT,2\nW,3\nW,2\nT,3\nA,-1\nP\nS,-25\nW,1\nW,0\nT,2\nS,10000\nN,0\nT,0\nT,0\nP\nG,0,9\n",
            ),
            (0, 0, 0)
        );
        assert_eq!(rt;
            usual(
                b"B,2,2,1\nO,0,999999999999999\nH,0,0\nP\nA,-25\nP\nT,0\nW,0\nT,0\nT,0\nT,0\nS,-25\nN,1\nN,-336293421940001\nN,0\nW,0\nW,0\nT,0\nT,0\nW,0\nN,999999999999999\nT,0\nP\nT,0\nU,0\nW,0\nS,7\nP\nU,0\nT,0\nW,0\nT,0\nT,0\nS,-471194480954956\nW,0\nW,0\nT,0\nW,0\nW,0\nW,0\nN,-1000000000000000\nT,0\nT,0\nU,0\nP\nT,0\nN,-25\nW,0\nN,563190975447814\nW,0\nP\nW,0\nT,0\nN,-979049655351139\nN,979164073970130\nP\nT,0\nU,0\nN,999999999999999\nT,0\nS,-1000000000000000\nP\nA,-10000\nW,0\nH,1,1\nP\nT,0\nW,0\nW,0\nW,0\n",
            ),
            (0, 0, 0)
        );
        assert_eq!(rt;
            usual(b"O,0,-1000000000000000\nH,-0,3\nG,5,2\n"),
            (13, 1, 0)
        );
        assert_eq!(rt;
            usual(
                b"B,3,2,5\nO,0,-1\nO,1,10000\nH,0,0\nH,1,0\nP\nP\nS,-1000000000000000\nH,2,0\nP\nT,0\nG,0,1\n",
            ),
            (0, 0, 0)
        );
        assert_eq!(rt;
            usual(
                b"B,2,3,2\nO,0,1000000000000000\nH,0,0\nP\nA,0\nT,0\nT,0\nW,0\nS,0\nP\nN,-10000\nT,0\nW,0\nW,1\nS,-25\nU,1\nT,1\nS,10000\nW,1\nT,1\nW,0\nN,1000000000000000\nW,0\nT,0\nT,1\nW,1\nP\nW,1\nW,1\nT,1\nN,0\nU,0\nS,10000\nU,0\nA,-976138548392689\nP\nU,0\nP\nU,0\nT,1\nT,1\nT,0\nT,1\nP\nW,0\nS,999999999999999\nP\nT,0\nN,1000000000000000\nT,1\nS,-1\nN,-25\nT,0\nT,0\nN,-1000000000000000\nW,1\nU,1\nS,1000000000000000\nT,1\nT,1\nN,3901398969844\nW,0\nW,1\nP\nH,1,1\nP\nS,-1000000000000000\nW,1\nT,1\nT,1\nG,2,200\nG,1,200\nG,2,5\nG,1,200\nG,1,200\n",
            ),
            (0, 0, 0)
        );
        assert_eq!(rt;
            usual(
                b"B,2,3,1\nH,0,2\nP\nU,0\nW,0\nA,0\nT,0\nT,0\nU,0\nW,0\nW,0\nP\nW,0\nW,0\nW,0\nN,10000\nH,1,0\nP\nA,7\nP\nT,0\nW,0\nT,0\nW,0\nS,10000\nP\nW,0\nP\nA,-1\nN,1\nW,0\nW,0\nP\nW,0\nW,0\nW,0\nW,0\nS,-25\nP\nW,0\nP\nA,0\nP\nW,0\nW,0\nA,999999999999999\nW,0\nT,0\nT,0\nT,0\nW,0\nG,0,3\nG,0,200\nG,1,1\nG,1,30\nG,1,3\nG,0,9\nG,1,9\nG,0,200\nG,0,5\nG,1,2\nG,1,3\nG,2,5\nG,2,2\nG,2,30\nG,1,5\nG,2,1\nG,1,30\nG,0,1\nG,0,3\nG,1,200\nG,0,3\nG,0,1\nG,2,1\nG,0,200\nG,1,2\nG,0,5\nG,1,1\nG,1,2\nG,2,1\nG,0,1\nG,0,30\nG,0,5\nG,1,30\nG,1,2\nG,2,30\nG,0,9\nG,2,30\nG,2,5\nG,0,3\nG,0,2\n",
            ),
            (0, 0, 0)
        );
        assert_eq!(rt;
            usual(
                b"B,3,8,1\nO,2,999999999999999\nO,7,1000000000000000\nO,11,5\nO,13,-1000000000000000\nO,14,-25\nO,17,-1\nO,23,10000\nO,27,-25\nO,32,10000\nO,39,-1000000000000000\nO,41,-10000\nO,47,1\nO,49,-768530550594065\nO,50,583899555140743\nO,53,999999999999999\nO,54,1000000000000000\nH,0,6\nP\nA,-25\nT,35\nH,1,5\nH,2,0\nP\nW,45\nN,1\nP\nT,15\nT,6\nN,0\nS,1\nT,20\n",
            ),
            (0, 0, 0)
        );
    }

    // Sample batches.
    #[test]
    fn samples_5(rt: HostRuntime) {
        assert_eq!(rt;
            usual(
                b"B,3,1,5\nO,1,-25\nH,0,0\nP\nT,1\nW,0\nT,0\nU,1\nW,1\nT,0\nT,0\nU,1\nS,-25\nW,1\nT,0\nT,1\nT,1\nW,0\nU,0\nW,1\nH,1,0\nP\nN,-1\nN,1000000000000000\nA,-1\nW,1\nA,1\nW,0\nW,0\nW,0\nW,1\nT,0\nS,1000000000000000\nT,1\nW,0\nA,-1000000000000000\nT,0\nS,999999999999999\nP\nU,1\nH,2,0\nP\nA,0\nP\nU,1\nT,0\nA,-1000000000000000\nU,0\nA,-10000\nW,0\nN,999999999999999\nA,7\nP\nN,0\nS,1\nW,1\nT,1\nS,-25\nT,0\nW,1\nU,1\nG,0,9\nG,0,9\nG,0,5\nG,0,30\nG,0,3\n",
            ),
            (0, 0, 0)
        );
        assert_eq!(rt; usual(b"B,2,1,5\n"), (16, 1, 0));
        assert_eq!(rt;
            usual(
                b"B,2,8,2\nO,1,7\nH,0,4\nP\nP\nT,3\nH,1,3\nP\nW,0\nW,3\nT,2\nW,1\nS,10000\nW,0\nN,1000000000000000\nW,3\nT,3\nU,2\nS,999999999999999\nW,0\nW,2\nU,1\nT,3\nW,0\nP\nT,2\nT,0\nN,7\nA,-1000000000000000\n",
            ),
            (0, 0, 0)
        );
    }

    // 4,096 postings of a house pass, one more does not.
    #[test]
    fn many_postings(rt: HostRuntime) -> Result<(), Fail> {
        let mut text = Vec::new(rt.alloc());
        text.extend_from_slice(b"B,1,1,1\nH,0,0\n")?;
        for _ in 0..4096 {
            text.extend_from_slice(b"P\n")?;
        }
        assert_eq!(rt; large(&text), (0, 0, 0));
        text.extend_from_slice(b"P\n")?;
        assert_eq!(rt; large(&text), (13, 4099, 0));
        Ok(())
    }

    // 32,768 bytes pass, one more does not.
    #[test]
    fn many_bytes(rt: HostRuntime) -> Result<(), Fail> {
        let mut text = Vec::new(rt.alloc());
        text.extend_from_slice(b"B,1,1,1\nH,0,0\n")?;
        for _ in 0..5459 {
            text.extend_from_slice(b"G,0,1\n")?;
        }
        assert_eq!(rt; large(&text), (0, 0, 0));
        assert!(rt; text.len() == 32_768);
        text.extend_from_slice(b"G")?;
        assert_eq!(rt; large(&text), (11, 0, 0));
        Ok(())
    }

    // What an accepted batch leaves in the plan and the tables, and what a refused one leaves of them.
    #[test]
    fn filled(rt: HostRuntime) {
        let mut plan = Plan::blank();
        let mut cells = [Posting { house: 9, first: 9 }; 3];
        let mut orders = [OrderLine::Set(9); 3];
        let mut turns = [Run {
            worker: 9,
            count: 9,
        }; 2];
        let mut postings = Roll::new(&mut cells);
        let mut lines = Roll::new(&mut orders);
        let mut runs = Roll::new(&mut turns);
        assert!(rt;
            batch::read_batch(
                b"B,2,2,7\nO,3,50\nH,0,1\nP\nT,3\nP\nH,1,0\nP\nW,5\nG,1,4\n",
                &mut plan,
                &mut postings,
                &mut lines,
                &mut runs,
            )
            .is_ok()
        );
        assert!(rt;
            batch::read_batch(
                b"B,1,1,1\nH,0,0\nP\nP\nP\nP\n",
                &mut plan,
                &mut postings,
                &mut lines,
                &mut runs,
            )
            .is_err()
        );
        assert_eq!(rt; (plan.houses(), plan.workers(), plan.patience()), (2, 2, 7));
        assert_eq!(rt;
            (plan.keeper(0), plan.keeper(1), plan.keeper(2)),
            (Some(1), Some(0), None)
        );
        assert_eq!(rt; (plan.openings()[2], plan.openings()[3]), (0, 50));
        assert_eq!(rt; (postings.len(), lines.len(), runs.len()), (3, 2, 1));
        assert!(rt;
            batch::read_batch(
                b"B,1,1,1\nH,0,0\n",
                &mut plan,
                &mut postings,
                &mut lines,
                &mut runs,
            )
            .is_ok()
        );
        assert_eq!(rt;
            (plan.houses(), plan.openings()[3], postings.len()),
            (1, 0, 0)
        );
    }
}
