// The same drafting takes a source that a customer writes.
use crate::copies::Copies;
use journal::PostingId;
use leaves::ClosedBook;
use posting::draft;

#[test]
fn copies(rt: HostRuntime) {
    let book = ClosedBook::open(&[]);
    let mut openings = [0; 64];
    openings[1] = 30;
    let source = Copies { times: 2 };
    let second = PostingId {
        house: 0,
        number: 2,
    };
    let drafted = draft(&source, &book, &openings, 0, second, 5);
    assert_eq!(rt; (drafted.void, drafted.hand, drafted.count), (false, 30, 1));
    assert_eq!(rt; (drafted.pairs[0].account, drafted.pairs[0].value), (2, 30));
    assert_eq!(rt; (drafted.reads[1], drafted.reads[2]), (true, false));
    let third = PostingId {
        house: 0,
        number: 3,
    };
    let beyond = draft(&source, &book, &openings, 0, third, 5);
    assert_eq!(rt;
        (beyond.void, beyond.hand, beyond.count, beyond.reads[1]),
        (true, 5, 0, false)
    );
}
