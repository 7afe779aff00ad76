use crate::descriptors::HERMITIAN_4;
use crate::rig::{Row, done, is_met, stopped};
use agcode_top::Status;
use std::test::Fail;

const CODEWORD: [u8; 8] = [1, 0, 0, 1, 2, 3, 1, 0];

#[test]
fn member_says_whether_a_word_is_in_the_code(rt: HostRuntime) -> Result<(), Fail> {
    let words: [[u8; 8]; 5] = [
        CODEWORD,
        [0, 1, 0, 1, 1, 0, 3, 2],
        [0, 0, 1, 1, 2, 2, 3, 3],
        [1; 8],
        [1, 2, 0, 3, 0, 3, 0, 3],
    ];
    for word in &words {
        let row = done("member D", HERMITIAN_4, word, b"codeword\n");
        assert!(rt; is_met(&rt, rt.alloc(), &row)?, "{word:?}");
    }
    // a word with three bytes that are not 0, and a byte that is no symbol
    let others: [[u8; 8]; 2] = [[1, 1, 1, 0, 0, 0, 0, 0], [5, 0, 0, 1, 2, 3, 1, 0]];
    for word in &others {
        let row = Row {
            status: Status::NotCodeword,
            ..done("member D", HERMITIAN_4, word, b"not a codeword\n")
        };
        assert!(rt; is_met(&rt, rt.alloc(), &row)?, "{word:?}");
    }
    Ok(())
}

#[test]
fn member_wants_a_whole_word(rt: HostRuntime) -> Result<(), Fail> {
    let alloc = rt.alloc();
    let cases: [(usize, u32); 4] = [(0, 0), (7, 7), (9, 9), (100, 9)];
    for (length, taken) in cases {
        let word = vec![in alloc; 0u8; length]?;
        let status = Status::WordLength { taken };
        let row = stopped("member D", HERMITIAN_4, &word, status, "word length\n");
        assert!(rt; is_met(&rt, alloc, &row)?, "{length}");
    }
    Ok(())
}
