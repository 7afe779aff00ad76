//! Each line of the printed forms, byte for byte, and the numbers that lines are read as.

use crate::{
    LineBuf, beyond_line, changed_line, done_line, filled_line, line_end, lost_line, number_line,
    plain_line, plan_line, point_line, point1_line, point3_line, read_number, salvaged_line,
    stop_line, votes_line,
};

#[test]
fn lines_of_one_text(rt: HostRuntime) {
    let texts = [
        "codeword",
        "not a codeword",
        "framing",
        "word length",
        "usage: agcode COMMAND [OPTIONS] DESC",
        "too long",
        "descriptor not read",
        "input not read",
        "output not written",
        "no memory",
        "descriptor: nothing free",
    ];
    let mut buf = LineBuf::new();
    for text in texts {
        plain_line(&mut buf, text);
        let bytes = buf.bytes();
        assert_eq!(rt; bytes.len(), text.len() + 1);
        assert_eq!(rt; &bytes[..text.len()], text.as_bytes());
        assert_eq!(rt; bytes[text.len()], b'\n');
    }
}

#[test]
fn lines_with_numbers(rt: HostRuntime) {
    let mut buf = LineBuf::new();
    number_line(&mut buf, "n", 8);
    assert_eq!(rt; buf.bytes(), b"n 8\n".as_slice());
    number_line(&mut buf, "accepted bound", 5);
    assert_eq!(rt; buf.bytes(), b"accepted bound 5\n".as_slice());
    number_line(&mut buf, "ragged", 1);
    assert_eq!(rt; buf.bytes(), b"ragged 1\n".as_slice());
    number_line(&mut buf, "table refused at line", 18446744073709551615);
    assert_eq!(rt;
        buf.bytes(),
        b"table refused at line 18446744073709551615\n".as_slice()
    );
    point_line(&mut buf, 0, 255);
    assert_eq!(rt; buf.bytes(), b"[0, 255],\n".as_slice());
    votes_line(&mut buf, 6, 5, 2, 1);
    assert_eq!(rt; buf.bytes(), b"6 5 2 1\n".as_slice());
}

#[test]
fn lines_of_points(rt: HostRuntime) {
    let mut buf = LineBuf::new();
    point1_line(&mut buf, 255);
    assert_eq!(rt; buf.bytes(), b"[255],\n".as_slice());
    point3_line(&mut buf, 0, 7, 255);
    assert_eq!(rt; buf.bytes(), b"[0, 7, 255],\n".as_slice());
}

#[test]
fn lines_of_plans(rt: HostRuntime) {
    let mut buf = LineBuf::new();
    plan_line(&mut buf, "order weight", 5, 5, 5);
    assert_eq!(rt;
        buf.bytes(),
        b"order weight 5 checks 5 bound 5\n".as_slice()
    );
    plan_line(&mut buf, "improved pairs", 4294967295, 1024, 0);
    assert_eq!(rt;
        buf.bytes(),
        b"improved pairs 4294967295 checks 1024 bound 0\n".as_slice()
    );
    stop_line(&mut buf, 5, 4);
    assert_eq!(rt; buf.bytes(), b"stop 5 4\n".as_slice());
}

#[test]
fn lines_of_lost_words(rt: HostRuntime) {
    let mut buf = LineBuf::new();
    filled_line(&mut buf, 1023, 0x0f);
    assert_eq!(rt; buf.bytes(), b"filled 1023 0f\n".as_slice());
    lost_line(&mut buf, 4, 63);
    assert_eq!(rt; buf.bytes(), b"lost 4 63\n".as_slice());
    salvaged_line(&mut buf, 2000, 3, 1200, 18446744073709551615);
    assert_eq!(rt;
        buf.bytes(),
        b"salvaged bytes 2000 groups 3 changed 1200 lost 18446744073709551615\n".as_slice()
    );
}

#[test]
fn lines_of_decoding(rt: HostRuntime) {
    let mut buf = LineBuf::new();
    changed_line(&mut buf, 0, 1, 6, 0xff, 0x02);
    assert_eq!(rt; buf.bytes(), b"changed 0 1 6 ff 02\n".as_slice());
    changed_line(&mut buf, 1099511627775, 63, 1023, 0xa0, 0x9a);
    assert_eq!(rt;
        buf.bytes(),
        b"changed 1099511627775 63 1023 a0 9a\n".as_slice()
    );
    done_line(&mut buf, 2000, 3, 1200);
    assert_eq!(rt;
        buf.bytes(),
        b"done bytes 2000 groups 3 changed 1200\n".as_slice()
    );
    beyond_line(&mut buf, 4, 0);
    assert_eq!(rt; buf.bytes(), b"beyond 4 0\n".as_slice());
}

#[test]
#[tactic(auto, using(crate::proofs::Digits::twenty_digits))]
fn lines_of_pieces(rt: HostRuntime) {
    let mut buf = LineBuf::new();
    buf.word("relation");
    buf.word(" ");
    buf.number(3);
    buf.word(":");
    buf.number(10);
    buf.word(" ");
    buf.hex(0x0f);
    buf.end();
    assert_eq!(rt; buf.bytes(), b"relation 3:10 0f\n".as_slice());
    buf.clear();
    assert_eq!(rt; buf.bytes(), b"".as_slice());
}

#[test]
fn line_feeds(rt: HostRuntime) {
    assert_eq!(rt; line_end(b"ab\n\nc", 0), Some(2));
    assert_eq!(rt; line_end(b"ab\n\nc", 3), Some(3));
    assert_eq!(rt; line_end(b"ab\n\nc", 4), None);
    assert_eq!(rt; line_end(b"ab\n\nc", 9), None);
}

#[test]
fn numbers(rt: HostRuntime) {
    assert_eq!(rt; read_number(b"0"), Some(0));
    assert_eq!(rt; read_number(b"10"), Some(10));
    assert_eq!(rt;
        read_number(b"9999999999999999999"),
        Some(9999999999999999999)
    );
    for text in [
        b"".as_slice(),
        b"00",
        b"07",
        b"-1",
        b"+1",
        b" 1",
        b"1 ",
        b"0x1",
        b"10000000000000000000",
    ] {
        assert_eq!(rt; read_number(text), None);
    }
}
