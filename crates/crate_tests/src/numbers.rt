//! Numbers as text, at the ends of what they may be; and a list that gives its items back.
use std::test::Fail;
use tc_lists::{Seq, append_integer, append_number, read_integer, read_number};

#[test]
fn numbers_are_appended(rt: HostRuntime) -> Result<(), Fail> {
    let mut text = Vec::new(rt.alloc());
    append_number(u64::MAX, &mut text)?;
    append_integer(i64::MIN, &mut text)?;
    append_integer(0, &mut text)?;
    let want = b"18446744073709551615-92233720368547758080";
    assert_eq!(rt; text.as_slice(), want.as_slice());
    Ok(())
}

#[test]
fn integers_are_read(rt: HostRuntime) {
    let rows: [(&[u8], i64, &[u8]); 5] = [
        (b"-120,7", -120, b",7"),
        (b"01", 0, b"1"),
        (b"0", 0, b""),
        (b"9223372036854775808", 922337203685477580, b"8"),
        (b"-9223372036854775808", i64::MIN, b""),
    ];
    for (text, number, behind) in rows {
        let read = read_integer(text);
        assert!(rt; read.is_some_and(|r| r.0 == number && r.1 == behind));
    }
    for text in [b"-0".as_slice(), b"+1", b"a", b"-", b""] {
        assert!(rt; read_integer(text).is_none());
    }
}

#[test]
fn numbers_are_read_up_to_the_limit(rt: HostRuntime) {
    let read = read_number(b"123", 99);
    assert!(rt; read.is_some_and(|r| r.0 == 12 && r.1.len() == 1));
}

#[test]
fn a_seq_gives_its_items_back(rt: HostRuntime) -> Result<(), Fail> {
    let seq = Seq::new(vec![in rt.alloc(); 1u8, 2]?);
    assert_eq!(rt; seq.items().len(), 2);
    assert_eq!(rt; seq.into_vec().len(), 2);
    let none: Seq<u8> = Seq::empty(rt.alloc());
    assert!(rt; none.items().is_empty());
    Ok(())
}
