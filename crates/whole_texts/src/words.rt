//! The words of operations and of replies, and their texts.
use book_base::OpWord;
use seq_objects::{Kind, put_number, put_reply, reply_from_word};
use std::test::Fail;

// An operation word is the sum of its code times 2^32, its first value, and its second value times
// 2^64.
const OPERATIONS: [(Kind, &str, OpWord); 12] = [
    (Kind::Queue, "enq 5", 4294967301),
    (Kind::Queue, "deq", 8589934592),
    (Kind::IntSet, "has 7", 12884901895),
    (Kind::Queue, "#0", 0),
    (Kind::Queue, "#12884901895", 12884901895),
    (Kind::Pqueue, "insert 4294967295", 8589934591),
    (Kind::CasRegister, "cas 5 0", 12884901893),
    (
        Kind::CasRegister,
        "cas 4294967295 4294967295",
        79228162495817593537014267903,
    ),
    (Kind::Map, "put 3 9", 166020696667680931843),
    (Kind::Map, "del 3", 12884901891),
    (Kind::Map, "#12884901888:5", 92233720381432659968),
    (
        Kind::Queue,
        "#18446744073709551615:18446744073709551615",
        340282366920938463463374607431768211455,
    ),
];

#[test]
fn operation_words_have_one_text(rt: HostRuntime) -> Result<(), Fail> {
    for (kind, text, word) in OPERATIONS {
        let mut words = text.as_bytes().split(|&byte| byte == b' ');
        let first = words.next().ok_or("no word")?;
        let read = kind.op_from_words(first, words.next(), words.next());
        let (op, _used) = read.ok_or("no operation")?;
        assert_eq!(rt; op, word, "at {text}");
        let mut put = Vec::new(rt.alloc());
        kind.put_op(&mut put, word)?;
        assert_eq!(rt; put.as_slice(), text.as_bytes());
    }
    Ok(())
}

#[test]
fn reply_words_have_one_text(rt: HostRuntime) -> Result<(), Fail> {
    for (text, word) in [
        ("done", 0),
        ("none", 4294967296),
        ("=0", 8589934592),
        ("=4294967295", 12884901887),
        ("no", 12884901888),
        ("yes", 12884901889),
        ("bad", 17179869184),
        ("#1", 1),
        ("#18446744073709551615", 18446744073709551615),
    ] {
        assert_eq!(rt; reply_from_word(text.as_bytes()), Some(word), "at {text}");
        let mut put = Vec::new(rt.alloc());
        put_reply(&mut put, word)?;
        assert_eq!(rt; put.as_slice(), text.as_bytes());
    }
    Ok(())
}

#[test]
fn a_number_is_appended(rt: HostRuntime) -> Result<(), Fail> {
    let mut put = Vec::from_slice(rt.alloc(), b"calls ")?;
    put_number(&mut put, 256)?;
    assert_eq!(rt; put.as_slice(), b"calls 256".as_slice());
    Ok(())
}
