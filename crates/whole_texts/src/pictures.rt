//! Pictures of books.
use book_base::{Call, Place};
use book_picture::{MarkedCalls, draw_book};
use book_text::read_book;
use frontier_check::Verdict;
use seq_objects::DONE;
use std::test::Fail;

// The legal order of a put and an unanswered take has the put alone.
#[test]
fn only_calls_of_a_legal_order_have_numbers(rt: HostRuntime) -> Result<(), Fail> {
    let (kind, book) = read_book(
        rt.alloc(),
        b"book 2\nobject queue\ncallers 2\ncalls 1 1\n0 0 enq 5 done view 0:1 1:1\n1 0 deq\nend\n",
    )?;
    let order = [Place {
        caller: 0,
        number: 0,
        reply: DONE,
    }];
    let legal = Verdict::Legal(order.to_vec(rt.alloc())?);
    let text = draw_book(rt.alloc(), kind, &book, &legal, &MarkedCalls::Unasked, None)?;
    assert!(rt;
        text.as_str()
            .contains("class=\"number\" x=\"222\" y=\"103\">1</text>")
    );
    assert!(rt; text.as_str().contains("no reply"));
    let text = draw_book(
        rt.alloc(),
        kind,
        &book,
        &Verdict::Illegal,
        &MarkedCalls::NoMemory,
        None,
    )?;
    assert!(rt; !text.as_str().contains("class=\"number\""));
    assert!(rt; text.as_str().contains("(no memory: none are marked)"));
    Ok(())
}

// Sixteen calls: one extends over the end of the first row, and one is open in both rows.
const SIXTEEN: &[u8] = b"book 2\nobject queue\ncallers 2\ncalls 15 1\n\
    0 0 enq 5 done view 0:1 1:1\n0 1 deq =5 view 0:2 1:1\n\
    0 2 enq 6 done view 0:3 1:1\n0 3 deq =6 view 0:4 1:1\n\
    0 4 enq 7 done view 0:5 1:1\n0 5 deq =7 view 0:6 1:1\n\
    0 6 enq 8 done view 0:7 1:1\n0 7 deq =8 view 0:8 1:1\n\
    0 8 enq 9 done view 0:9 1:1\n0 9 deq =9 view 0:10 1:1\n\
    0 10 enq 10 done view 0:11 1:1\n0 11 deq =10 view 0:12 1:1\n\
    0 12 enq 11 done view 0:13 1:1\n0 13 deq =11 view 0:14 1:1\n\
    0 14 enq 12 done view 0:15 1:1\n1 0 deq\nend\n";

// What the picture of the sixteen calls has: the size, the title and the first error, the lanes of
// the second row, and elements with the colours of their values, some marked, two of them with a
// bar in each row.
const PARTS: [&str; 9] = [
    "<svg xmlns=\"http://www.w3.org/2000/svg\" width=\"1080\" height=\"346\">\n",
    "illegal: no order explains these replies, nor those of the marked calls alone</text>\n",
    "y=\"80\">the first error line of the run is that of call 7 of caller 0</text>\n",
    "x2=\"1068\" y2=\"256\"/>\n<text class=\"note\" x=\"12\" y=\"260\">caller 0</text>\n",
    "x2=\"1068\" y2=\"312\"/>\n<text class=\"note\" x=\"12\" y=\"316\">caller 1</text>\n<g id=",
    "<g id=\"call-0-2\" class=\"value-1 marked\">\n\
     <path class=\"bar\" d=\"M 263 102 H 345 V 146 H 263 Z\"/>\n",
    "<g id=\"call-0-3\" class=\"value-1\">\n\
     <path class=\"bar\" d=\"M 351 102 H 417 V 146 H 351 Z\"/>\n",
    "<g id=\"call-0-11\" class=\"value-5 marked\">\n\
     <path class=\"bar\" d=\"M 1065 102 H 999 V 146 H 1065\"/>\n\
     <text class=\"call\" x=\"1008\" y=\"120\">deq</text>\n\
     <text class=\"call\" x=\"1008\" y=\"138\">=10</text>\n\
     <path class=\"bar\" d=\"M 103 234 H 169 V 278 H 103\"/>\n\
     <text class=\"call\" x=\"112\" y=\"252\">deq</text>\n\
     <text class=\"call\" x=\"112\" y=\"270\">=10</text>\n\
     </g>\n",
    "<g id=\"call-1-0\" class=\"plain marked\">\n\
     <path class=\"bar open\" d=\"M 1065 158 H 131 V 202 H 1065\"/>\n\
     <text class=\"call\" x=\"140\" y=\"176\">deq</text>\n\
     <text class=\"call\" x=\"140\" y=\"194\">no reply</text>\n\
     <path class=\"bar through\" d=\"M 103 290 H 433 V 334 H 103 Z\"/>\n\
     <text class=\"call\" x=\"112\" y=\"308\">deq</text>\n\
     <text class=\"call\" x=\"112\" y=\"326\">no reply</text>\n\
     </g>\n\
     </svg>\n",
];

#[test]
fn sixteen_calls_are_folded_into_two_rows(rt: HostRuntime) -> Result<(), Fail> {
    let (kind, book) = read_book(rt.alloc(), SIXTEEN)?;
    let mut numbers = Vec::new(rt.alloc());
    numbers.push([0u64, 2, 11].to_vec(rt.alloc())?)?;
    numbers.push([0u64].to_vec(rt.alloc())?)?;
    let marks = MarkedCalls::Smaller(numbers);
    let error = Call {
        caller: 0,
        number: 7,
    };
    let text = draw_book(
        rt.alloc(),
        kind,
        &book,
        &Verdict::Illegal,
        &marks,
        Some(error),
    )?;
    for part in PARTS.iter() {
        assert!(rt; text.as_str().contains(*part));
    }
    Ok(())
}
