//! Scripts that are made from a number.
use client_scripts::{make_script, write_script};
use seq_objects::Kind;
use std::test::Fail;

// The values of the script of number 7 begin at 7 * 4096 = 28672, and the third call of caller 1
// has the value 28672 + 256 + 2.
#[test]
fn a_script_is_made_from_a_number(rt: HostRuntime) -> Result<(), Fail> {
    let script = make_script(rt.alloc(), 7, 2, 3, Kind::Queue)?;
    let text = write_script(rt.alloc(), &script)?;
    assert_eq!(rt;
        str::from_utf8(&text),
        Ok(
            "script 2\nobject queue\ncallers 2\ncalls 3 3\n0 0 enq 28672\n0 1 deq\n0 2 enq 28674\n1 0 enq 28928\n1 1 deq\n1 2 enq 28930\nturns\nend\n"
        )
    );
    Ok(())
}

// The values of the script of number 1048577 begin at 4096, since the number is taken modulo 2^20.
// Keys are below 8 and begin again at 0 after 7, and the value that a cas writes, one more than the
// value that it expects, begins again likewise.
#[test]
fn each_kind_has_its_operations(rt: HostRuntime) -> Result<(), Fail> {
    let cases: [(Kind, u8, &str); 7] = [
        (
            Kind::Stack,
            4,
            "script 2\nobject stack\ncallers 1\ncalls 4\n0 0 push 4096\n0 1 pop\n0 2 push 4098\n0 3 pop\nturns\nend\n",
        ),
        (
            Kind::Register,
            4,
            "script 2\nobject register\ncallers 1\ncalls 4\n0 0 write 4096\n0 1 read\n0 2 write 4098\n0 3 read\nturns\nend\n",
        ),
        (
            Kind::Counter,
            4,
            "script 2\nobject counter\ncallers 1\ncalls 4\n0 0 inc\n0 1 inc\n0 2 inc\n0 3 inc\nturns\nend\n",
        ),
        (
            Kind::IntSet,
            11,
            "script 2\nobject set\ncallers 1\ncalls 11\n0 0 add 0\n0 1 has 1\n0 2 remove 2\n0 3 add 3\n0 4 has 4\n0 5 remove 5\n0 6 add 6\n0 7 has 7\n0 8 remove 0\n0 9 add 1\n0 10 has 2\nturns\nend\n",
        ),
        (
            Kind::Pqueue,
            4,
            "script 2\nobject pqueue\ncallers 1\ncalls 4\n0 0 insert 4096\n0 1 min\n0 2 insert 4098\n0 3 min\nturns\nend\n",
        ),
        (
            Kind::CasRegister,
            11,
            "script 2\nobject casreg\ncallers 1\ncalls 11\n0 0 write 0\n0 1 cas 1 2\n0 2 read\n0 3 write 3\n0 4 cas 4 5\n0 5 read\n0 6 write 6\n0 7 cas 7 0\n0 8 read\n0 9 write 1\n0 10 cas 2 3\nturns\nend\n",
        ),
        (
            Kind::Map,
            11,
            "script 2\nobject map\ncallers 1\ncalls 11\n0 0 put 0 4096\n0 1 get 1\n0 2 del 2\n0 3 put 3 4099\n0 4 get 4\n0 5 del 5\n0 6 put 6 4102\n0 7 get 7\n0 8 del 0\n0 9 put 1 4105\n0 10 get 2\nturns\nend\n",
        ),
    ];
    for (kind, calls, text) in cases {
        let script = make_script(rt.alloc(), 1048577, 1, u64::from(calls), kind)?;
        let written = write_script(rt.alloc(), &script)?;
        assert_eq!(rt; str::from_utf8(&written), Ok(text));
    }
    Ok(())
}
