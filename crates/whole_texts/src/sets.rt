//! Legal orders of sets of calls.
use set_order::{Joins, SetVerdict, check_sets, read_setbook};
use std::test::Fail;

// A set of three calls has one set before it and one after it. A reply has one bit for each number
// that was joined. The unanswered join of 3 has to be in the set of three, since the replies of
// this set have the bit of 3. The unanswered join of 5 may be left out.
#[test]
fn three_calls_stand_in_one_set(rt: HostRuntime) -> Result<(), Fail> {
    let book = read_setbook(
        rt.alloc(),
        b"setbook 2\nobject joins\ncallers 4\ncalls 2 2 1 1\n0 0 join 0 =1 view 0:1\n0 1 join 1 =15 view 0:2 1:1 2:1 3:1\n1 0 join 2 =15 view 0:2 1:1 2:1 3:1\n1 1 join 4 =31 view 0:2 1:2 2:1 3:1\n2 0 join 3\n3 0 join 5\nend\n",
    )?;
    let SetVerdict::Legal(order) = check_sets(rt.alloc(), &Joins, &book)? else {
        assert!(rt; false);
        return Ok(());
    };
    assert_eq!(rt; order.len(), 3);
    assert_eq!(rt; order[0].places().len(), 1);
    assert_eq!(rt; order[1].places().len(), 3);
    assert_eq!(rt; order[2].places().len(), 1);
    Ok(())
}
