ghost use Rattle.std.specs.Prelude.{◌≡◌, ◌<◌};

use crate::lossy_queue::{LossyPass, lose_an_item};
use crate::two_monitors::shown;
use book_base::NoMemory;
use kind_search::SearchedKind;
use monitor::{Left, watch_beside};
use row_table::{Rows, Steps};
use seq_objects::Kind;
use std::alloc::Global;
use std::marker::Brand;
use std::sync::ledger::{Blank, Ledger};
use std::test::Fail;
use std::thread::Threads;
use work_halves::Work;
use world_core::Outside;

// A door as a worker: its work leaves the door open exactly where the value that all workers share
// is `true`.
#[derive(Drop)]
struct Door {
    open: bool,
}

impl Work<bool> for Door {
    ghost ready = { λ door shared. Unit {0} };

    ghost done = { λ door shared after. after.open ≡ shared };

    fn work(&mut self, shared: &bool) {
        self.open = *shared;
    }
}

// Callers 1 and 2 watch beside a worker that opens a door, at most three rounds each, after caller
// 0 of a lossy queue has made its first calls, `calls` of them and at most four.
fn watch_beside_a_door<L: Ledger, R: Threads + Sync>(
    rt: &R,
    alloc: Global,
    blank: Blank,
    calls: u64,
) -> Result<(Left, Left, bool), NoMemory>
    requires { (blank.name ≡ L.name) × (blank.parts ≡ L.parts) × (0 < blank.parts) }
{
    let (rows, mut bench) = Rows::open(alloc, Outside, 3, 5)?;
    let mut pass = LossyPass {
        caller: 0,
        made: 0,
        cap: calls,
    };
    let mut steps = Steps::<L>::new(blank);
    let mut doors = [Door { open: false }];
    let a = rows.part(&mut bench, 0);
    let a = lose_an_item(&rows, a, &mut pass, &mut steps);
    let (one, other) = watch_beside(
        rt,
        alloc,
        &rows,
        &mut bench,
        &SearchedKind { kind: Kind::Queue },
        &true,
        &mut doors,
        1,
        2,
        3,
    );
    rows.back(&mut bench, a);
    rows.close(alloc, bench)?;
    let [door] = doors;
    Ok((one, other, door.open))
}

#[test]
fn watches_beside_a_worker_find_one_witness(rt: HostRuntime) -> Result<(), Fail> {
    let (one, other, open) = watch_beside_a_door::<Brand, _>(&rt, rt.alloc(), Blank::new(1), 4)?;
    let witness = Some((4, 0, 0, 4, 4));
    assert!(rt; open);
    assert!(rt; one.placed != other.placed);
    assert_eq!(rt; (one.wants_memory, other.wants_memory), (false, false));
    assert_eq!(rt; shown(one.own.as_ref()), witness);
    assert_eq!(rt; shown(other.own.as_ref()), witness);
    Ok(())
}
