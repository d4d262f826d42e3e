//! Maps: how many configurations calls with different keys have.

use crate::{Event, Verdict, Watch};
use seq_objects::Kind;
use std::test::Fail;

// The operation word of a put of the value 0 for the key 0; to it another key is added.
const PUT: u128 = 1 << 32;

// The reply to a put for a key that had no value.
const NONE: u64 = 1 << 32;

// Sixteen processes put to different keys at the same time. At the first return the whole map would
// have 2 to the power 15 configurations, and its limit would be met.
#[test]
fn each_key_is_watched_alone(rt: HostRuntime) -> Result<(), Fail> {
    let mut watch = Watch::new(rt.alloc(), Kind::Map, 4)?;
    for process in 0..16 {
        let op = PUT + u128::from(process);
        watch.take(Event::Call { process, op })?;
    }
    for process in 0..16 {
        let reply = NONE;
        watch.take(Event::Return { process, reply })?;
        assert_eq!(rt; watch.configurations(), 16);
    }
    assert_eq!(rt; watch.verdict(), Verdict::Legal(32));
    Ok(())
}
