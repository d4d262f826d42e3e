ghost use Rattle.std.specs.Prelude.{◌≡◌, length};
ghost use Rattle.set_order.specs.Serving.{served_alone};
ghost use Rattle.set_order.specs.ServingLaws.{served_alone-replies};

use crate::set_object::SetObject;
use book_base::{OpWord, SeqObject, State};

/// A sequential object as one that serves sets: it serves a set of one operation as the object
/// does, and no other set.
#[derive(Clone, Copy, Debug)]
pub struct Single<S> {
    pub object: S,
}

impl<S: SeqObject> SetObject for Single<S> {
    ghost init = { λ single. (S.spec single.object).init };

    ghost served = { λ single. served_alone (S.spec single.object).next };

    fn capacity(&self, operations: u64) -> u64 {
        self.object.capacity(operations)
    }

    fn reset(&self, state: &mut State) {
        self.object.reset(state);
    }

    fn serve(&self, state: &mut State, ops: &[OpWord], replies: &mut State) -> bool {
        if ops.len() != 1 {
            return false;
        }
        let reply = self.object.step(state, ops[0]);
        replies.clear();
        replies.push(reply);
        true
    }

    ghost replies_to_each = { λ single. served_alone-replies (S.spec single.object).next };
}
