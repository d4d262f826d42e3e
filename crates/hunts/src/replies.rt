ghost use Rattle.std.specs.Prelude.{◌≡◌, ◌^◌, ◌<◌, ◌≤◌};
ghost use Rattle.book_base.specs.declared.TheConstants.{BAD};
ghost use Rattle.seq_objects.specs.Replies.{reply_value};

use book_base::BAD;
use seq_objects::wrapping_value_reply;

/// The reply word that gives a value of an object, and `BAD` where no reply word gives it: so an
/// object that answers a value outside of the 32 bits that replies have isn't taken for a right one.
pub fn value_reply(value: u64) -> u64
    // A value below 2^32 has the reply word that gives it.
    ensures fits { value < 2 ^ 32 → result ≡ reply_value value }
    // Each other value has `BAD`.
    ensures bad { 2 ^ 32 ≤ value → result ≡ BAD }
{
    if value <= u64::from(u32::MAX) {
        wrapping_value_reply(value)
    } else {
        BAD
    }
}
