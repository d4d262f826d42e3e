//! What is written of the fault of an order.

ghost use Rattle.std.specs.Prelude.{◌≡◌, ◌∷◌, [], ◌++◌, decimal, IfOk, OnOk};
ghost use Rattle.seq_objects.specs.Replies.{reply_word};
ghost use Rattle.book_text.specs.Fields.{spaced};
ghost use Rattle.selfcheck.specs.Orders.{fault_words, order_fault_text};

use book_base::NoMemory;
use book_text::fields::put_spaced;
use order_check::OrderFault;
use seq_objects::put_reply;
use std::alloc::Global;

/// The line of a fault: its name, its places or its call, and its replies.
pub(crate) fn fault_text(alloc: Global, fault: OrderFault) -> Result<Vec<u8>, NoMemory>
    ensures { IfOk result (λ text. text.items ≡ order_fault_text fault) }
{
    let mut out = b"fault".to_vec(alloc)?;
    put_words(&mut out, fault)?;
    out.push(b'\n')?;
    Ok(out)
}

/// Appends the words of a fault, each after a space.
fn put_words(out: &mut Vec<u8>, fault: OrderFault) -> Result<(), NoMemory>
    ensures { OnOk result (out.new.items ≡ out.old.items ++ spaced (fault_words fault)) }
{
    match fault {
        OrderFault::Unknown(p) => put_place(out, b"Unknown", p),
        OrderFault::Twice(p) => put_place(out, b"Twice", p),
        OrderFault::Skipped(p) => put_place(out, b"Skipped", p),
        OrderFault::Late(q, p) => put_two(out, b"Late", q, p),
        OrderFault::Record(p, wanted, found) => put_replies(out, b"Record", p, wanted, found),
        OrderFault::Run(p, wanted, found) => put_replies(out, b"Run", p, wanted, found),
        OrderFault::Missing(caller, number) => {
            put_two(out, b"Missing", u64::from(caller), number)
        }
    }
}

/// Appends a name and a place, each after a space.
fn put_place(out: &mut Vec<u8>, name: &[u8], place: u64) -> Result<(), NoMemory>
    ensures { OnOk result (out.new.items ≡ out.old.items
        ++ spaced (name.now ∷ decimal place ∷ [])) }
{
    out.push(b' ')?;
    out.extend_from_slice(name)?;
    put_spaced(out, place)
}

/// Appends a name and two numbers, each after a space.
fn put_two(out: &mut Vec<u8>, name: &[u8], first: u64, second: u64) -> Result<(), NoMemory>
    ensures { OnOk result (out.new.items ≡ out.old.items
        ++ spaced (name.now ∷ decimal first ∷ decimal second ∷ [])) }
{
    put_place(out, name, first)?;
    put_spaced(out, second)
}

/// Appends a name, a place and two replies, each after a space.
fn put_replies(
    out: &mut Vec<u8>,
    name: &[u8],
    place: u64,
    wanted: u64,
    found: u64,
) -> Result<(), NoMemory>
    ensures { OnOk result (out.new.items ≡ out.old.items
        ++ spaced (name.now ∷ decimal place ∷ reply_word wanted ∷ reply_word found ∷ [])) }
{
    put_place(out, name, place)?;
    out.push(b' ')?;
    put_reply(out, wanted)?;
    out.push(b' ')?;
    put_reply(out, found)?;
    Ok(())
}
