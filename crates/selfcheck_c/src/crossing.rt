use call_handles::Handle;

// Compiles only where values of the type may go to another thread. A slot may go to another thread,
// since the handle in its box may.
fn crosses<T: Send>() {}

pub(crate) fn handles_cross() {
    crosses::<Handle>();
}
