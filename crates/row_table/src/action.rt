use world_core::Region;

/// What a look begins: nothing, a scan, or the view's scan with the reply of the object.
#[derive(Clone, Copy, Debug)]
pub enum Opening {
    Nothing,
    Scan,
    View(u64),
}

/// A step of the table as its caller makes it. With the word that the step finds it is one event.
#[derive(Clone, Copy, Debug)]
pub enum Action {
    Stage(Region, u32, u64),
    Announce,
    Publish,
    Look(Region, u32, Opening),
    Peek(Region, u32, u64, u32),
    Load(u64),
    Store(u64, u64),
    Add(u64, u64),
    Exchange(u64, u64, u64),
}
