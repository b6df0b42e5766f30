/// What a mouse event tells. UI Events, "Mouse Event Types".
#[derive(Clone, Copy, Debug, PartialEq, Eq, Hash)]
pub enum EventKind {
    Out,
    Leave,
    Over,
    Enter,
    Move,
}

/// An event on an element, with the element that the pointer goes to (out and leave) or comes from (over
/// and enter), where there is one.
#[derive(Clone, Copy, Debug, PartialEq, Eq, Hash)]
pub struct Event {
    pub kind: EventKind,
    pub target: u32,
    pub related: Option<u32>,
}
