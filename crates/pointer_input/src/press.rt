/// What a press tells. UI Events, "Mouse Event Types": mousedown, mouseup and click.
#[derive(Clone, Copy, Debug, PartialEq, Eq, Hash)]
pub enum PressKind {
    Down,
    Up,
    Click,
}

/// A press, a release or a click on an element, by a button from 0 to 4.
#[derive(Clone, Copy, Debug, PartialEq, Eq, Hash)]
pub struct Press {
    pub kind: PressKind,
    pub target: u32,
    pub button: u8,
}
