//! Bridges and links as they are declared.
use spb_types::GraphBridge;

/// A bridge as it was declared: its ids, and the number of its backbone ports, 0 to 32.
#[derive(Clone, Copy, Debug, PartialEq, Eq)]
pub struct DeclaredBridge {
    pub bridge: GraphBridge,
    pub ports: u8,
}

/// One end of a link: its bridge by place in order of declaration, counted from 0, the port there, 1 to 32, and the
/// metric of this end, 1 to 16,777,214.
#[derive(Clone, Copy, Debug, PartialEq, Eq)]
pub struct LinkEnd {
    pub bridge: usize,
    pub port: u8,
    pub metric: u32,
}

/// A link as it was declared: its two ends, and whether it is up.
#[derive(Clone, Copy, Debug, PartialEq, Eq)]
pub struct DeclaredLink {
    pub a: LinkEnd,
    pub b: LinkEnd,
    pub live: bool,
}
