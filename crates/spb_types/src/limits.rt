//! The limits of what is declared, held and played. Code, contracts and definitions read the same constants, and
//! [`crate::laws::limits_are_these`] says each number.

/// The most bridges of a script.
pub const MOST_BRIDGES: usize = 96;

/// The most links of a script.
pub const MOST_LINKS: usize = 400;

/// The most backbone ports of a bridge, which are numbered from 1 on.
pub const MOST_PORTS: u8 = 32;

/// The most customer ports of a bridge, which are numbered from 1 on.
pub const MOST_CUSTOMER_PORTS: u16 = 1_024;

/// The most service instances that a bridge has attached ports in.
pub const MOST_ISIDS: usize = 960;

/// The most services of a script.
pub const MOST_SERVICES: usize = 4_096;

/// The most customers' addresses that a bridge keeps of an I-SID.
pub const MOST_ADDRESSES: usize = 1_024;

/// The most base VIDs of a bridge: the SPB Instance sub-TLV has 16 trees at the most (RFC 6329, 14.1).
pub const MOST_VIDS: usize = 16;

/// The greatest base VID; 4095 is reserved (IEEE 802.1Q, 9.6).
pub const GREATEST_VID: u16 = 4_094;

/// The greatest number of an ECT algorithm (IEEE 802.1aq, 28.8).
pub const GREATEST_ECT: u8 = 16;

/// The greatest I-SID (IEEE 802.1ah, 9.7).
pub const GREATEST_ISID: u32 = 16_777_215;

/// How many SPSourceIDs there are: each is below this number (IEEE 802.1aq, 27.15).
pub const SOURCE_IDS: u32 = 1_048_576;

/// The greatest metric of a link, and cost of an edge. One more says that a link isn't used (RFC 5305, 3).
pub const GREATEST_METRIC: u32 = 16_777_214;

/// The most bridges of a graph.
pub const MOST_GRAPH_BRIDGES: usize = 65_535;

/// The most LSPs of a database.
pub const MOST_LSPS: usize = 4_096;

/// The most frames on their way in one direction of a link.
pub const MOST_FRAMES: usize = 1_024;

/// The most rounds of one command, and of all commands of a script together.
pub const MOST_ROUNDS: u64 = 20_000;

/// The most deliveries that one drain may ask for.
pub const MOST_DELIVERIES: u64 = 1_000_000;

/// The most deliveries that all drains of a script together may ask for.
pub const MOST_DELIVERIES_TOGETHER: u64 = 100_000_000;
