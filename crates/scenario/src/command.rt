//! The commands of a script, as values.
use spb_types::{Dir, Mac, Mode, Name, Seq, Side, SourceId};

/// A command of a script: one variant for each form of a line.
///
/// Each number is one of at most 10 decimal digits; whether it is in range is not judged here.
#[derive(Debug, Drop)]
pub enum Command {
    /// `vid V E`: the base VID V (IEEE 802.1Q, 1 to 4094) with the ECT algorithm number E, 1 to 16.
    Vid {
        vid: u64,
        ect: u64,
    },
    /// `bridge N PRIO SYSID SRC PORTS`: a bridge with its priority, system id, SPSourceID and number of ports.
    Bridge {
        name: Name,
        priority: u64,
        system: Mac,
        source: SourceId,
        ports: u64,
    },
    /// `link L A PA B PB COST`: a link between port PA of bridge A, its end a, and port PB of bridge B, its end b,
    /// with the metric COST at both.
    Link {
        name: Name,
        a: Name,
        port_a: u64,
        b: Name,
        port_b: u64,
        cost: u64,
    },
    /// `isid I V`: the I-SID I (IEEE 802.1ah, 24 bits) in the VID V.
    Isid {
        isid: u64,
        vid: u64,
    },
    /// `attach B P I [MODE]`: customer port P of bridge B becomes a member of the I-SID I, in the mode MODE: `both`,
    /// `send` or `recv`. Without it the mode is `both`.
    Attach {
        bridge: Name,
        port: u64,
        isid: u64,
        mode: Mode,
    },
    /// `detach B P`: customer port P of bridge B stops being a member.
    Detach {
        bridge: Name,
        port: u64,
    },
    /// `metric L END M`: the metric of one end of link L becomes M.
    Metric {
        link: Name,
        side: Side,
        metric: u64,
    },
    /// `down L`: link L fails.
    Down(Name),
    /// `up L`: link L comes back.
    Up(Name),
    /// `restart B`: bridge B starts anew.
    Restart(Name),
    /// `tick B`: one tick of bridge B's clock.
    Tick(Name),
    /// `deliver L DIR`: the first frame on its way over link L in this direction arrives.
    Deliver {
        link: Name,
        dir: Dir,
    },
    /// `lose L DIR K`: the frame at place K, counted from 0 at the front, is lost on its way.
    Lose {
        link: Name,
        dir: Dir,
        place: u64,
    },
    /// `double L DIR K`: the frame at place K, counted from 0 at the front, is doubled on its way.
    Double {
        link: Name,
        dir: Dir,
        place: u64,
    },
    /// `round N`: N rounds, each a tick of every bridge and then deliveries.
    Round(u64),
    /// `drain N`: at most N deliveries.
    Drain(u64),
    /// `frame B P HEX`: a customer's frame enters at customer port P of bridge B.
    Frame {
        bridge: Name,
        port: u64,
        frame: Seq<u8>,
    },
    /// `state`: is the network quiet?
    State,
    /// `show B`: the tables of bridge B.
    Show(Name),
    /// `wiring B`: the tables that bridge B has by the links as they are.
    Wiring(Name),
    /// `db B`: the link state database of bridge B.
    Db(Name),
    /// `adj B`: the adjacencies of bridge B.
    Adj(Name),
    /// `path A B V`: the path from bridge A to bridge B in the VID V.
    Path {
        from: Name,
        to: Name,
        vid: u64,
    },
    /// `drops B`: how many frames bridge B dropped, by the reason.
    Drops(Name),
}
