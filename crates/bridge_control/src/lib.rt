//! The IS-IS control plane of a bridge: what hellos, LSPs, sequence numbers PDUs, seconds, carrier and metrics make of
//! it, as one step of `bridge_api` each. It keeps its ports in one list and its LSPs in one database, and takes each
//! call as it comes. It sends customers' frames on by the tables that it makes of its LSPs.
//!
//! [`ControlPlane`] is a `Machine` with two marks, whether it is blank, and whether a call found no memory, and with the
//! tables, while they are kept. What the machine makes of a frame stands in `hearing`, of a change at a port in
//! `changing`, of a customer port that is attached or detached in `attaching`, and in `repeats` for ports that add
//! nothing to what the bridge says, of a customer's frame in `customers`, of a second in `ticking`, and of seconds in
//! which nothing comes to pass in `calm`; what a frame brings in `parsing`, in `heard` for the hello that came last to a
//! port, and in `held_lsp` for an LSP that is held; what is sent in `hello`, `made` and `sending`, and tables and paths
//! in `reading`, `kept_tables`, `shared_reading` for what they are made of, and `shared` for the place where bridges
//! share it.
//!
//! # A kind of bridge
//!
//! It keeps a control plane, and beside it what else it knows of its tables, if it keeps more than the control plane
//! does.
//!
//! 1. Write a struct with a field `control: ControlPlane`, and an `impl Model` for it whose `Value` is `Plane` and
//!    whose `view` is that field. The invariant says of what is kept of the tables what it is of `b.control.view`.
//! 2. In `impl Bridge`, give the kind, and blank and view as the value has them. Forward each call, which needs no
//!    proof. One that changes what the tables are read from forgets those that are kept.
//! 3. A kind that makes its tables in its own way asks before it forwards a frame whether this is sent on by tables
//!    (`needs_tables`) and none are kept (`kept_tables`). Then it makes them, from the `graph` of all that the bridge
//!    reads, its `id` and its `vids`, or takes those of what bridges share (`tables`), and gives them to the control
//!    plane (`keep_tables`), which sends the frame on by them. Where it finds no memory for them it marks the control
//!    plane failed (`fail`). It answers questions about tables by those that are kept, or by its own.
//!
//! # Costs
//!
//! With p ports, n LSPs that are held and own LSPs of b bytes together:
//!
//! - The bodies of the own LSPs are kept. They are made anew, in time and memory of order p + b and for sorting what is
//!   attached, where a port comes Up or leaves Up, where any neighbour is lost, where the metric of an Up port is set,
//!   even to what it was, and where a customer port is attached or detached that sends or receives in its service as no
//!   other port does; no other call makes them. Where the first two ports that are attached are of one service, and the
//!   second adds nothing to the first, each that adds nothing to one before it is left out first, in one pass.
//!   Attaching and detaching look for other ports of the service that send and receive, in one pass over what is
//!   attached, which ends where they are found; detaching first looks for its own port. A call that made the bodies
//!   anew compares them with those that are held: a binary search for each of the 16 own numbers, and b bytes.
//!   Originating takes time and memory of the bytes of the LSPs that are originated. What is heard in LSPs and sequence
//!   numbers PDUs makes no such comparison.
//! - The hello of each port is kept as a frame, and so is the set of the Up ports. A hello is made anew where the state,
//!   the neighbour or its circuit changes at its port, in constant time and with memory for a few short vectors; the set
//!   then goes over the ports once. Where a neighbour is lost in a second, the hellos of all ports are made anew.
//! - A tick in which no flags stand and no neighbour is lost looks for the last port with carrier, from the last port
//!   on, goes twice over the ports up to that one, and once over all; goes once over the database, looks up each own
//!   LSP that has a body by a binary search, and compares no body, in time p + n. Each hello is the frame that is kept,
//!   of which no byte is copied, and takes no memory but its place in the outbox. Where flags stand or the bridge
//!   originated, it also goes over the database once more, to find the places at which flags stand; and then over these
//!   places: twice to find the ports with SRM and those with SSN; once to make the frames of the LSPs with SRM, which
//!   all ports share; once for each Up port with SRM, to send the frames of those to be sent there; and twice for each
//!   Up port with SSN, for the entries and to clear these. It goes over the database once for each port at which CSNPs
//!   are due and for each at which a neighbour is lost. Memory is taken for these places and for their frames, for each
//!   LSP with SRM once, and for each CSNP and PSNP.
//! - Telling for how many seconds nothing would come to pass takes constant time where flags stand, or where something
//!   was changed since the last tick; and else goes once over the ports, and looks up each own LSP that has a body.
//!   However many such seconds pass at once, this goes once over the database, and takes no memory.
//! - A hello takes time in proportion to its length. The one that came last to a port is kept there: where the same
//!   frame comes again it is compared, and not read or kept again. One that only begins the holding count anew changes
//!   its port and nothing else. Memory is taken where another hello comes than the last time, for its frame, and where one changes
//!   the state, the neighbour or the circuit at its port. Leaving Up goes over the database once, and entering Up once more.
//! - An LSP takes a binary search and is compared with what is held under its id. Where the same is held live it isn't
//!   read. Any other is gone over once for its TLVs and once for its checksum, and takes memory for its body if it is
//!   stored. Where its id isn't held it takes a second search, and a third one if it is stored. A sequence numbers PDU takes what `snp_sync` says for its entries.
//! - The tables are made where a customer's frame enters or a backbone frame comes in and none are kept: this goes over
//!   the database once, in time and memory of the bytes of the live LSPs, and then takes what the graph of all that they
//!   say takes (`spb_content`), and the tables in it (`fdb_build`). They are kept over frames of both kinds, over what is
//!   dropped, and over the hello that came last, where it only begins the holding count anew. Any other call and frame
//!   forgets them, also where the LSPs that are held stay as they are.
//! - Where bridges share what they read ([`SharedReading`]), what was read of the same LSPs is taken over: each live LSP
//!   that is held is compared with those that were read, in time of their bytes and with no memory. Only where one
//!   differs, or the base VIDs do, is the graph read and made ready for tables anew. While paths are asked of a bridge it
//!   keeps that for itself, and compares nothing.
//! - A frame of either kind takes a few look-ups in the tables, which go over their rows, besides what `forwarding`
//!   says.
//! - `tables` copies those that are kept, and `unicast_port` and `group_ports` look in them. Where none are kept, each
//!   makes them for its one answer, of what is shared. So does `path`: of what is shared it searches the best paths from
//!   the bridge under one mask, unless they are kept, and reads one back (`ect_trees`).
//! - No call copies the database.
#![tactic(auto)]

pub use control_plane::ControlPlane;
pub use shared::SharedReading;

mod attaching;
mod calm;
mod changing;
mod control_plane;
mod customers;
mod heard;
mod hearing;
mod held_lsp;
mod hello;
mod kept_tables;
mod machine;
mod made;
mod parsing;
mod ports;
mod reading;
mod repeats;
mod sending;
mod shared;
mod shared_reading;
mod ticking;
