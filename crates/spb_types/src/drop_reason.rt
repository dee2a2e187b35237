//! The reasons for which a frame is dropped, in the order in which they are counted.

/// Why a frame is dropped.
#[derive(Clone, Copy, Debug, PartialEq, Eq)]
pub enum DropReason {
    /// It is neither a control frame nor one with an I-TAG.
    Frame,
    /// Its PDU can't be read.
    Pdu,
    /// The three-way adjacency of a hello is missing or can't be read, or an entry of a sequence numbers PDU can't.
    Tlv,
    /// It came to a port without carrier, or it is an LSP or a sequence numbers PDU and came to a port that isn't Up.
    NotAdjacent,
    /// It is a hello that the three-way adjacency discards (RFC 5303, 3.2).
    Hello,
    /// It came in at another port than the one towards its backbone source address (the ingress check of IEEE 802.1aq).
    Ingress,
    /// No port leads to its destination, or only the one at which it came in.
    NoWay,
    /// Its group address is that of another I-SID.
    Mismatch,
    /// It is an LSP, or an entry of a sequence numbers PDU, that finds no place in the database.
    Full,
}
