//! TLV 240 (Point-to-Point Three-Way Adjacency), read and written.
ghost use Rattle.std.specs.Prelude.{◌≡◌, ◌≤◌, ◌++◌, length, take, OnOk, OnErr};
ghost use Rattle.spb_tlvs.specs.Tlv.{tlv};
ghost use Rattle.spb_tlvs.specs.ThreeWay.{three_way_of, three_way_value};
ghost use Rattle.spb_tlvs.specs.ThreeWay as spec;

use crate::append::{put, whole_or_none};
use crate::codes::THREE_WAY_ADJACENCY;
use crate::error::TlvError;
use spb_types::{NoMemory, SystemId, system_in, u32_in};

/// The three-way adjacency of a point-to-point hello, TLV 240 (RFC 5303, 3).
#[derive(Clone, Copy, Debug, PartialEq, Eq)]
pub struct ThreeWay {
    /// 0 is Up, 1 Initializing, 2 Down.
    pub state: u8,
    /// The sender's extended local circuit id.
    pub circuit: u32,
    /// The neighbour's system id and extended local circuit id, where the sender names a neighbour.
    pub neighbour: Option<(SystemId, u32)>,
}

/// Reads the value of a TLV 240 (RFC 5303, 3). `Cut` where it has neither 5 nor 15 bytes, and else `Range` where the
/// state is above 2. It takes no memory.
pub fn read_three_way(value: &[u8]) -> Result<ThreeWay, TlvError>
    ensures { result ≡ three_way_of value.now }
{
    if value.len() != 5 && value.len() != 15 {
        return Err(TlvError::Cut);
    }
    if value[0] > 2 {
        return Err(TlvError::Range);
    }
    Ok(ThreeWay {
        state: value[0],
        circuit: u32_in(value, 1),
        neighbour: neighbour_in(value),
    })
}

/// The neighbour that a value of 15 bytes names.
fn neighbour_in(value: &[u8]) -> Option<(SystemId, u32)>
    ensures { result ≡ spec.neighbour_in value.now }
{
    if value.len() == 15 {
        Some((system_in(value, 5), u32_in(value, 11)))
    } else {
        None
    }
}

/// Appends the TLV 240 of these fields (RFC 5303, 3). The state is at most 2.
pub fn write_three_way(out: &mut Vec<u8>, item: &ThreeWay) -> Result<(), NoMemory>
    requires { item.now.state ≤ 2 }
    ensures ok { OnOk result (out.new.items ≡ out.old.items ++ tlv 240 (three_way_value item.now)) }
    ensures err { OnErr result (out.new.items ≡ out.old.items) }
{
    let before = out.len();
    let ended = put_three_way(out, item);
    whole_or_none(out, before, ended)
}

fn put_three_way(out: &mut Vec<u8>, item: &ThreeWay) -> Result<(), NoMemory>
    ensures ok { OnOk result (out.new.items ≡ out.old.items ++ tlv 240 (three_way_value item.now)) }
    ensures err { OnErr result (take (length out.old.items) out.new.items ≡ out.old.items) }
{
    let len = if item.neighbour.is_some() { 15 } else { 5 };
    put(out, &[THREE_WAY_ADJACENCY, len, item.state])?;
    put(out, &item.circuit.to_be_bytes())?;
    match item.neighbour {
        None => Ok(()),
        Some((system, circuit)) => {
            put(out, &system.mac.bytes)?;
            put(out, &circuit.to_be_bytes())
        }
    }
}
