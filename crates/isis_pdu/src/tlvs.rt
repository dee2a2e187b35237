//! Whether bytes are whole TLVs.
ghost use Rattle.std.specs.Prelude.{◌≡◌};
ghost use Rattle.isis_pdu.specs.Tlvs.{is_whole};

/// Whether the bytes are whole TLVs, one after another: a code, the length of the value, and the value.
#[tactic(auto, using(crate::proofs::TlvWalk::cut_tlv, crate::proofs::TlvWalk::no_tlv))]
pub fn are_whole(tlvs: &[u8]) -> bool
    ensures { result ≡ is_whole tlvs.now }
{
    let mut rest = tlvs;
    while rest.len() >= 2 {
        let end = 2 + usize::from(rest[1]);
        if end > rest.len() {
            return false;
        }
        rest = &rest[end..];
    }
    rest.is_empty()
}
