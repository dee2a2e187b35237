//! What a frame brings, before the bridge that hears it is looked at.
ghost use Rattle.std.specs.Prelude.{◌≡◌, slice_get};
ghost use Rattle.isis_pdu.specs.Pdu.{hello_of};
ghost use Rattle.isis_pdu.specs.Reading.{read};
ghost use Rattle.spb_tlvs.specs.Tlv.{values_with};
ghost use Rattle.itag_frames.specs.Frame.{contents};
ghost use Rattle.flooding.specs.Entries.{AreSendable};
ghost use Rattle.bridge_api.specs.Parsing as api;
ghost use Rattle.bridge_control.specs.Carrying.{carries_customer};
ghost use Rattle.bridge_control.specs.Message.{Says};

use crate::held_lsp::{held_lsp, place_of_lsp};
use bridge_api::DropReason;
use isis_pdu::{Csnp, Hello, Lsp, Pdu, Psnp, decode};
use itag_frames::{Backbone, Frame, FrameError, classify};
use lsdb::Database;
use spb_tlvs::{THREE_WAY_ADJACENCY, ThreeWay, find_tlv, read_three_way};

/// What a frame brings to a bridge.
#[derive(Clone, Copy, Debug)]
pub(crate) enum Message<'a> {
    /// Nothing: every bridge drops it, for this reason.
    Dropped(DropReason),
    /// A hello and its three-way adjacency.
    Hello(Hello<'a>, ThreeWay),
    /// An LSP, and the place at which it is looked for first.
    Lsp(Lsp<'a>, usize),
    Csnp(Csnp<'a>),
    Psnp(Psnp<'a>),
    /// A customer's frame over the backbone.
    Customer(Backbone<'a>),
}

/// Whether a frame brings a customer's frame over the backbone.
pub(crate) fn is_customer(frame: &[u8]) -> bool
    ensures { result ≡ carries_customer frame.now }
{
    match classify(frame) {
        Ok(Frame::Backbone(_)) => true,
        Ok(Frame::Control(_)) => false,
        Err(_) => false,
    }
}

/// What a frame brings. It may be any bytes. An LSP that is held in `db` as it is isn't read again.
pub(crate) fn parse<'a>(db: &Database, frame: &'a [u8]) -> Message<'a>
    requires { AreSendable db.now }
    ensures { Says result (api.parsed frame.now) }
{
    parse_content(db, classify(frame))
}

/// A control frame is heard by its PDU.
fn parse_content<'a>(db: &Database, content: Result<Frame<'a>, FrameError>) -> Message<'a>
    requires { AreSendable db.now }
    ensures { Says result (api.by_content (contents content.entry)) }
{
    match content {
        Ok(Frame::Control(pdu)) => parse_pdu(db, pdu),
        Ok(Frame::Backbone(frame)) => Message::Customer(frame),
        Err(_) => Message::Dropped(DropReason::Frame),
    }
}

fn parse_pdu<'a>(db: &Database, pdu: &'a [u8]) -> Message<'a>
    requires { AreSendable db.now }
    ensures { Says result (api.by_pdu (read pdu.now)) }
{
    let near = place_of_lsp(db, pdu);
    match held_lsp(db, near, pdu) {
        Some(lsp) => Message::Lsp(lsp, near),
        None => parse_new(pdu, near),
    }
}

/// What a PDU brings that is read. An LSP is looked for at the place `near` first.
fn parse_new(pdu: &[u8], near: usize) -> Message<'_>
    ensures { Says result (api.by_pdu (read pdu.now)) }
{
    match decode(pdu) {
        Ok(Pdu::Hello(hello)) => parse_hello(&hello),
        Ok(Pdu::Lsp(lsp)) => Message::Lsp(lsp, near),
        Ok(Pdu::Csnp(csnp)) => Message::Csnp(csnp),
        Ok(Pdu::Psnp(psnp)) => Message::Psnp(psnp),
        Err(_) => Message::Dropped(DropReason::Pdu),
    }
}

/// A hello is heard by its three-way adjacency, where that can be read.
fn parse_hello<'a>(hello: &Hello<'a>) -> Message<'a>
    ensures { Says result (api.by_three_way (hello_of hello.now) (slice_get (values_with 240 hello.now.tlvs.now) 0)) }
{
    let Some(value) = find_tlv(hello.tlvs, THREE_WAY_ADJACENCY, 0) else {
        return Message::Dropped(DropReason::Tlv);
    };
    match read_three_way(value) {
        Ok(way) => Message::Hello(*hello, way),
        Err(_) => Message::Dropped(DropReason::Tlv),
    }
}
