//! The laws of captures. Each is the contract of a function that does nothing.
ghost use Rattle.frame_capture.specs.Grammar.{CapturesAreListed, ListingsAreCaptures, ListingGoesOn, WrittenIsCapture, WrittenIsListed};

/// What is written of frames whose seconds and lengths have 32 bits is a capture of these frames, and is listed as them,
/// in order, with nothing refused.
pub fn written_is_listed()
    ensures capture { WrittenIsCapture }
    ensures listed { WrittenIsListed }
{}

/// A file of any program and either order of bytes whose header is read is listed as the frames of its packets, up to the
/// first that isn't whole, if one isn't; and what is listed of a file are its packets.
pub fn captures_are_listed()
    ensures listed { CapturesAreListed }
    ensures captures { ListingsAreCaptures }
{}

/// The list of bytes is the first packet, and then the list of the bytes behind it.
pub fn listing_goes_on()
    ensures { ListingGoesOn }
{}
