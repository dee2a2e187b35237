//! The laws of frames: what was made is read again. Each is the contract of a function that does nothing.
ghost use Rattle.itag_frames.specs.Classify.{CarriedAgain, ControlAgain};
ghost use Rattle.itag_frames.specs.Backbone.{EncapsulatedAgain, EncapsulatedIsNoControl, OpenedCanBeCarried, OpenedIsWhole};

/// A control frame that was written is read as its PDU, whatever bytes follow it.
pub fn control_again()
    ensures { ControlAgain }
{}

/// A frame that carries a customer's frame is opened as what was carried, and is no control frame, whatever its
/// destination.
pub fn encapsulated_again()
    ensures opened { EncapsulatedAgain }
    ensures no_control { EncapsulatedIsNoControl }
{}

/// A frame that carries a customer's frame is read as what was carried, unless it goes to the address of the bridges.
pub fn carried_again()
    ensures { CarriedAgain }
{}

/// What a frame is opened as can be carried, and has two addresses and a type.
pub fn opened_can_be_carried()
    ensures bytes { OpenedCanBeCarried }
    ensures whole { OpenedIsWhole }
{}
