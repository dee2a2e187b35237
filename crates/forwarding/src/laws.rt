//! The laws of customers' frames. Each is the contract of a function that does nothing.
ghost use Rattle.forwarding.specs.Placed.{PlacedIsFound, EntryKeepsPlaces, DeliveryKeepsPlaces, AttachingKeepsPlaces, DetachingKeepsPlaces};
ghost use Rattle.forwarding.specs.Laws.{LeavesInItsService, SentInItsService, DeliveredInItsService, IngressFailureChangesNothing};
ghost use Rattle.forwarding.specs.Receiving.{LeavesWhereItIsReceived, DeliveredWhereItIsReceived};

/// What leaves of a customer's frame leaves, byte for byte, at ports of the I-SID in which it entered or which carried
/// it, and never at the port where it entered; what is sent of it carries that I-SID and the frame. Of what leaves this
/// asks that what was learned at customer ports was learned at ports of its I-SID.
pub fn services_stay_apart()
    ensures leaves { LeavesInItsService }
    ensures sent { SentInItsService }
    ensures delivered { DeliveredInItsService }
{}

/// What leaves of a customer's frame leaves at ports of its I-SID that receive. This asks that each port is attached to
/// one I-SID, and that what was learned at customer ports was learned at ports of its I-SID.
pub fn frames_leave_where_they_are_received()
    ensures leaves { LeavesWhereItIsReceived }
    ensures delivered { DeliveredWhereItIsReceived }
{}

/// A backbone frame that fails the ingress check is dropped, and changes nothing else.
pub fn ingress_failure_changes_nothing()
    ensures { IngressFailureChangesNothing }
{}

/// An address that was learned at a customer port was learned at one of its I-SID, and that stays so whatever frames
/// come and whichever ports are attached and detached, as long as each port is attached to one I-SID.
pub fn places_stay_in_their_service()
    ensures found { PlacedIsFound }
    ensures entry { EntryKeepsPlaces }
    ensures delivery { DeliveryKeepsPlaces }
    ensures attaching { AttachingKeepsPlaces }
    ensures detaching { DetachingKeepsPlaces }
{}
