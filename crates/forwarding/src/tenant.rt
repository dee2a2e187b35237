//! What a bridge knows of its customers, as far as forwarding asks for it.
use customer_learning::Learned;
use spb_types::{Attachment, Mac, Seq, SourceId};

/// What a bridge knows of its customers.
#[derive(Drop)]
pub struct Tenant {
    /// The own backbone address.
    pub me: Mac,
    /// The own source, which the group addresses of flooded frames carry.
    pub source: SourceId,
    /// The customer ports that are attached to a service instance, each with it and its base VID.
    pub attached: Seq<Attachment>,
    /// Where the addresses of customers are.
    pub learned: Learned,
}
