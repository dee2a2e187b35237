//! What a bridge is to the network around it: its configuration, the frames that it sends, and the trait that each
//! implementation of a bridge has.
//!
//! The trait says of each call which bridge it leaves and what it sends, as one step of the machine that `specs/`
//! defines, so all implementations do the same. A network reaches its bridges through the trait alone. `Box<dyn
//! Bridge>` is a `Bridge` too, so code over any `B: Bridge` serves boxes of mixed kinds. Its clauses speak of
//! `B.shown`; for a list of bridges `specs/Among.antt` has the words, and `proofs/Listed.antt` the lemmas.
//!
//! # Another implementation
//!
//! It needs this crate and the formats below it, and no other implementation.
//!
//! 1. Write a struct that keeps what it likes, and an `impl Model` for it. The model's value is a record of what the
//!    fields say, and its invariant what the fields have to meet, such as that each port's adjacency is sound. A
//!    constructor `blank` gives a bridge that is blank and not failed.
//! 2. In `impl Bridge`, define `shown` as a function of that value (`specs/Shown.antt`). Its `view` is a `BridgeView`,
//!    in which a part that isn't kept yet is as after `configure`.
//! 3. Do the work of each call in a private function, which answers by `?`. Where it answers `Ok`, its contract names
//!    the view afterwards, such as `after_tick`, and the frames, such as `sent_in_tick` or `moved_by_receive`. The
//!    trait's call tests first whether the bridge is failed, then calls that function, and marks the bridge failed
//!    where no memory was found. A question about tables tests the same, and marks nothing (`own_tables` of
//!    `specs/Tables.antt`).
//! 4. What a step makes of the list of ports is said port by port: `later` and `with_csnp_due` for a tick,
//!    `heard_hello_port` for a hello, `with_carrier_port` for carrier (`specs/Ports.antt`) and `with_port_metric` for a
//!    metric. What it makes of the LSPs that are held is said part by part: `counts_lowered`, `expired`, `refreshed`
//!    and `after_sending` for a tick (`specs/Ticking.antt`), `changed_at` where something came to pass at a port, and
//!    `heard_lsp`, `heard_csnp` and `heard_psnp` for what is heard of other LSPs (`specs/Hearing.antt`), each with
//!    `originated_if_changed` after it (`specs/Own.antt`); so it is where a customer port is attached or detached
//!    (`specs/Services.antt`). The lemmas `tick_is`, `heard_is`, `deaf_is`, `with_carrier_is`, `with_metric_is` and
//!    `with_attached_is` of `proofs/Changes.antt` say that the steps of a view are these, and `changed_ports`,
//!    `heard_hello_ports`, `with_carrier_ports`, `with_metric_ports` and `tick_ports` what becomes of the ports.
//! 5. What becomes of customers' frames is said over `tenant_of` the view and its `own_tables`, as crate `forwarding`
//!    says it, whose functions do the work: `after_entry` and `moved_by_entry` for one that enters by `customer`, and
//!    `forwarded` and `moved_by_receive` for a backbone frame that carries one (`specs/Customers.antt`). The outbox
//!    gains both lists that are moved (`with_moved` of `specs/Step.antt`), or first frames of each where no memory was
//!    found. Such a frame changes nothing but what is learned and counted, and `with_port_forgotten`, which comes first
//!    where a port is detached, nothing but what is learned: `entry_is` and `forgotten_is` of `proofs/Changes.antt`.
//! 6. `calm_seconds` and `pass_calm` may stay as the trait has them; then each second is played. One that implements
//!    them answers a number of seconds for which its view is calm, `IsCalmFor`, or 0 where it can't tell, and lowers all
//!    lifetimes by so many at once, `aged_by` (`specs/Calm.antt`).
//! 7. A test makes boxes of it as `Box<dyn Bridge>` and calls them through the trait, since no proof says that memory
//!    is found.
#![tactic(auto)]

pub use bridge::Bridge;
pub use config::{BridgeConfig, first_life};
pub use drops::Drops;
pub use kind::Kind;
pub use member::attached_members;
pub use outbox::Outbox;
pub use port::BridgePort;
pub use spb_types::DropReason;

mod bridge;
mod config;
mod drops;
mod kind;
mod member;
mod outbox;
mod port;
