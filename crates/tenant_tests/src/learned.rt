//! Tests of what is learned.
use crate::fixtures::{ISID, are_equal, mac};
use customer_learning::{Learned, Place};
use spb_types::Isid;
use std::process::Abort;

const OTHER: Isid = Isid { value: 200 };

/// The customer of a number is seen in a service, at a place.
fn see(rt: &impl Abort, learned: &mut Learned, isid: Isid, number: u16, at: Place) {
    learned
        .learn(isid, mac(10, number), at)
        .expect(rt, "out of memory");
}

/// Asserts where the customer of a number is in a service.
fn is_at(rt: &impl Abort, learned: &mut Learned, isid: Isid, number: u16, at: Option<Place>) {
    are_equal(rt, &learned.find(isid, mac(10, number)), &at);
}

/// Customers of so many numbers from 0 on are seen, each at a port of its number. That of number 1 is looked for after
/// each.
fn see_all(rt: &impl Abort, learned: &mut Learned, customers: u16) {
    for number in 0..customers {
        see(rt, learned, ISID, number, Place::Local(number));
        let _first = learned.find(ISID, mac(10, 1));
    }
}

#[test]
fn the_1025th_address_drops_the_last(rt: HostRuntime) {
    let mut learned = Learned::new(rt.alloc());
    see_all(&rt, &mut learned, 1_025);
    is_at(&rt, &mut learned, ISID, 0, None);
    is_at(&rt, &mut learned, ISID, 1, Some(Place::Local(1)));
    is_at(&rt, &mut learned, ISID, 1_024, Some(Place::Local(1_024)));
}

#[test]
fn addresses_are_forgotten(rt: HostRuntime) {
    let far = Place::Remote(mac(2, 2));
    let mut learned = Learned::new(rt.alloc());
    see(&rt, &mut learned, ISID, 1, Place::Local(1));
    see(&rt, &mut learned, ISID, 2, far);
    see(&rt, &mut learned, ISID, 3, Place::Local(1));
    see(&rt, &mut learned, OTHER, 1, Place::Local(2));
    learned.forget_port(ISID, 1);
    is_at(&rt, &mut learned, ISID, 1, None);
    is_at(&rt, &mut learned, ISID, 2, Some(far));
    is_at(&rt, &mut learned, ISID, 3, None);
    learned.forget_isid(ISID);
    is_at(&rt, &mut learned, ISID, 2, None);
    is_at(&rt, &mut learned, OTHER, 1, Some(Place::Local(2)));
}
