//! First calls of `jh_edn`, `jh_gen` and `jh_slots`, as their READMEs show them.

use jh_edn::{read_one, write};
use jh_gen::{Driver, Gen, GenAnswer, Thread};
use jh_ops::{Call, Process, Request};
use jh_slots::{Read, Slots};
use std::alloc::Global;

/// The first value of a text, in normal form and written again.
fn normal_text(alloc: Global, text: &str) -> Option<Vec<u8>> {
    let (value, _behind) = read_one(alloc, text, 0).ok()??;
    let mut written = Vec::new(alloc);
    write(&value.normal(alloc).ok()?, &mut written).ok()?;
    Some(written)
}

#[test]
fn a_value_is_written_in_normal_form(rt: HostRuntime) {
    let alloc = rt.alloc();
    let text = "#{3 1 2} 4";
    let answer = normal_text(alloc, text).or_else(|| normal_text(alloc, text));
    assert!(rt; answer.is_some_and(|written| written.as_slice() == b"#{1 2 3}".as_slice()));
}

/// What a client is to do first, where reads are to be done.
fn first_call(alloc: Global) -> Option<GenAnswer> {
    let reads = Gen::Forever(Call::Client(Request::Read));
    let mut driver = Driver::new(alloc, reads, 1).ok()?;
    driver.ask(Thread::Client(0), 0).ok()
}

#[test]
fn a_client_reads_first(rt: HostRuntime) {
    let answer = first_call(rt.alloc()).or_else(|| first_call(rt.alloc()));
    let wanted = GenAnswer::Call(Process::Client(0), Call::Client(Request::Read));
    assert_eq!(rt; answer, Some(wanted));
}

/// What a seat reads of the record of one word that it published.
fn published(alloc: Global) -> Option<(Read, [u64; 5])> {
    let (slots, mut seat) = Slots::new(alloc, 4).ok()?;
    let mut claim = slots.claim(&mut seat, 1).ok()?;
    slots.write(&mut seat, &mut claim, 0, 7);
    let receipt = slots.publish(&mut seat, claim, 1);
    let mut words = [0; 5];
    let read = slots.read(&mut seat, receipt.row, &mut words);
    Some((read, words))
}

#[test]
fn a_record_is_read(rt: HostRuntime) {
    let answer = published(rt.alloc()).or_else(|| published(rt.alloc()));
    assert_eq!(rt; answer, Some((Read::Words(1), [7, 0, 0, 0, 0])));
}
