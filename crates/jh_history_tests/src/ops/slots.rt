//! Worked examples. What the clauses say is proved: a test is for values that come from outside, shows that a call
//! does answer, and that memory suffices where there is some.
//!
//! Each test passes, too, where one allocation is refused: the call that answers so is made again.

ghost use Rattle.std.specs.Prelude.{◌≡◌, ◌*◌, ◌≤◌, length, IfOk, IfSome};

use jh_slots::{Full, Read, Receipt, Seat, Slots, SlotsError};
use std::alloc::Global;
use std::thread::join;

// A log and its seat, once more where memory was refused.
fn log(alloc: Global, rows: u32) -> Result<(Slots, Seat), SlotsError>
    ensures { IfOk result (λ r. r.1.table ≡ r.0.table) }
{
    match Slots::new(alloc, rows) {
        Err(SlotsError::OutOfMemory) => Slots::new(alloc, rows),
        answer => answer,
    }
}

// A log and two seats of it.
fn log_of_two(alloc: Global, rows: u32) -> Option<(Slots, Seat, Seat)>
    ensures { IfSome result (λ all. (all.1.table ≡ all.0.table) × (all.2.table ≡ all.0.table)) }
{
    let (slots, seat) = log(alloc, rows).ok()?;
    let (one, other) = slots.split(seat).ok()?;
    Some((slots, one, other))
}

// Claims so many rows, and publishes the words there.
fn publish(slots: &Slots, seat: &mut Seat, rows: u32, words: &[u64]) -> Option<Receipt>
    requires own { seat.old.table ≡ slots.now.table }
    requires rows { (1 ≤ rows) × (rows ≤ 255) }
    requires words { (1 ≤ length words.now) × (length words.now ≤ 5 * rows) }
    ensures { seat.new.table ≡ seat.old.table }
{
    let Ok(mut claim) = slots.claim(seat, rows) else {
        return None;
    };
    for place in 0..words.len() {
        slots.write(seat, &mut claim, place, words[place]);
    }
    Some(slots.publish(seat, claim, words.len()))
}

// Whether fewer rows are left. If not, one is voided.
fn is_full(slots: &Slots, seat: &mut Seat) -> bool
    requires { seat.old.table ≡ slots.now.table }
    ensures { seat.new.table ≡ seat.old.table }
{
    match slots.claim(seat, 1) {
        Err(Full) => true,
        Ok(claim) => {
            slots.void(seat, claim);
            false
        }
    }
}

// The first word of a row's record, or 0 where the row has none or its second word is not ten times the first.
fn first_word(slots: &Slots, seat: &mut Seat, row: u32) -> u64
    requires { seat.old.table ≡ slots.now.table }
    ensures { seat.new.table ≡ seat.old.table }
{
    let mut words = [0u64; 5];
    match slots.read(seat, row, &mut words) {
        Read::Words(2) if words[1] == words[0].wrapping_mul(10) => words[0],
        _ => 0,
    }
}

// The first words of four rows.
fn first_words(slots: &Slots, seat: &mut Seat) -> [u64; 4]
    requires { seat.old.table ≡ slots.now.table }
    ensures { seat.new.table ≡ seat.old.table }
{
    let one = first_word(slots, seat, 0);
    let two = first_word(slots, seat, 1);
    let three = first_word(slots, seat, 2);
    let four = first_word(slots, seat, 3);
    [one, two, three, four]
}

// Publishes two records, each of a word and ten times that word. Whether both had a row.
fn publish_both(slots: &Slots, seat: &mut Seat, first: u64, second: u64) -> bool
    requires { seat.old.table ≡ slots.now.table }
    ensures { seat.new.table ≡ seat.old.table }
{
    publish(slots, seat, 1, &[first, first.wrapping_mul(10)]).is_some()
        && publish(slots, seat, 1, &[second, second.wrapping_mul(10)]).is_some()
}

// Whether these are the four words that two threads publish, in any order.
fn has_all(words: &[u64]) -> bool {
    words.contains(&10) && words.contains(&11) && words.contains(&20) && words.contains(&21)
}

#[test]
fn two_threads_fill_a_log(rt: HostRuntime) {
    let Some((slots, mut one, rest)) = log_of_two(rt.alloc(), 4) else {
        panic!(rt; "no log with two seats")
    };
    let Ok((mut two, mut three)) = slots.split(rest) else {
        panic!(rt; "split handed the seat back")
    };
    let (a, b) = join(
        &rt,
        || publish_both(&slots, &mut one, 10, 11),
        || publish_both(&slots, &mut two, 20, 21),
    );
    assert!(rt; a && b && is_full(&slots, &mut three));
    let words = first_words(&slots, &mut three);
    assert!(rt; first_words(&slots, &mut three) == words && has_all(&words));
}

#[test]
fn a_size_is_from_1_to_65536(rt: HostRuntime) {
    assert!(rt; matches!(Slots::new(rt.alloc(), 0), Err(SlotsError::BadSize)));
    assert!(rt; matches!(Slots::new(rt.alloc(), 65_537), Err(SlotsError::BadSize)));
    assert!(rt; log(rt.alloc(), 65_536).is_ok());
}

/// Whether this is the text of an error. It is written once more where memory was refused.
fn is_text(alloc: Global, error: &SlotsError, text: &str) -> bool {
    let written = match error.to_string(alloc) {
        Err(_) => error.to_string(alloc),
        written => written,
    };
    match written {
        Ok(written) => written.as_str() == text,
        Err(_) => false,
    }
}

#[test]
fn errors_have_texts(rt: HostRuntime) {
    assert!(rt; is_text(rt.alloc(), &SlotsError::BadSize, "bad size"));
    assert!(rt; is_text(rt.alloc(), &SlotsError::OutOfMemory, "out of memory"));
}

#[test]
fn another_seat_reads_a_record_of_five_words(rt: HostRuntime) {
    let Some((slots, mut one, mut two)) = log_of_two(rt.alloc(), 4) else {
        panic!(rt; "no log with two seats")
    };
    assert!(rt; publish(&slots, &mut one, 1, &[1, 2, 3, 4, 5]) == Some(Receipt { row: 0, len: 5 }));
    let mut small = [7u64; 4];
    assert!(rt; slots.read(&mut two, 0, &mut small) == Read::TooSmall(5) && small == [7; 4]);
    let mut words = [7u64; 6];
    assert!(rt;
        slots.read(&mut two, 0, &mut words) == Read::Words(5) && words == [1, 2, 3, 4, 5, 7]
    );
    assert!(rt; slots.read(&mut two, 0, &mut words[..5]) == Read::Words(5));
}

#[test]
fn a_free_row_and_one_beyond_are_absent(rt: HostRuntime) {
    let Ok((slots, mut seat)) = log(rt.alloc(), 4) else {
        panic!(rt; "no log")
    };
    let mut words = [7u64; 5];
    assert!(rt; slots.read(&mut seat, 3, &mut words) == Read::Absent);
    assert!(rt; slots.read(&mut seat, 4, &mut words) == Read::Absent && words == [7; 5]);
}

#[test]
fn a_voided_claim_reads_as_void(rt: HostRuntime) {
    let Some((slots, mut one, mut two)) = log_of_two(rt.alloc(), 1) else {
        panic!(rt; "no log with two seats")
    };
    let mut words = [7u64; 5];
    assert!(rt; !is_full(&slots, &mut one) && is_full(&slots, &mut two));
    assert!(rt; slots.read(&mut two, 0, &mut words) == Read::Void && words == [7; 5]);
}

#[test]
fn places_that_are_not_written_are_0(rt: HostRuntime) {
    let Ok((slots, mut seat)) = log(rt.alloc(), 1) else {
        panic!(rt; "no log")
    };
    match slots.claim(&mut seat, 1) {
        Err(Full) => panic!(rt; "a free log is full"),
        Ok(mut claim) => {
            slots.write(&mut seat, &mut claim, 3, u64::MAX);
            slots.publish(&mut seat, claim, 5);
        }
    }
    let mut words = [7u64; 5];
    assert!(rt;
        slots.read(&mut seat, 0, &mut words) == Read::Words(5) && words == [0, 0, 0, u64::MAX, 0]
    );
}

// Whether the first row has these words, and a buffer of five places is too small for them and stays as it was.
fn reads_seven(slots: &Slots, seat: &mut Seat, given: &[u64; 7]) -> bool
    requires { seat.old.table ≡ slots.now.table }
    ensures { seat.new.table ≡ seat.old.table }
{
    let mut words = [0u64; 7];
    let small = slots.read(seat, 0, &mut words[..5]);
    if small != Read::TooSmall(7) || words != [0; 7] {
        return false;
    }
    slots.read(seat, 0, &mut words) == Read::Words(7) && words == *given
}

fn is_absent(slots: &Slots, seat: &mut Seat, row: u32) -> bool
    requires { seat.old.table ≡ slots.now.table }
    ensures { seat.new.table ≡ seat.old.table }
{
    let mut words = [0u64; 7];
    slots.read(seat, row, &mut words) == Read::Absent
}

#[test]
fn seven_words_stand_in_two_rows(rt: HostRuntime) {
    let Some((slots, mut one, mut two)) = log_of_two(rt.alloc(), 10) else {
        panic!(rt; "no log with two seats")
    };
    let given = [1, 2, 3, 4, 5, 6, 7];
    assert!(rt; publish(&slots, &mut one, 2, &given) == Some(Receipt { row: 0, len: 7 }));
    assert!(rt; reads_seven(&slots, &mut two, &given));
    assert!(rt; is_absent(&slots, &mut two, 1) && is_absent(&slots, &mut two, 9));
}

// As many words as a record may have, each another.
fn longest() -> [u64; 1_275] {
    let mut given = [0u64; 1_275];
    for place in 0..1_275 {
        given[place] = u64::MAX - place as u64;
    }
    given
}

// Whether the first row has these words.
fn reads_longest(slots: &Slots, seat: &mut Seat, given: &[u64; 1_275]) -> bool
    requires { seat.old.table ≡ slots.now.table }
    ensures { seat.new.table ≡ seat.old.table }
{
    let mut words = [0u64; 1_275];
    slots.read(seat, 0, &mut words) == Read::Words(1_275) && words == *given
}

#[test]
fn the_longest_record_is_read_back(rt: HostRuntime) {
    let Some((slots, mut one, mut two)) = log_of_two(rt.alloc(), 300) else {
        panic!(rt; "no log with two seats")
    };
    let given = longest();
    assert!(rt; publish(&slots, &mut one, 255, &given) == Some(Receipt { row: 0, len: 1_275 }));
    assert!(rt; reads_longest(&slots, &mut two, &given));
}

// Two words in a row, as a thread with a seat of its own publishes them.
fn publish_two(slots: &Slots, mut seat: Seat, words: [u64; 2]) -> Seat
    requires { seat.table ≡ slots.now.table }
    ensures { result.table ≡ slots.now.table }
{
    let _ = publish(slots, &mut seat, 1, &words);
    seat
}

// A record by each of three seats, which are one then.
fn publish_three(slots: &Slots, one: Seat, two: Seat, three: Seat) -> Seat
    requires one { one.table ≡ slots.now.table }
    requires two { two.table ≡ slots.now.table }
    requires three { three.table ≡ slots.now.table }
    ensures { result.table ≡ slots.now.table }
{
    let one = publish_two(slots, one, [10, 100]);
    let two = publish_two(slots, two, [20, 200]);
    let three = publish_two(slots, three, [30, 300]);
    slots.join(slots.join(one, two), three)
}

#[test]
fn the_seat_of_three_reads_what_each_published(rt: HostRuntime) {
    let Some((slots, one, rest)) = log_of_two(rt.alloc(), 4) else {
        panic!(rt; "no log with two seats")
    };
    let Ok((two, three)) = slots.split(rest) else {
        panic!(rt; "split handed the seat back")
    };
    let mut all = publish_three(&slots, one, two, three);
    assert!(rt; first_words(&slots, &mut all) == [10, 20, 30, 0]);
}
