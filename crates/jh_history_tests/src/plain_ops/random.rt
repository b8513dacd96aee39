//! Operations and records of them that look random: mostly right, now and then not.

ghost use Rattle.std.specs.Prelude.{◌<◌};

use crate::plain_ops::pairs::Step;
use crate::plain_ops::records::{Held, Record, Records, Words};
use jh_ops::{Kind, Process};
use jh_test_kit::Dice;
use std::alloc::{AllocError, Global};

/// What stands between two of the texts below.
const BAR: &str = " | ";

const FUNCTIONS: &str = ":read | :write | nil | \"f\" | [:read 1]";

const PARTS: &str = ":type | :process | :f | :value | :time | :index";

const OTHERS: &str = ":error | :event | \"type\" | type | :types | :a/type | nil | 5 | [:type] | \
    #t :f | :nemesis";

const VALUES: &str = "nil | true | false | 0 | -1 | 7 | 9223372036854775807 | \
    -9223372036854775808 | \\a | \\newline | \"\" | \"ok\" | \"5\" | \"a \\\"b\" | :ok | :okay | \
    :invoke | :nemesis | :a/ok | ok | nemesis | a/b | [] | [1 [2]] | (1 2) | {} | {:type :ok} | \
    {:f 1, :process 0} | #{} | #{:type} | #t 5 | #a/b [1]";

const NO_MAPS: &str = "nil | 5 | :ok | \"{}\" | #{} | #{:type :ok} | \\a | [] | () | [1] | (nil 2)";

const NUMBERS: &str = "0 | 1 | 2 | 3 | 4 | 5 | 6 | 7 | 8 | 9 | 10 | 11 | 12 | 13 | 14 | 15 | 16";

/// One that does operations, one after another.
#[derive(Clone, Copy)]
struct Client {
    number: u64,
    is_waiting: bool,
}

/// A random kind.
fn any_kind(dice: &mut Dice) -> Kind {
    match dice.below(4) {
        0 => Kind::Invoke,
        1 => Kind::Ok,
        2 => Kind::Fail,
        _ => Kind::Info,
    }
}

impl Client {
    /// What it does next, seldom out of turn. Mostly it goes on under another number behind an
    /// `:info`.
    fn act(&mut self, dice: &mut Dice) -> Step {
        let kind = match dice.below(24) {
            0 => any_kind(dice),
            _ if !self.is_waiting => Kind::Invoke,
            1..=4 => Kind::Info,
            5..=12 => Kind::Fail,
            _ => Kind::Ok,
        };
        let process = Process::Client(self.number);
        self.is_waiting = kind == Kind::Invoke;
        if kind == Kind::Info && dice.below(6) > 0 {
            self.number = self.number.wrapping_add(3);
        }
        (kind, process)
    }
}

/// What three clients and the nemesis do, fewer steps than these.
pub fn random_steps(alloc: Global, dice: &mut Dice, bound: u64) -> Result<Vec<Step>, AllocError>
    requires { 0 < bound }
{
    let mut clients = [0, 1, u64::MAX].map(|number| Client {
        number,
        is_waiting: false,
    });
    let mut steps = Vec::new(alloc);
    for _ in 0..dice.below(bound) {
        let step = match clients.get_mut(dice.below(4) as usize) {
            Some(client) => client.act(dice),
            None => (any_kind(dice), Process::Nemesis),
        };
        steps.push(step)?;
    }
    Ok(steps)
}

/// The text of a kind.
fn kind_text(kind: Kind) -> &'static str {
    match kind {
        Kind::Invoke => ":invoke",
        Kind::Ok => ":ok",
        Kind::Fail => ":fail",
        Kind::Info => ":info",
    }
}

/// The text of a process. The last number of all is written as the last of those that can be.
fn process_text(process: Process) -> &'static str {
    match process {
        Process::Nemesis => ":nemesis",
        Process::Client(u64::MAX) => "9223372036854775807",
        Process::Client(number) => NUMBERS.split(BAR).nth(number as usize).unwrap_or("17"),
    }
}

/// Puts a pair at a random place.
fn put(dice: &mut Dice, pairs: &mut Vec<Words>, pair: Words) -> Result<(), AllocError> {
    let place = dice.below(pairs.len() as u64 + 1) as usize;
    pairs.insert(place, pair)?;
    Ok(())
}

/// The pairs of an operation, in any order. What has a place of its own may stand there twice.
fn right_pairs(alloc: Global, dice: &mut Dice, step: Step) -> Result<Vec<Words>, AllocError> {
    let mut pairs: Vec<Words> = Vec::new(alloc);
    let f = dice.one_of(FUNCTIONS, BAR);
    put(dice, &mut pairs, (":type", kind_text(step.0)))?;
    put(dice, &mut pairs, (":process", process_text(step.1)))?;
    put(dice, &mut pairs, (":f", f))?;
    for _ in 0..dice.below(5) {
        let keys = match dice.below(3) {
            0 => OTHERS,
            _ => ":value | :time | :index",
        };
        let pair = (dice.one_of(keys, BAR), dice.one_of(VALUES, BAR));
        put(dice, &mut pairs, pair)?;
    }
    Ok(pairs)
}

/// Changes pairs in one thing, or puts one more among them.
fn spoil(dice: &mut Dice, pairs: &mut Vec<Words>) -> Result<(), AllocError> {
    let place = dice.below((pairs.len() as u64).max(1)) as usize;
    let (part, other) = (dice.one_of(PARTS, BAR), dice.one_of(OTHERS, BAR));
    let value = dice.one_of(VALUES, BAR);
    match (dice.below(4), pairs.get_mut(place)) {
        (0, Some(pair)) => pair.0 = other,
        (1, Some(pair)) => pair.1 = value,
        (2, Some(_)) => {
            pairs.remove(place);
        }
        _ => put(dice, pairs, (part, value))?,
    }
    Ok(())
}

/// A record of a step, changed in one to three things, or now and then a value that is no map.
fn spoiled_record(alloc: Global, dice: &mut Dice, step: Step) -> Result<Record, AllocError> {
    if dice.below(6) == 0 {
        return Ok(Record::Other(dice.one_of(NO_MAPS, BAR)));
    }
    let mut pairs = right_pairs(alloc, dice, step)?;
    for _ in 0..=dice.below(3) {
        spoil(dice, &mut pairs)?;
    }
    Ok(Record::Map(pairs))
}

/// Records of random steps, half of the time all right; now and then one value that is no map.
pub fn random_records(alloc: Global, dice: &mut Dice) -> Result<Records, AllocError> {
    let mut records = Vec::new(alloc);
    let may_spoil = dice.below(2) == 0;
    for step in random_steps(alloc, dice, 14)? {
        records.push(match may_spoil && dice.below(4) == 0 {
            true => spoiled_record(alloc, dice, step)?,
            false => Record::Map(right_pairs(alloc, dice, step)?),
        })?;
    }
    if records.is_empty() && may_spoil {
        records.push(Record::Other(dice.one_of(NO_MAPS, BAR)))?;
    }
    Ok(Records {
        records,
        held: match dice.below(24) {
            0 => Held::InSet,
            1..=6 => Held::InList,
            7..=12 => Held::InVector,
            _ => Held::Apart,
        },
        tags: dice.below(3),
    })
}
