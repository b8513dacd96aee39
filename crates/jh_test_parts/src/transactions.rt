//! Transactions as random numbers choose them. `specs/Transactions.antt` has the rule.

ghost use Rattle.std.specs.Prelude.{◌≡◌, ◌∷◌, ◌<◌, ◌^◌, [], IfOk, OnOk, length, pos};
ghost use Rattle.std.specs.Prelude.{slice_index_or};
ghost use Rattle.jh_edn.specs.Edn.{int, keyword};
ghost use Rattle.jh_edn.specs.Parts.{vector_of};
ghost use Rattle.jh_edn.specs.View.{view};
ghost use Rattle.jh_test_parts.specs.Test.{IsGoodShape};
ghost use Rattle.jh_test_parts.specs.Transactions as rule;

use crate::parts::TransactionShape;
use jh_edn::{Value, Values};
use rand_core::utils::NextWord;
use rand_pcg::Lcg128Xsl64;
use std::alloc::{AllocError, Global};
use std::marker::Model;

/// How many numbers there are for keys, which are integers of a text. No test uses all of them.
const KEY_NUMBERS: u64 = 1 << 63;

/// The stream of the random numbers of transactions; the calls of a test have stream 0.
const TRANSACTION_STREAM: u128 = 1;

/// A slot: its key, and how many appends of it were made.
#[derive(Clone, Copy, Debug)]
pub struct Slot {
    pub key: u64,
    pub appends: u64,
}

/// Where the transactions of a test stand: how they are made, the random numbers, the slots, and the
/// next key that was never used.
#[derive(Drop)]
pub struct TransactionSource {
    shape: TransactionShape,
    random_numbers: Lcg128Xsl64,
    slots: Vec<Slot>,
    next_key: u64,
}

impl Model for TransactionSource {
    ghost use Rattle.jh_test_parts.specs.Transactions.{TransactionSource as Source};

    ghost Value = { Source };

    ghost use Rattle.jh_test_parts.specs.SourceInside.{source_of, IsSource};

    ghost view = { source_of };

    ghost invariant = { IsSource };
}

/// So many slots, with the keys from 0 on.
fn first_slots(alloc: Global, count: u32) -> Result<Vec<Slot>, AllocError>
    ensures { IfOk result (λ slots. slots.items ≡ rule.slots_from 0 count) }
{
    let mut slots = Vec::new(alloc);
    for key in 0..u64::from(count) {
        slots.push(Slot { key, appends: 0 })?;
    }
    Ok(slots)
}

/// A micro-operation of this function, on this key.
fn micro_op(alloc: Global, function: &str, key: u64, third: Value) -> Result<Value, AllocError>
    requires { key < 2 ^ 63 }
    ensures { IfOk result (λ op. view op
        ≡ vector_of (keyword function.now ∷ int (pos key) ∷ view third ∷ [])) }
{
    let mut parts = Vec::new(alloc);
    parts.push(Value::keyword(alloc, function)?)?;
    parts.push(Value::Int(key as i64))?;
    parts.push(third)?;
    Ok(Value::Vector(Values::of(parts)))
}

impl TransactionSource {
    /// The transactions of a seed, before the first one.
    ///
    /// Error: memory was refused.
    pub fn first(alloc: Global, shape: TransactionShape, seed: u64) -> Result<Self, AllocError>
        requires { IsGoodShape shape }
        ensures { IfOk result (λ source. source ≡ rule.first_source shape seed) }
    {
        Ok(TransactionSource {
            shape,
            random_numbers: Lcg128Xsl64::new(u128::from(seed), TRANSACTION_STREAM),
            slots: first_slots(alloc, shape.keys)?,
            next_key: u64::from(shape.keys),
        })
    }

    /// The next random number.
    fn next_random_number(&mut self) -> u64
        ensures random_number { result ≡ rule.random_number_of self.old }
        ensures source { self.new ≡ rule.after_random_number self.old }
    {
        self.random_numbers.next_word()
    }

    /// Counts one more append to the slot at a place. Where its key has all its appends, the next key
    /// takes its place.
    fn count_append(&mut self, place: usize)
        requires { place < length self.old.slots }
        ensures { self.new ≡ rule.source_after_append self.old place
            (slice_index_or self.old.slots place rule.no_slot) }
    {
        let slot = self.slots[place];
        let appends = slot.appends + 1;
        if appends == u64::from(self.shape.appends) {
            self.slots[place] = Slot {
                key: self.next_key,
                appends: 0,
            };
            self.next_key = (self.next_key + 1) % KEY_NUMBERS;
        } else {
            self.slots[place] = Slot {
                key: slot.key,
                appends,
            };
        }
    }

    /// A micro-operation on the slot at a place: a read, or else an append.
    fn op_on(&mut self, alloc: Global, reads: bool, place: usize) -> Result<Value, AllocError>
        requires { place < length self.old.slots }
        ensures op { IfOk result (λ op. view op ≡ (rule.op_on self.old reads place).0) }
        ensures source { OnOk result (self.new ≡ (rule.op_on self.old reads place).1) }
    {
        let slot = self.slots[place];
        if reads {
            return micro_op(alloc, "r", slot.key, Value::Nil);
        }
        self.count_append(place);
        micro_op(
            alloc,
            "append",
            slot.key,
            Value::Int((slot.appends + 1) as i64),
        )
    }

    /// The next micro-operation.
    fn next_op(&mut self, alloc: Global) -> Result<Value, AllocError>
        ensures op { IfOk result (λ op. view op ≡ (rule.next_op self.old).0) }
        ensures source { OnOk result (self.new ≡ (rule.next_op self.old).1) }
    {
        let reads = self.next_random_number() % 2 == 0;
        let place = self.next_random_number() % u64::from(self.shape.keys);
        self.op_on(alloc, reads, place as usize)
    }

    /// The next transaction: a vector of micro-operations. Where memory is refused, it is not known which
    /// transaction comes next.
    ///
    /// Error: memory was refused.
    pub fn next(&mut self, alloc: Global) -> Result<Value, AllocError>
        ensures transaction { IfOk result
            (λ value. view value ≡ (rule.next_transaction self.old).0) }
        ensures source { OnOk result (self.new ≡ (rule.next_transaction self.old).1) }
    {
        let count = 1 + self.next_random_number() % u64::from(self.shape.most);
        let mut ops = Vec::new(alloc);
        for _op in 0..count {
            ops.push(self.next_op(alloc)?)?;
        }
        Ok(Value::Vector(Values::of(ops)))
    }
}
