//! Generators as EDN values, written. `specs/GeneratorWritten.antt` has the rule, kind by kind.

ghost use Rattle.std.specs.Prelude.{◌≡◌, ◌∷◌, [], pos, Some, IfOk};
ghost use Rattle.jh_edn.specs.Edn.{int, keyword, items_of};
ghost use Rattle.jh_edn.specs.Edn as edn;
ghost use Rattle.jh_edn.specs.View.{view, views};
ghost use Rattle.jh_gen.specs.Generator.{row_of, share_list};
ghost use Rattle.jh_gen.specs.GeneratorText.{parsed_generator};
ghost use Rattle.jh_gen.specs.View.{generator_of};
ghost use Rattle.jh_gen_texts.specs.GeneratorWritten as text;
ghost use Rattle.jh_gen_texts.specs.GeneratorWritten.{IsWritableGenerator, AreWritable};
ghost use Rattle.jh_gen_texts.specs.GeneratorWritten.{AreWritableShares};
ghost use Rattle.jh_gen_texts.specs.GeneratorWritten.{IsWritableCall, edn_of_call};
ghost use Rattle.jh_gen_texts.specs.GeneratorWritten.{edn_of_generator, values_of_generators};
ghost use Rattle.jh_gen_texts.specs.GeneratorWritten.{values_of_shares};

use jh_edn::{Value, Values};
use jh_gen::{Gen, Gens, Rise, Shares};
use jh_ops::{Call, Request};
use std::alloc::{AllocError, Global};

/// A keyword, behind which values can be put.
fn name_alone(alloc: Global, name: &str) -> Result<Vec<Value>, AllocError>
    ensures { IfOk result (λ values. views values.items ≡ keyword name.now ∷ []) }
{
    let mut values = Vec::new(alloc);
    values.push(Value::keyword(alloc, name)?)?;
    Ok(values)
}

/// A vector of these values.
fn vector(values: Vec<Value>) -> Value
    ensures { view result ≡ edn.vector (items_of (views values.items)) }
{
    Value::Vector(Values::of(values))
}

/// A number of a limit, a reserve or a step.
fn small_number(number: u32) -> Value
    ensures { view result ≡ int (pos number) }
{
    Value::Int(i64::from(number))
}

/// A vector of a keyword and a value.
fn named(alloc: Global, name: &str, part: Value) -> Result<Value, AllocError>
    ensures { IfOk result (λ value. view value ≡ text.named name.now (view part ∷ [])) }
{
    let mut values = name_alone(alloc, name)?;
    values.push(part)?;
    Ok(vector(values))
}

/// A vector of a keyword and two values.
fn named_pair(alloc: Global, name: &str, one: Value, other: Value) -> Result<Value, AllocError>
    ensures { IfOk result
        (λ value. view value ≡ text.named name.now (view one ∷ view other ∷ [])) }
{
    let mut values = name_alone(alloc, name)?;
    values.push(one)?;
    values.push(other)?;
    Ok(vector(values))
}

/// The text of a call.
fn value_of_call(alloc: Global, call: Call) -> Result<Value, AllocError>
    ensures text { IfOk result (λ value. view value ≡ edn_of_call call) }
    ensures writable { IfOk result (λ _. IsWritableCall call) }
{
    match call {
        Call::Client(Request::Read) => Value::keyword(alloc, "read"),
        Call::Client(Request::Write(number)) => named(alloc, "write", Value::Int(number)),
        Call::Client(Request::Cas(old, new)) => {
            named_pair(alloc, "cas", Value::Int(old), Value::Int(new))
        }
        Call::Client(Request::Add(number)) => named(alloc, "add", Value::Int(number)),
        Call::Client(Request::Generate) => Value::keyword(alloc, "generate"),
        Call::Client(Request::Txn) => Value::keyword(alloc, "txn"),
        Call::Step(place) => named(alloc, "step", small_number(place)),
    }
}

/// The name of a generator of rising numbers.
fn rising_name(rise: Rise) -> &'static str
    ensures { result.now ≡ text.rising_name rise }
{
    match rise {
        Rise::Adds => "rising",
        Rise::Writes => "rising-write",
    }
}

/// The text of a generator. On the way each of its numbers is read, so that a clause can say that all
/// are below 2^32.
#[cycle(written)]
fn written(alloc: Global, source: &Gen) -> Result<Value, AllocError>
    ensures text { IfOk result (λ value. view value ≡ edn_of_generator (generator_of source.now)) }
    ensures writable { IfOk result (λ _. IsWritableGenerator (generator_of source.now)) }
{
    match source {
        Gen::Nil => Ok(vector(name_alone(alloc, "nil")?)),
        Gen::Once(call) => named(alloc, "once", value_of_call(alloc, *call)?),
        Gen::Rising(rise, first) => named(alloc, rising_name(*rise), Value::Int(*first)),
        Gen::Forever(call) => named(alloc, "forever", value_of_call(alloc, *call)?),
        Gen::Seq(members) => Ok(vector(row_values(alloc, "seq", members)?)),
        Gen::Limit(most, inner) => {
            let inner = written(alloc, inner.as_gen())?;
            named_pair(alloc, "limit", small_number(*most), inner)
        }
        Gen::Mix(members) => Ok(vector(row_values(alloc, "mix", members)?)),
        Gen::Phases(members) => Ok(vector(row_values(alloc, "phases", members)?)),
        Gen::Reserve(shares, inner) => {
            let mut values = share_values(alloc, "reserve", shares)?;
            values.push(written(alloc, inner.as_gen())?)?;
            Ok(vector(values))
        }
        Gen::EachThread(inner) => named(alloc, "each-thread", written(alloc, inner.as_gen())?),
        Gen::Clients(inner) => named(alloc, "clients", written(alloc, inner.as_gen())?),
        Gen::NemesisOnly(inner) => named(alloc, "nemesis", written(alloc, inner.as_gen())?),
    }
}

/// A keyword, and the text of each generator behind it.
#[cycle(written)]
fn row_values(alloc: Global, name: &str, members: &Gens) -> Result<Vec<Value>, AllocError>
    ensures text { IfOk result (λ values. views values.items
        ≡ keyword name.now ∷ values_of_generators (row_of members.now)) }
    ensures writable { IfOk result (λ _. AreWritable (row_of members.now)) }
{
    let mut values = name_alone(alloc, name)?;
    for member in members.as_slice() {
        values.push(written(alloc, member)?)?;
    }
    Ok(values)
}

/// A keyword, and behind it the number of each share and the text of its generator.
#[cycle(written)]
fn share_values(alloc: Global, name: &str, shares: &Shares) -> Result<Vec<Value>, AllocError>
    ensures text { IfOk result (λ values. views values.items
        ≡ keyword name.now ∷ values_of_shares (share_list shares.now)) }
    ensures writable { IfOk result (λ _. AreWritableShares (share_list shares.now)) }
{
    let mut values = name_alone(alloc, name)?;
    for (count, part) in shares.as_slice() {
        values.push(small_number(*count))?;
        values.push(written(alloc, part)?)?;
    }
    Ok(values)
}

/// The text of a generator, which `gen_of_value` of `jh_gen` reads back as this generator: one of
/// `[:nil]`, `[:once CALL]`, `[:rising N]`, `[:rising-write N]`, `[:forever CALL]`, `[:seq G ..]`,
/// `[:limit N G]`, `[:mix G ..]`, `[:phases G ..]`, `[:reserve N1 G1 .. D]`, `[:each-thread G]`,
/// `[:clients G]` and `[:nemesis G]`. A call is `:read`, `[:write N]`, `[:cas OLD NEW]`, `[:add N]`,
/// `:generate`, `:txn` or `[:step I]`.
///
/// Takes time linear in the generator.
///
/// Error: memory was refused.
pub fn value_of_gen(alloc: Global, source: &Gen) -> Result<Value, AllocError>
    ensures text { IfOk result (λ value. view value ≡ edn_of_generator (generator_of source.now)) }
    ensures read_back { IfOk result
        (λ value. parsed_generator (view value) ≡ Some (generator_of source.now)) }
{
    written(alloc, source)
}
