//! The law of the texts of generators, a function that does nothing and whose contract is the law.

ghost use Rattle.std.specs.Prelude.{◌≡◌, Some};
ghost use Rattle.jh_gen.specs.Generator.{Generator};
ghost use Rattle.jh_gen.specs.GeneratorText.{parsed_generator};
ghost use Rattle.jh_gen_texts.specs.GeneratorWritten.{IsWritableGenerator, edn_of_generator};

/// What is written of a generator means that generator, so what `value_of_gen` writes,
/// `gen_of_value` reads back. The numbers of its limits, reserves and steps are below 2^32, as
/// those of each `Gen` are.
pub fn generators_read_back()
    ensures { (g : Generator) → IsWritableGenerator g
        → parsed_generator (edn_of_generator g) ≡ Some g }
{}
