//! EDN texts: values, a reader and a printer.
#![tactic(auto)]

mod all;
mod atom;
mod bytes;
mod character;
mod copy;
mod element;
mod error;
mod fingerprint;
mod is_normal;
mod key;
mod keyed;
mod laws;
mod line;
mod name;
mod normal;
mod order;
mod pairs;
mod parts;
mod place;
mod reader;
mod scan;
mod sequence;
mod string;
mod syntax_error;
mod text;
mod value;
mod writer;

pub use all::read_all;
pub use bytes::read_bytes;
pub use error::EdnError;
pub use keyed::value_under;
pub use laws::{
    equality_laws, normal_laws, order_laws, print_laws, spelled_once, values_are_spelled,
};
pub use line::values_in_line;
pub use parts::{Element, write_part};
pub use place::{FirstError, first_error};
pub use reader::{DEPTH_LIMIT, read_one};
pub use sequence::{Sink, read_sequence};
pub use text::Text;
pub use value::{Pairs, Tagged, Value, Values};
pub use writer::{put, write};
