//! The histories of a page.

ghost use Rattle.std.specs.Prelude.{◌≡◌, All, IfSome, option_map, slice_get};
ghost use Rattle.jh_ops.specs.Operation.{operation};
ghost use Rattle.jh_ops.specs.OperationWritten.{IsWritable};

use jh_bands::{Band, Line};
use jh_ops::Op;
use jh_timeline::{Bar, Mark, Picture, Window};

/// A history as a page shows it.
#[derive(Drop)]
pub struct Section {
    /// What stands above it, as bytes that something printed. Empty: it has no heading.
    pub heading: Vec<u8>,
    pub history: Vec<Op>,
    /// Which of its records are drawn.
    pub window: Window,
    /// What is drawn of its clients.
    pub picture: Picture,
    /// The faults that are active in the window, in the order in which they begin.
    pub bands: Vec<Band>,
    /// The records of the nemesis in the window, in order.
    pub lines: Vec<Line>,
    /// The number of each bar's operation among those of the history, from 0, by which orders name it;
    /// none of a completion that stands alone.
    pub numbers: Vec<Option<usize>>,
    /// The notes at its bars.
    pub marks: Vec<Mark>,
}

impl Section {
    ghost use Rattle.jh_timeline_pages.specs.Drawings.{number_of_bar, section_record};

    /// The bar of this number, if there is one.
    pub(crate) fn bar(&self, number: usize) -> Option<Bar>
        ensures { result ≡ slice_get self.now.picture.bars.items number }
    {
        self.picture.bars.get(number).copied()
    }

    /// The number of the operation of this bar among those of the history, if it has one.
    pub(crate) fn number_of_bar(&self, bar: usize) -> Option<usize>
        ensures { result ≡ number_of_bar self.now bar }
    {
        match self.numbers.get(bar) {
            Some(number) => *number,
            None => None,
        }
    }

    /// The record at an index, if there is one.
    pub(crate) fn record(&self, index: usize) -> Option<&Op>
        requires { All (λ op. IsWritable op.process) self.now.history.items }
        ensures found { option_map (λ op. operation op.now) result ≡ section_record self.now index }
        ensures writable { IfSome result (λ op. IsWritable op.now.process) }
    {
        if index < self.history.len() {
            Some(&self.history[index])
        } else {
            None
        }
    }
}
