//! The kinds of faults that random schedules are made of. `specs/Kinds.antt` says which are drawn; a
//! new kind is first a fault of `jh_env` and a kind of `jh_step_texts`, then a case here and there.

ghost use Rattle.std.specs.Prelude.{◌≡◌, IfOk};
ghost use Rattle.jh_random_faults.specs.Kinds as rule;
ghost use Rattle.jh_random_faults.specs.Kinds.{kinds_drawn};
ghost use Rattle.jh_random_faults.specs.Named.{HaveNamed};

use crate::draws::Draw;
use jh_step_texts::{FAULT_KINDS, FaultKind};
use std::alloc::{AllocError, Global};

/// Which kinds of faults a random schedule may have. One that has none has no random faults.
#[derive(Clone, Copy, Debug, PartialEq, Eq)]
pub struct Palette {
    pub cut: bool,
    pub slow: bool,
    pub loss: bool,
    pub fix: bool,
    pub pause: bool,
    pub kill: bool,
    pub bump: bool,
}

impl Palette {
    /// The palette of all kinds.
    pub fn all() -> Palette
        ensures { result ≡ rule.whole_palette }
    {
        Palette {
            cut: true,
            slow: true,
            loss: true,
            fix: true,
            pause: true,
            kill: true,
            bump: true,
        }
    }

    /// Whether it has a kind.
    pub fn has(self, kind: FaultKind) -> bool
        ensures { result ≡ rule.has_kind self kind }
    {
        match kind {
            FaultKind::Cut => self.cut,
            FaultKind::Slow => self.slow,
            FaultKind::Loss => self.loss,
            FaultKind::Fix => self.fix,
            FaultKind::Pause => self.pause,
            FaultKind::Kill => self.kill,
            FaultKind::Bump => self.bump,
        }
    }
}

/// Whether faults of this kind name links.
fn is_on_links(kind: FaultKind) -> bool
    ensures { result ≡ rule.is_on_links kind }
{
    match kind {
        FaultKind::Cut | FaultKind::Slow | FaultKind::Loss | FaultKind::Fix => true,
        FaultKind::Pause | FaultKind::Kill | FaultKind::Bump => false,
    }
}

/// Whether a fault of this kind may be drawn, for so many nodes.
fn is_drawn(palette: Palette, count: usize, kind: FaultKind) -> bool
    ensures { result ≡ rule.is_drawn palette count kind }
{
    palette.has(kind) && (!is_on_links(kind) || count > 1)
}

/// The kinds of a palette of which faults are drawn for so many nodes, in the order in which one is
/// chosen. One node has no link, so kinds of faults on links are left out there.
///
/// Error: memory was refused.
pub fn kinds_of(alloc: Global, palette: Palette, count: usize) -> Result<Vec<FaultKind>, AllocError>
    ensures kinds { IfOk result (λ kinds. kinds.items ≡ kinds_drawn palette count) }
    ensures named { IfOk result (λ kinds. HaveNamed count kinds.items) }
{
    let mut kinds = Vec::new(alloc);
    for kind in &FAULT_KINDS {
        if is_drawn(palette, count, *kind) {
            kinds.push(*kind)?;
        }
    }
    Ok(kinds)
}

/// The kind of the fault of a draw, one of these, where there is one.
pub fn drawn_kind(kinds: &[FaultKind], draw: Draw) -> Option<FaultKind>
    ensures { result ≡ rule.drawn_kind kinds.now draw }
{
    if kinds.is_empty() {
        return None;
    }
    let index = draw.kind % kinds.len() as u64;
    Some(kinds[index as usize])
}
