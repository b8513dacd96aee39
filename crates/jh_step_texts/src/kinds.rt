//! The kinds of faults and their names, by which a text of a fault begins. `specs/Kinds.antt` has the
//! names; a new kind is a new case here and there.

ghost use Rattle.std.specs.Prelude.{◌≡◌, option_copied};
ghost use Rattle.std.specs.List.{find};
ghost use Rattle.std.specs.Str.{bytes_eq};
ghost use Rattle.jh_step_texts.specs.Kinds.{fault_kind_name, fault_kind_named};

/// A kind of fault.
#[derive(Clone, Copy, Debug, PartialEq, Eq)]
pub enum FaultKind {
    Cut,
    Slow,
    Loss,
    Fix,
    Pause,
    Kill,
    Bump,
}

/// All kinds, in the order in which `specs/Kinds.antt` has them.
pub const FAULT_KINDS: [FaultKind; 7] = [
    FaultKind::Cut,
    FaultKind::Slow,
    FaultKind::Loss,
    FaultKind::Fix,
    FaultKind::Pause,
    FaultKind::Kill,
    FaultKind::Bump,
];

/// The first of these kinds that has this name, if one has.
fn find_kind<'a>(kinds: &'a [FaultKind], name: &str) -> Option<&'a FaultKind>
    ensures { option_copied result
        ≡ find (λ kind. bytes_eq (fault_kind_name kind) name.now) kinds.now }
{
    kinds.iter().find(|kind| kind.has_name(name))
}

impl FaultKind {
    /// The kind of this name, where there is one.
    #[tactic(auto, unfolding(crate::specs::Kinds::fault_kind_named))]
    pub fn named(name: &str) -> Option<FaultKind>
        ensures { result ≡ fault_kind_named name.now }
    {
        find_kind(&FAULT_KINDS, name).copied()
    }

    /// Whether this is its name.
    pub fn has_name(self, name: &str) -> bool
        ensures { result ≡ bytes_eq (fault_kind_name self) name.now }
    {
        self.name() == name
    }

    /// Its name: `cut`, `slow`, `loss`, `fix`, `pause`, `kill` or `bump`.
    pub fn name(self) -> &'static str
        ensures { result.now ≡ fault_kind_name self }
    {
        match self {
            FaultKind::Cut => "cut",
            FaultKind::Slow => "slow",
            FaultKind::Loss => "loss",
            FaultKind::Fix => "fix",
            FaultKind::Pause => "pause",
            FaultKind::Kill => "kill",
            FaultKind::Bump => "bump",
        }
    }
}
