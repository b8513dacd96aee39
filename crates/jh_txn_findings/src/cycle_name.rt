//! The names of cycles. `specs/CycleNames.antt` has the definitions.

ghost use Rattle.std.specs.Prelude.{◌≡◌};
ghost use Rattle.std.specs.List.{list_all, list_any};
ghost use Rattle.jh_txn_findings.specs.CycleNames as rule;
ghost use Rattle.jh_txn_findings.specs.CycleNames.{are_anti_dependencies, cycle_kind, cycle_name};
ghost use Rattle.jh_txn_findings.specs.CycleNames.{cycle_name_text, neighbours, anti_dependencies};

use crate::finding::{FoundStep, FoundWhy};

/// Which phenomenon a cycle is: the first of these that fits.
#[derive(Clone, Copy, Debug, PartialEq, Eq)]
pub enum CycleKind {
    /// A step is `:fcw`.
    LostUpdate,
    /// All its steps are `:ww` or `:rt`.
    G0,
    /// None is `:rw`.
    G1c,
    /// One is `:rw`.
    GSingle,
    /// Several are `:rw`, and no two neighbours, the last step and the first one too.
    GNonadjacent,
    /// Two neighbours are `:rw`.
    G2Item,
}

/// The name of a cycle.
#[derive(Clone, Copy, Debug, PartialEq, Eq)]
pub enum CycleName {
    /// No step is of real time.
    Plain(CycleKind),
    /// A step is of real time, `:rt`.
    RealTime(CycleKind),
}

impl CycleName {
    /// The name as the line has it, without its colon, as `G-single-realtime`.
    pub fn text(self) -> &'static str
        ensures { result.now ≡ cycle_name_text self }
    {
        match self {
            CycleName::Plain(CycleKind::LostUpdate) => "lost-update",
            CycleName::Plain(CycleKind::G0) => "G0",
            CycleName::Plain(CycleKind::G1c) => "G1c",
            CycleName::Plain(CycleKind::GSingle) => "G-single",
            CycleName::Plain(CycleKind::GNonadjacent) => "G-nonadjacent",
            CycleName::Plain(CycleKind::G2Item) => "G2-item",
            CycleName::RealTime(CycleKind::LostUpdate) => "lost-update-realtime",
            CycleName::RealTime(CycleKind::G0) => "G0-realtime",
            CycleName::RealTime(CycleKind::G1c) => "G1c-realtime",
            CycleName::RealTime(CycleKind::GSingle) => "G-single-realtime",
            CycleName::RealTime(CycleKind::GNonadjacent) => "G-nonadjacent-realtime",
            CycleName::RealTime(CycleKind::G2Item) => "G2-item-realtime",
        }
    }
}

/// Whether a step is `:ww` or `:rt`.
fn is_write_or_time(why: &FoundWhy) -> bool
    ensures { result ≡ rule.is_write_or_time why.now }
{
    matches!(why, FoundWhy::WriteWrite { .. } | FoundWhy::RealTime)
}

/// Whether a step is `:fcw`.
fn is_first_committer(why: &FoundWhy) -> bool
    ensures { result ≡ rule.is_first_committer why.now }
{
    matches!(why, FoundWhy::FirstCommitter { .. })
}

/// Whether a step is `:rw`.
fn is_anti_dependency(why: &FoundWhy) -> bool
    ensures { result ≡ rule.is_anti_dependency why.now }
{
    matches!(why, FoundWhy::ReadWrite { .. })
}

/// Whether a step is `:rt`.
fn is_real_time(why: &FoundWhy) -> bool
    ensures { result ≡ rule.is_real_time why.now }
{
    matches!(why, FoundWhy::RealTime)
}

/// Whether all steps are `:ww` or `:rt`.
fn has_only_writes(steps: &[FoundStep]) -> bool
    ensures { result ≡ list_all (λ step. rule.is_write_or_time step.why) steps.now }
{
    steps.iter().all(|step| is_write_or_time(&step.why))
}

/// Whether a step is `:fcw`.
fn has_first_committer(steps: &[FoundStep]) -> bool
    ensures { result ≡ list_any (λ step. rule.is_first_committer step.why) steps.now }
{
    steps.iter().any(|step| is_first_committer(&step.why))
}

/// Whether a step is `:rt`.
fn has_real_time(steps: &[FoundStep]) -> bool
    ensures { result ≡ list_any (λ step. rule.is_real_time step.why) steps.now }
{
    steps.iter().any(|step| is_real_time(&step.why))
}

/// How many steps are `:rw`.
fn count_anti_dependencies(steps: &[FoundStep]) -> usize
    ensures { result ≡ anti_dependencies steps.now }
{
    steps
        .iter()
        .filter(|step| is_anti_dependency(&step.why))
        .count()
}

/// Whether two neighbours are `:rw`, the last step and the first one too.
fn has_neighbours(steps: &[FoundStep]) -> bool
    ensures { result ≡ list_any are_anti_dependencies (neighbours steps.now) }
{
    let Some((first, others)) = steps.split_first() else {
        return false;
    };
    let mut before = is_anti_dependency(&first.why);
    for step in others {
        let here = is_anti_dependency(&step.why);
        if before && here {
            return true;
        }
        before = here;
    }
    before && is_anti_dependency(&first.why)
}

/// Which phenomenon a cycle is.
fn kind_of_cycle(steps: &[FoundStep]) -> CycleKind
    ensures { result ≡ cycle_kind steps.now }
{
    if has_first_committer(steps) {
        return CycleKind::LostUpdate;
    }
    if has_only_writes(steps) {
        return CycleKind::G0;
    }
    match count_anti_dependencies(steps) {
        0 => CycleKind::G1c,
        1 => CycleKind::GSingle,
        _ if has_neighbours(steps) => CycleKind::G2Item,
        _ => CycleKind::GNonadjacent,
    }
}

/// The name of a cycle: the phenomenon that it is, and whether a step is of real time. What is no cycle
/// has a name too, which means nothing.
///
/// Takes no memory, and time linear in the steps.
pub fn name_of_cycle(steps: &[FoundStep]) -> CycleName
    ensures { result ≡ cycle_name steps.now }
{
    let kind = kind_of_cycle(steps);
    if has_real_time(steps) {
        CycleName::RealTime(kind)
    } else {
        CycleName::Plain(kind)
    }
}
