//! The calls of each panel, and what is drawn of them. `specs/Panels.antt` has the rule.

ghost use Rattle.std.specs.Prelude.{◌≡◌, ◌<◌, ◌++◌, All, IfOk, OnOk, length};
ghost use Rattle.jh_plots.specs.CallsInside.{AreCallsWithin};
ghost use Rattle.jh_plots.specs.Panels as rule;
ghost use Rattle.jh_plots.specs.Panels.{IsPanelOf};
ghost use Rattle.jh_plots.specs.PanelsInside as inside;
ghost use Rattle.jh_plots.specs.PanelsInside.{AreGroupsOf, ArePanelsOfGroups, IsGroupOf};
ghost use Rattle.jh_plots.specs.PanelsInside.{IsGroupPlotted};
ghost use Rattle.jh_plots.specs.Rates as rates;
ghost use Rattle.jh_plots.specs.RatesInside.{AreSmallCounts};
ghost use Rattle.jh_plots.specs.ScaleInside.{IsScale};

use crate::calls::TimedCall;
use crate::percentiles::percentiles_of;
use crate::plot::Panel;
use crate::points::points_of;
use crate::rates::{Counts, counts_of, rates_of};
use crate::scale::Scale;
use jh_edn::write;
use jh_numbers::Numbers;
use std::alloc::{AllocError, Global};

/// The last panel, which has all functions from its own number on.
const LAST_PANEL: usize = 7;

/// The calls of a panel.
#[derive(Drop)]
pub(crate) struct Group {
    pub(crate) calls: Vec<TimedCall>,
    /// How many of them ended in each window, and how.
    pub(crate) counts: Vec<Counts>,
}

/// The calls of a panel, in order.
fn own_calls(alloc: Global, calls: &[TimedCall], panel: usize) -> Result<Vec<TimedCall>, AllocError>
    ensures { IfOk result (λ own. own.items ≡ rule.own_calls calls.now panel) }
{
    let mut own = Vec::new(alloc);
    for call in calls {
        if call.function.min(LAST_PANEL) == panel {
            own.push(*call)?;
        }
    }
    Ok(own)
}

/// The calls of a panel, with their counts.
fn group_of(alloc: Global, end: u64, calls: &[TimedCall], panel: usize) -> Result<Group, AllocError>
    requires { AreCallsWithin end calls.now }
    ensures group { IfOk result (IsGroupOf end calls.now panel) }
    ensures few { IfOk result (λ group. All AreSmallCounts group.counts.items) }
{
    let calls = own_calls(alloc, calls, panel)?;
    let counts = counts_of(alloc, end, &calls)?;
    Ok(Group { calls, counts })
}

/// The calls of each panel.
pub(crate) fn groups_of(
    alloc: Global,
    end: u64,
    calls: &[TimedCall],
    functions: usize,
) -> Result<Vec<Group>, AllocError>
    requires { AreCallsWithin end calls.now }
    ensures groups { IfOk result
        (λ groups. AreGroupsOf end calls.now (rule.panels_for functions) groups.items) }
    ensures few { IfOk result
        (λ groups. All (λ group. All AreSmallCounts group.counts.items) groups.items) }
{
    let mut groups = Vec::new(alloc);
    for panel in 0..functions.min(LAST_PANEL + 1) {
        groups.push(group_of(alloc, end, calls, panel)?)?;
    }
    Ok(groups)
}

/// Writes the printed name of a function behind what is there.
fn write_name(functions: &Numbers, number: usize, heading: &mut Vec<u8>) -> Result<(), AllocError>
    ensures { OnOk result
        (heading.new.items ≡ heading.old.items ++ inside.name_at functions.now number) }
{
    match functions.value(number) {
        Some(name) => write(name, heading).map_err(|_| AllocError),
        None => Ok(()),
    }
}

/// The names of a panel's functions, with a comma between each two.
fn panel_heading(alloc: Global, functions: &Numbers, panel: usize) -> Result<Vec<u8>, AllocError>
    requires { panel < rule.panels_for (length functions.now) }
    ensures { IfOk result (λ heading. heading.items ≡ rule.panel_heading functions.now panel) }
{
    let mut heading = Vec::new(alloc);
    write_name(functions, panel, &mut heading)?;
    if panel == LAST_PANEL {
        for number in LAST_PANEL + 1..functions.len() {
            heading.push(b',')?;
            write_name(functions, number, &mut heading)?;
        }
    }
    Ok(heading)
}

/// The panel of a number, which has these calls.
fn panel_of(
    alloc: Global,
    scale: &Scale,
    functions: &Numbers,
    number: usize,
    group: &Group,
) -> Result<Panel, AllocError>
    requires scale { IsScale scale.now }
    requires number { number < rule.panels_for (length functions.now) }
    requires plotted { IsGroupPlotted scale.now group.now }
    requires counts { group.now.counts.items ≡ rates.counts_of scale.now.end group.now.calls.items }
    ensures { IfOk result
        (IsPanelOf scale.now functions.now number group.now.calls.items) }
{
    let heading = panel_heading(alloc, functions, number)?;
    let points = points_of(alloc, scale, &group.calls)?;
    let percentiles = percentiles_of(alloc, scale, &group.calls)?;
    let rates = rates_of(alloc, scale, &group.counts)?;
    Ok(Panel {
        heading,
        calls: group.calls.len(),
        points,
        percentiles,
        rates,
    })
}

/// A panel for each group.
pub(crate) fn panels_of(
    alloc: Global,
    scale: &Scale,
    functions: &Numbers,
    groups: &[Group],
) -> Result<Vec<Panel>, AllocError>
    requires scale { IsScale scale.now }
    requires number { length groups.now ≡ rule.panels_for (length functions.now) }
    requires plotted { All (IsGroupPlotted scale.now) groups.now }
    requires counts { All
        (λ group. group.counts.items ≡ rates.counts_of scale.now.end group.calls.items) groups.now }
    ensures { IfOk result
        (λ panels. ArePanelsOfGroups scale.now functions.now groups.now panels.items) }
{
    let mut panels = Vec::new(alloc);
    for (number, group) in groups.iter().enumerate() {
        panels.push(panel_of(alloc, scale, functions, number, group)?)?;
    }
    Ok(panels)
}
