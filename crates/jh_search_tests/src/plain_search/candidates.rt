//! The seed and the entries of a candidate, as lines.

ghost use Rattle.std.specs.Prelude.{length};
ghost use Rattle.jh_nemesis.specs.Steps.{FitsNodes};

use crate::plain_search::faults::fault_text;
use jh_edn::write as write_value;
use jh_nemesis::Step;
use jh_random_faults::Palette;
use jh_search::Options;
use jh_simnode::{Entry, MAX_ENTRIES, Plan};
use jh_step_texts::value_of_step;
use rand_core::utils::NextWord;
use rand_pcg::Lcg128Xsl64;
use std::alloc::Global;
use std::io::Write;

/// The text of an entry, and the number by which it is sorted.
#[derive(Drop)]
struct Line {
    due: u32,
    text: Vec<u8>,
}

/// Adds a line, unless there are as many as a schedule may have entries.
fn put_line(lines: &mut Vec<Line>, due: u32, text: Vec<u8>) -> Option<()> {
    if lines.len() < MAX_ENTRIES {
        lines.push(Line { due, text }).ok()?;
    }
    Some(())
}

/// The lines of the plan's own entries. Each is due no earlier than those before it.
fn own_lines(alloc: Global, plan: &Plan) -> Option<Vec<Line>> {
    let mut lines = Vec::new(alloc);
    let mut due = 0;
    for entry in plan.schedule().entries() {
        due = entry.at.max(due);
        put_line(&mut lines, due, entry_text(alloc, plan, entry)?)?;
    }
    Some(lines)
}

/// The text of an entry: when it is due, and its step.
fn entry_text(alloc: Global, plan: &Plan, entry: &Entry) -> Option<Vec<u8>>
    requires { FitsNodes (length plan.now.env.names) entry.now.step }
{
    let mut text = Vec::new(alloc);
    let at = entry.at;
    write!(text, "{at} ").ok()?;
    let step = value_of_step(alloc, plan.environment().nodes(), &entry.step).ok()?;
    write_value(&step, &mut text).ok()?;
    Some(text)
}

/// The id that the step of an entry names, and 0 where it names none.
fn id_of(entry: &Entry) -> u32 {
    match &entry.step {
        Step::Begin(id, _) | Step::Withdraw(id) => *id,
        _ => 0,
    }
}

/// The kinds of which faults are drawn.
fn kinds(alloc: Global, palette: Palette, count: usize) -> Option<Vec<&'static str>> {
    let all = [
        ("cut", palette.cut && count > 1),
        ("slow", palette.slow && count > 1),
        ("loss", palette.loss && count > 1),
        ("fix", palette.fix && count > 1),
        ("pause", palette.pause),
        ("kill", palette.kill),
        ("bump", palette.bump),
    ];
    let mut kinds = Vec::new(alloc);
    for (kind, is_drawn) in all {
        if is_drawn {
            kinds.push(kind).ok()?;
        }
    }
    Some(kinds)
}

/// The next number below a bound, and 0 where there is none.
fn below(numbers: &mut Lcg128Xsl64, bound: u32) -> u32 {
    let number = numbers
        .next_word()
        .checked_rem(u64::from(bound))
        .unwrap_or(0);
    u32::try_from(number).unwrap_or(0)
}

/// Draws a fault, and adds the line of its begin and, unless it stays, that of its withdrawal.
fn put_fault(
    alloc: Global,
    plan: &Plan,
    kinds: &[&str],
    id: u32,
    numbers: &mut Lcg128Xsl64,
    lines: &mut Vec<Line>,
) -> Option<()> {
    let heals = plan.ops().saturating_sub(plan.ops() / 4);
    let kind = numbers.next_word();
    let drawn = (
        numbers.next_word(),
        numbers.next_word(),
        numbers.next_word(),
    );
    let begin = below(numbers, heals);
    let stays = below(numbers, 4) == 0;
    let left = plan.ops().saturating_sub(begin);
    let end = begin.saturating_add(1).saturating_add(below(numbers, left));
    let Some(index) = kind.checked_rem(kinds.len() as u64) else {
        return Some(());
    };
    let kind = kinds.get(usize::try_from(index).ok()?)?;
    let fault = fault_text(alloc, plan.environment().nodes(), kind, drawn)?;
    let mut text = Vec::new(alloc);
    write!(text, "{begin} [:begin {id} ").ok()?;
    text.extend_from_slice(&fault).ok()?;
    text.push(b']').ok()?;
    put_line(lines, begin, text)?;
    if !stays {
        let mut text = Vec::new(alloc);
        write!(text, "{end} [:withdraw {id}]").ok()?;
        put_line(lines, end, text)?;
    }
    Some(())
}

/// The seed with the lines behind it, as one text.
fn joined(alloc: Global, seed: u64, lines: &[Line]) -> Option<Vec<u8>> {
    let mut text = Vec::new(alloc);
    write!(text, "{seed}").ok()?;
    for line in lines {
        text.extend_from_slice(b", ").ok()?;
        text.extend_from_slice(&line.text).ok()?;
    }
    Some(text)
}

/// The seed of a candidate, and the texts of its entries. What a fault names stands in order in its
/// text, and so it does in the candidate. None: memory was refused.
pub fn plain_candidate(
    alloc: Global,
    plan: &Plan,
    options: &Options,
    number: u64,
) -> Option<Vec<u8>> {
    let seed = plan.seed().wrapping_add(number) % (1 << 63);
    let mut numbers = Lcg128Xsl64::new(u128::from(seed), 1);
    let own = numbers.next_word();
    let kinds = kinds(alloc, options.palette, plan.environment().nodes().len())?;
    let mut lines = own_lines(alloc, plan)?;
    let greatest = plan
        .schedule()
        .entries()
        .iter()
        .map(id_of)
        .max()
        .unwrap_or(0);
    for fault in 0..options.faults {
        let id = greatest.wrapping_add(1).wrapping_add(fault);
        put_fault(alloc, plan, &kinds, id, &mut numbers, &mut lines)?;
    }
    if own % 3 != 0 {
        let heals = plan.ops().saturating_sub(plan.ops() / 4);
        let mut text = Vec::new(alloc);
        write!(text, "{heals} [:withdraw-all]").ok()?;
        put_line(&mut lines, heals, text)?;
    }
    lines.sort_by_key(|line| line.due).ok()?;
    joined(alloc, seed, &lines)
}
