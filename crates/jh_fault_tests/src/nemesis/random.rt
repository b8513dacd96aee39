//! Random steps on a nemesis and on the plain one, side by side. After each step both have given the same answer, their
//! active faults have the same ids in the same order, and each cell is the same.
//!
//! A row is how many nodes there are, below which number ids are, how many seeds there are, and how many steps for each.

ghost use Rattle.std.specs.Prelude.{[], IfSome};
ghost use Rattle.jh_env.specs.Overlay.{StandsFor};

use crate::plain_nemesis::{
    Habit, PlainCells, PlainFault, PlainNemesis, PlainStep, all_links, random_cells, random_step,
};
use jh_env::{Env, Node, Nodes};
use jh_nemesis::{Nemesis, Step, StepAnswer};
use jh_test_kit::Random;
use std::alloc::Global;

/// What is drawn: steps over so many nodes, with ids below a number.
#[derive(Clone, Copy)]
struct Draws {
    nodes: u8,
    ids: u32,
    habit: Habit,
}

/// A nemesis and the plain one, and the ends of all links.
#[derive(Drop)]
struct Both {
    nemesis: Nemesis,
    plain: PlainNemesis,
    links: Vec<(u8, u8)>,
    random: Random,
    draws: Draws,
}

fn names(alloc: Global, count: u8) -> Option<Vec<String>> {
    let mut names = Vec::new(alloc);
    for place in 0..count {
        names.push(format!(in alloc; "n{place}").ok()?).ok()?;
    }
    Some(names)
}

fn nodes_of(alloc: Global, count: u8) -> Option<Nodes> {
    let names = names(alloc, count)?;
    let mut texts = Vec::new(alloc);
    for name in names.iter() {
        texts.push(name.as_str()).ok()?;
    }
    Nodes::of(alloc, texts.as_slice()).ok()
}

fn env_of(alloc: Global, start: &PlainCells, count: u8) -> Option<Env>
    ensures { IfSome result (λ env. StandsFor env []) }
{
    let start = start.start(alloc, nodes_of(alloc, count)?)?;
    Env::start(alloc, start).ok()
}

fn begun(alloc: Global, nemesis: &mut Nemesis, id: u32, fault: &PlainFault) -> Option<StepAnswer> {
    let fault = fault.fault(alloc, nemesis.env().nodes())?;
    if !fault.fits(nemesis.env()) {
        return None;
    }
    nemesis.apply(Step::Begin(id, fault)).ok()
}

/// What a nemesis answers to a step. None: memory was refused.
fn answer(alloc: Global, nemesis: &mut Nemesis, step: &PlainStep) -> Option<StepAnswer> {
    match step {
        PlainStep::Begin(id, fault) => begun(alloc, nemesis, *id, fault),
        PlainStep::Withdraw(id) => nemesis.apply(Step::Withdraw(*id)).ok(),
        PlainStep::WithdrawAll => nemesis.apply(Step::WithdrawAll).ok(),
        PlainStep::Undo => nemesis.apply(Step::Undo).ok(),
        PlainStep::Redo => nemesis.apply(Step::Redo).ok(),
    }
}

/// A nemesis over cells.
fn nemesis_of(alloc: Global, start: &PlainCells, count: u8) -> Option<Nemesis> {
    Some(Nemesis::new(alloc, env_of(alloc, start, count)?))
}

/// A nemesis and the plain one over random cells.
fn started(alloc: Global, seed: u64, draws: Draws) -> Option<Both> {
    let mut random = Random::new(seed);
    let links = all_links(alloc, draws.nodes)?;
    let start = random_cells(alloc, &mut random, draws.nodes)?;
    let nemesis = nemesis_of(alloc, &start, draws.nodes)?;
    Some(Both {
        plain: PlainNemesis::new(alloc, start)?,
        nemesis,
        links,
        random,
        draws,
    })
}

impl Both {
    fn has_same_ids(&self) -> bool {
        for place in 0..self.plain.active_len() {
            let id = self.nemesis.active_at(place).map(|(id, _)| id);
            if id != self.plain.id_at(place) {
                return false;
            }
        }
        self.nemesis.active_len() == self.plain.active_len()
    }

    fn has_same_links(&self) -> bool {
        let (env, cells) = (self.nemesis.env(), self.plain.cells());
        for (from, to) in self.links.as_slice() {
            let link = env.link(Node::at(*from), Node::at(*to));
            if link.is_none() || link != cells.link(*from, *to) {
                return false;
            }
        }
        true
    }

    fn has_same_nodes(&self) -> bool {
        let (env, cells) = (self.nemesis.env(), self.plain.cells());
        for place in 0..self.draws.nodes {
            let cell = env.node(Node::at(place));
            if cell.is_none() || cell != cells.node(place) {
                return false;
            }
        }
        true
    }

    /// Whether both are the same.
    fn is_same(&self) -> bool {
        self.has_same_ids() && self.has_same_links() && self.has_same_nodes()
    }

    /// The answer to a random step, where both give it and are the same afterwards. None: memory was refused.
    fn step(&mut self, alloc: Global) -> Option<Option<StepAnswer>> {
        let Draws { nodes, ids, habit } = self.draws;
        let step = random_step(alloc, &mut self.random, nodes, ids, habit)?;
        let given = answer(alloc, &mut self.nemesis, &step)?;
        let wanted = self.plain.apply(step)?;
        Some((given == wanted && self.is_same()).then_some(given))
    }

    /// The answers to so many random steps, up to the first on which they differ.
    fn steps(&mut self, alloc: Global, count: u32) -> Option<Vec<StepAnswer>> {
        let mut answers = Vec::new(alloc);
        for _step in 0..count {
            match self.step(alloc)? {
                Some(answer) => answers.push(answer).ok()?,
                None => break,
            }
        }
        Some(answers)
    }
}

fn answers_once(alloc: Global, seed: u64, draws: Draws, steps: u32) -> Option<Vec<StepAnswer>> {
    started(alloc, seed, draws)?.steps(alloc, steps)
}

/// The answers of a seed, drawn once more where memory was refused.
fn answers(alloc: Global, seed: u64, draws: Draws, steps: u32) -> Option<Vec<StepAnswer>> {
    match answers_once(alloc, seed, draws, steps) {
        None => answers_once(alloc, seed, draws, steps),
        answers => answers,
    }
}

/// The first of so many seeds on which they differ within so many steps.
fn first_wrong(alloc: Global, draws: Draws, seeds: u64, steps: u32) -> Option<u64> {
    for seed in 0..seeds {
        let answers = answers(alloc, seed, draws, steps);
        if !answers.is_some_and(|it| it.len() == steps as usize) {
            return Some(seed);
        }
    }
    None
}

fn number(row: &str, place: usize) -> Option<u32> {
    row.split_ascii_whitespace().nth(place)?.parse().ok()
}

/// Whether both are the same at all steps of a row.
fn agree(alloc: Global, row: &str) -> Option<bool> {
    let draws = Draws {
        nodes: u8::try_from(number(row, 0)?).ok()?,
        ids: number(row, 1)?,
        habit: Habit::Mixed,
    };
    let wrong = first_wrong(alloc, draws, u64::from(number(row, 2)?), number(row, 3)?);
    Some(wrong.is_none())
}

/// The first row at which they differ.
fn first_wrong_row(alloc: Global, rows: &str) -> Option<&str> {
    for row in rows.lines() {
        if agree(alloc, row) != Some(true) {
            return Some(row);
        }
    }
    None
}

#[test]
fn few_nodes_do_as_they_should(rt: HostRuntime) {
    let rows = "\
        2 3 20 100\n\
        3 4 20 100\n\
        7 6 8 100\n\
        32 8 2 30";
    assert_eq!(rt; first_wrong_row(rt.alloc(), rows), None);
}

#[test]
fn all_nodes_do_as_they_should(rt: HostRuntime) {
    assert_eq!(rt; first_wrong_row(rt.alloc(), "64 12 1 30"), None);
}

/// Whether both are the same at so many steps that become many faults and steps, one of which has this answer.
fn reach(alloc: Global, draws: Draws, steps: u32, wanted: StepAnswer) -> bool {
    match answers(alloc, 0, draws, steps) {
        Some(answers) => answers.len() == steps as usize && answers.contains(&wanted),
        None => false,
    }
}

#[test]
fn many_faults_do_as_they_should(rt: HostRuntime) {
    let draws = Draws {
        nodes: 3,
        ids: 600,
        habit: Habit::Growing,
    };
    assert!(rt; reach(rt.alloc(), draws, 1500, StepAnswer::TooManyActive));
}

#[test]
fn many_steps_do_as_they_should(rt: HostRuntime) {
    let draws = Draws {
        nodes: 2,
        ids: 40,
        habit: Habit::Growing,
    };
    assert!(rt; reach(rt.alloc(), draws, 12000, StepAnswer::TooManySteps));
}
