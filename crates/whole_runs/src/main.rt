//! Takes the steps of an input of `mvhub steps` as one run. It is a program for tests.
//!
//! It reads standard input to its end, opens the system of the first line that opens one, and takes all steps behind that line by
//! one call of `World::run`. It writes the replies, one a line, as `mvhub steps` does: a step is answered in a run as it is
//! alone. A line that asks no step gets no reply.
//!
//! With the word `state` it then writes what the system shows, one thing a line: what each repository has, by the products, batches and
//! packs that the steps name; what each party submitted, the record, the frames of each link, what the hub knows of these products and
//! batches, and what lies on the wires.
//!
//! With the word `states` it does so behind each step. For one step, for two and so on it opens the system anew, takes the first steps
//! as one run, and writes the last reply and what the system shows then.
//!
//! With `links SHAPE N` it reads nothing. It routes a repackaging for each link of N batches through a hub, and writes how many batches
//! descend from the first: `chain` links each to the next, `ring` the last to the first too, and `complete` each to each other.
//! `bench/run` takes the time.
#![tactic(auto)]

mod catalogues;
mod copies;
mod items;
mod links;
mod lists;
mod named;
mod page;

use crate::catalogues::write_catalogues;
use crate::copies::write_copies;
use crate::links::{Linked, count_descendants};
use crate::lists::{write_lists, write_wires};
use crate::named::Named;
use crate::page::Page;
use mv_hub::Parties;
use mv_lines::{MarketLists, Request, reply_text};
use mv_machine::{Limits, Reply, Step};
use mv_system::World;
use std::alloc::Global;
use std::env;
use std::io::{Read, Write};
use std::process::ExitCode;

/// What is to be written of a run.
#[derive(Clone, Copy)]
enum Wanted {
    /// The replies alone.
    Replies,
    /// The replies, and what the system shows behind the last.
    State,
    /// Each reply, and what the system shows behind it.
    States,
}

/// What the words ask for.
#[derive(Clone, Copy)]
enum Task {
    /// To take the lines of the input as one run, and to write this.
    Run(Wanted),
    /// To write how many batches descend from the first of some that are linked.
    Links(Linked),
}

/// What is written of one run.
#[derive(Clone, Copy)]
enum Shown<'a> {
    /// The replies.
    Replies,
    /// The replies, and what the system shows of what was named.
    State(&'a Named),
    /// The last reply, and what the system shows of what was named.
    Last(&'a Named),
}

/// The line that opens the system, and the steps behind it.
#[derive(Drop)]
struct Plan<'a> {
    alloc: Global,
    opening: Option<&'a [u8]>,
    steps: Vec<Step>,
}

impl<'a> Plan<'a> {
    /// Nothing is open.
    fn new(alloc: Global) -> Plan<'a> {
        Plan {
            alloc,
            opening: None,
            steps: Vec::new(alloc),
        }
    }

    /// Takes the lines of an input. None where memory was refused, here and below.
    fn take_lines(&mut self, input: &'a [u8]) -> Option<()> {
        for line in input.split(|byte| *byte == b'\n') {
            self.take(line)?;
        }
        Some(())
    }

    /// Takes a line.
    fn take(&mut self, line: &'a [u8]) -> Option<()> {
        match Request::read(self.alloc, line) {
            Ok(Request::Step(step)) => self.take_step(step),
            Ok(Request::Open { .. }) => {
                self.take_opening(line);
                Some(())
            }
            Err(_) => Some(()),
        }
    }

    /// Takes a line that asks for an opening.
    fn take_opening(&mut self, line: &'a [u8]) {
        if self.opening.is_none() && opening_of(self.alloc, line).is_some() {
            self.opening = Some(line);
        }
    }

    /// Takes a step, where there is a system to take it in.
    fn take_step(&mut self, step: Step) -> Option<()> {
        if self.opening.is_none() {
            return Some(());
        }
        self.steps.push(step).ok()
    }

    /// Writes what is wanted.
    fn answer(&self, wanted: Wanted, page: &mut Page) -> Option<()> {
        let steps = self.steps.as_slice();
        match wanted {
            Wanted::Replies => self.write_run(page, steps, Shown::Replies),
            Wanted::State => {
                let mut named = Named::new(self.alloc);
                self.write_state_at_end(page, &mut named)
            }
            Wanted::States => {
                let mut named = Named::new(self.alloc);
                self.write_states(page, &mut named)
            }
        }
    }

    /// Writes the replies to all steps, and what the system shows then.
    fn write_state_at_end(&self, page: &mut Page, named: &mut Named) -> Option<()> {
        let steps = self.steps.as_slice();
        for step in steps {
            named.note(step)?;
        }
        self.write_run(page, steps, Shown::State(named))
    }

    /// Writes each reply, and what the system shows behind it.
    fn write_states(&self, page: &mut Page, named: &mut Named) -> Option<()> {
        let steps = self.steps.as_slice();
        for place in 0..steps.len() {
            named.note(&steps[place])?;
            self.write_run(page, &steps[..place + 1], Shown::Last(named))?;
        }
        Some(())
    }

    /// Takes steps as one run, in a system of their own, and writes what is to be shown of it. No other function has a system to drop.
    fn write_run(&self, page: &mut Page, steps: &[Step], shown: Shown<'_>) -> Option<()> {
        let Some(line) = self.opening else {
            return Some(());
        };
        let (parties, limits) = opening_of(self.alloc, line)?;
        let mut world = World::open(self.alloc, parties, limits).ok()?;
        write_run_in(page, &mut world, steps, shown)
    }
}

/// Takes steps as one run in a system, and writes what is to be shown of it.
fn write_run_in(
    page: &mut Page,
    world: &mut World,
    steps: &[Step],
    shown: Shown<'_>,
) -> Option<()> {
    let replies = world.run(steps).ok()?;
    write_shown(page, world, replies.as_slice(), shown);
    Some(())
}

/// Writes what is to be shown of a run, by its replies and the system behind it.
fn write_shown(page: &mut Page, world: &mut World, replies: &[Reply], shown: Shown<'_>) {
    match shown {
        Shown::Replies => write_replies(page, replies),
        Shown::State(named) => {
            write_replies(page, replies);
            write_state(page, world, named);
        }
        Shown::Last(named) => {
            write_replies(page, &replies[replies.len().saturating_sub(1)..]);
            write_state(page, world, named);
        }
    }
}

/// Writes replies, one a line.
fn write_replies(page: &mut Page, replies: &[Reply]) {
    for reply in replies {
        write_reply(page, reply);
    }
}

/// Writes a reply.
fn write_reply(page: &mut Page, reply: &Reply) {
    match reply_text(page.alloc(), reply) {
        Ok(text) => page.line(text.as_str()),
        Err(_) => page.refuse(),
    }
}

/// Writes what a system shows of what was named. What lies on its wires shows only as it is lost, so that comes last.
fn write_state(page: &mut Page, world: &mut World, named: &Named) {
    write_copies(page, world, named);
    write_lists(page, world);
    write_catalogues(page, world.hub(), named);
    write_wires(page, world);
}

/// The parties and limits of the system that a line opens, where it opens one.
fn opening_of(alloc: Global, line: &[u8]) -> Option<(Parties, Limits)> {
    match Request::read(alloc, line) {
        Ok(
            Request::Open {
                parties,
                submissions,
                uplink,
                window,
                wire,
            },
        ) => {
            let limits = Limits::of(window, wire, uplink, submissions).ok()?;
            parties_with(alloc, parties, limits)
        }
        _ => None,
    }
}

/// The parties of lists of markets, where there are such, with these limits.
fn parties_with(alloc: Global, lists: MarketLists, limits: Limits) -> Option<(Parties, Limits)> {
    match Parties::new(alloc, lists.into_lists()) {
        Ok(parties) => Some((parties, limits)),
        Err(_) => None,
    }
}

/// Writes what is wanted of an input.
fn answer(alloc: Global, input: &[u8], wanted: Wanted, page: &mut Page) -> Option<()> {
    let mut plan = Plan::new(alloc);
    answer_by(&mut plan, input, wanted, page)
}

/// The same, by a plan that is filled with the lines of the input.
fn answer_by<'a>(
    plan: &mut Plan<'a>,
    input: &'a [u8],
    wanted: Wanted,
    page: &mut Page,
) -> Option<()> {
    plan.take_lines(input)?;
    plan.answer(wanted, page)
}

/// Writes how many batches descend from the first of these.
fn write_descendants(linked: Linked, page: &mut Page) -> Option<()> {
    let count = count_descendants(page.alloc(), linked)?;
    let text = format!(in page.alloc(); "{count}").ok()?;
    page.line(text.as_str());
    Some(())
}

/// What the words behind the program's name ask for; none where they are mistaken.
fn task_of(words: &[String]) -> Option<Task> {
    let Some(word) = words.get(1) else {
        return Some(Task::Run(Wanted::Replies));
    };
    match word.as_str() {
        "state" => Some(Task::Run(Wanted::State)),
        "states" => Some(Task::Run(Wanted::States)),
        "links" => Some(Task::Links(Linked::of_words(words)?)),
        _ => None,
    }
}

fn main(rt: HostRuntime) -> ExitCode {
    let Ok(words) = env::args(&rt) else {
        return ExitCode::from(2);
    };
    let Ok(words): Result<Vec<String>, _> = words.collect(rt.alloc()) else {
        return ExitCode::from(2);
    };
    let Some(task) = task_of(&words) else {
        return ExitCode::from(2);
    };
    let mut page = Page::new(rt.alloc());
    let written = match task {
        Task::Links(linked) => write_descendants(linked, &mut page),
        Task::Run(wanted) => {
            let mut input = Vec::new(rt.alloc());
            let mut reader = rt.stdin();
            if reader.read_to_end(&mut input).is_err() {
                return ExitCode::from(1);
            }
            answer(rt.alloc(), input.as_slice(), wanted, &mut page)
        }
    };
    if written.is_none() || !page.is_whole() {
        return ExitCode::from(1);
    }
    let mut writer = rt.stdout();
    match writer.write_all(page.as_bytes()) {
        Ok(()) => ExitCode::from(0),
        Err(_) => ExitCode::from(1),
    }
}
